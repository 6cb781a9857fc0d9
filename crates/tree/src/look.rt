// The public calls that look at the entry tables: lookup, list and stat.
ghost use Rattle.std.specs.Result.{result_unwrap_or};
ghost use Rattle.order.specs.Answer.{answer_of};
ghost use Rattle.order.specs.Beside.{beside};
ghost use Rattle.tree_sound.specs.Tables.{Tables, tables, dirs, files};
ghost use Rattle.tree_promises.specs.Calls.{lookup_gives, list_gives};
ghost use Rattle.tree_promises.specs.Public.{LookupPromise, ListPromise, StatPromise};
ghost use Rattle.tree_look.specs.Stat.{stat_given};

use order::Refusal;
use tree_key::{SaveExtDirEntry, SaveExtFileEntry, SaveExtKey};
use tree_look::{Looked, MetaStat};

// Looks up a directory by its parent and its name. Done: its inode, and its place in its bucket as the number of entries compared.
pub fn lookup_dir(
    dir_hash: &[u8],
    dir_table: &[u8],
    file_hash: &[u8],
    file_table: &[u8],
    work: &mut [u32],
    parent: u32,
    name: &[u8; 16],
) -> Looked
    ensures { (let s : Tables = tables dir_hash.now dir_table.now file_hash.now file_table.now in
        LookupPromise s (dirs s) work.old parent name.now
        (beside (lookup_gives (answer_of result.inode) (result_unwrap_or result.inode 0) result.compared) work.new)) }
{
    if let Err(why) = tree_test::gate(dir_hash, dir_table, file_hash, file_table, work) {
        return Looked {
            inode: Err(why),
            compared: 0,
        };
    }
    tree_look::lookup(
        dir_hash,
        dir_table,
        SaveExtDirEntry::WIDTH,
        SaveExtKey::new(parent, name),
    )
}

// Looks up a file by its parent and its name. Done: its inode, and its place in its bucket as the number of entries compared.
pub fn lookup_file(
    dir_hash: &[u8],
    dir_table: &[u8],
    file_hash: &[u8],
    file_table: &[u8],
    work: &mut [u32],
    parent: u32,
    name: &[u8; 16],
) -> Looked
    ensures { (let s : Tables = tables dir_hash.now dir_table.now file_hash.now file_table.now in
        LookupPromise s (files s) work.old parent name.now
        (beside (lookup_gives (answer_of result.inode) (result_unwrap_or result.inode 0) result.compared) work.new)) }
{
    if let Err(why) = tree_test::gate(dir_hash, dir_table, file_hash, file_table, work) {
        return Looked {
            inode: Err(why),
            compared: 0,
        };
    }
    tree_look::lookup(
        file_hash,
        file_table,
        SaveExtFileEntry::WIDTH,
        SaveExtKey::new(parent, name),
    )
}

// Lists the directories in directory `inode`. Done: how many places of `list` hold their inodes, in list order; later places stay.
pub fn list_dirs(
    dir_hash: &[u8],
    dir_table: &[u8],
    file_hash: &[u8],
    file_table: &[u8],
    work: &mut [u32],
    inode: u32,
    list: &mut [u32],
) -> Result<usize, Refusal>
    ensures { (let s : Tables = tables dir_hash.now dir_table.now file_hash.now file_table.now in
        ListPromise s (dirs s) work.old inode list.old
        (beside (list_gives (answer_of result) (result_unwrap_or result 0) list.new) work.new)) }
{
    tree_test::gate(dir_hash, dir_table, file_hash, file_table, work)?;
    tree_look::list_dirs(dir_hash, dir_table, file_hash, file_table, inode, list)
}

// Lists the files in directory `inode`. Done: how many places of `list` hold their inodes, in list order; later places stay.
pub fn list_files(
    dir_hash: &[u8],
    dir_table: &[u8],
    file_hash: &[u8],
    file_table: &[u8],
    work: &mut [u32],
    inode: u32,
    list: &mut [u32],
) -> Result<usize, Refusal>
    ensures { (let s : Tables = tables dir_hash.now dir_table.now file_hash.now file_table.now in
        ListPromise s (files s) work.old inode list.old
        (beside (list_gives (answer_of result) (result_unwrap_or result 0) list.new) work.new)) }
{
    tree_test::gate(dir_hash, dir_table, file_hash, file_table, work)?;
    tree_look::list_files(dir_hash, dir_table, file_hash, file_table, inode, list)
}

// Counts entries. Done: the entries in all and those that make can still use, of the directories and of the files.
pub fn stat(
    dir_hash: &[u8],
    dir_table: &[u8],
    file_hash: &[u8],
    file_table: &[u8],
    work: &mut [u32],
) -> Result<MetaStat, Refusal>
    ensures { (let s : Tables = tables dir_hash.now dir_table.now file_hash.now file_table.now in
        StatPromise s work.old
        (beside (stat_given result) work.new)) }
{
    tree_test::gate(dir_hash, dir_table, file_hash, file_table, work)?;
    Ok(tree_look::stat(dir_hash, dir_table, file_hash, file_table))
}
