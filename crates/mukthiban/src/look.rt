// The calls that look at the entry tables, and those that touch carried bytes alone.
ghost use Rattle.order.specs.Beside.{beside};
ghost use Rattle.tree_sound.specs.Tables.{tables, dirs, files};
ghost use Rattle.tree_promises.specs.Calls.{lookup_gives, list_gives, stat_gives, shown_gives, carry_gives};
ghost use Rattle.tree_promises.specs.Public.{LookupPromise, ListPromise, StatPromise, CarriedDirPromise, CarriedFilePromise, SetCarriedDirPromise, SetCarriedFilePromise};
ghost use Rattle.mukthiban.specs.Export.{Exported};

use crate::{Found, Listed, Plain, Stat};

#[unsafe(no_mangle)]
pub extern "C" fn mukthiban_tree_lookup_dir(
    dir_hash: &[u8],
    dir_table: &[u8],
    file_hash: &[u8],
    file_table: &[u8],
    work: &mut [u32],
    parent: u32,
    name: &[u8; 16],
) -> Found
    ensures { Exported result.answer (λ a. LookupPromise (tables dir_hash.now dir_table.now file_hash.now file_table.now) (dirs (tables dir_hash.now dir_table.now file_hash.now file_table.now)) work.old parent name.now (beside (lookup_gives a result.inode result.compared) work.new)) }
{
    tree::look::lookup_dir(
        dir_hash, dir_table, file_hash, file_table, work, parent, name,
    )
    .into()
}

#[unsafe(no_mangle)]
pub extern "C" fn mukthiban_tree_list_dirs(
    dir_hash: &[u8],
    dir_table: &[u8],
    file_hash: &[u8],
    file_table: &[u8],
    work: &mut [u32],
    inode: u32,
    list: &mut [u32],
) -> Listed
    ensures { Exported result.answer (λ a. ListPromise (tables dir_hash.now dir_table.now file_hash.now file_table.now) (dirs (tables dir_hash.now dir_table.now file_hash.now file_table.now)) work.old inode list.old (beside (list_gives a result.count list.new) work.new)) }
{
    tree::look::list_dirs(
        dir_hash, dir_table, file_hash, file_table, work, inode, list,
    )
    .into()
}

#[unsafe(no_mangle)]
pub extern "C" fn mukthiban_tree_carried_dir(
    dir_hash: &[u8],
    dir_table: &[u8],
    file_hash: &[u8],
    file_table: &[u8],
    work: &mut [u32],
    inode: u32,
    carried: &mut [u8; 4],
) -> Plain
    ensures { Exported result.answer (λ a. CarriedDirPromise (tables dir_hash.now dir_table.now file_hash.now file_table.now) work.old inode (beside (shown_gives a carried.new) work.new)) }
{
    let r = tree::carry::carried_dir(dir_hash, dir_table, file_hash, file_table, work, inode);
    *carried = r.unwrap_or([0; 4]);
    Plain {
        answer: order::number(&r),
    }
}

#[unsafe(no_mangle)]
pub extern "C" fn mukthiban_tree_set_carried_dir(
    dir_hash: &[u8],
    dir_table: &mut [u8],
    file_hash: &[u8],
    file_table: &[u8],
    work: &mut [u32],
    inode: u32,
    carried: &[u8; 4],
) -> Plain
    ensures { Exported result.answer (λ a. SetCarriedDirPromise (tables dir_hash.now dir_table.old file_hash.now file_table.now) work.old inode carried.now (beside (carry_gives a (tables dir_hash.now dir_table.new file_hash.now file_table.now)) work.new)) }
{
    tree::carry::set_carried_dir(
        dir_hash, dir_table, file_hash, file_table, work, inode, *carried,
    )
    .into()
}

#[unsafe(no_mangle)]
pub extern "C" fn mukthiban_tree_lookup_file(
    dir_hash: &[u8],
    dir_table: &[u8],
    file_hash: &[u8],
    file_table: &[u8],
    work: &mut [u32],
    parent: u32,
    name: &[u8; 16],
) -> Found
    ensures { Exported result.answer (λ a. LookupPromise (tables dir_hash.now dir_table.now file_hash.now file_table.now) (files (tables dir_hash.now dir_table.now file_hash.now file_table.now)) work.old parent name.now (beside (lookup_gives a result.inode result.compared) work.new)) }
{
    tree::look::lookup_file(
        dir_hash, dir_table, file_hash, file_table, work, parent, name,
    )
    .into()
}

#[unsafe(no_mangle)]
pub extern "C" fn mukthiban_tree_list_files(
    dir_hash: &[u8],
    dir_table: &[u8],
    file_hash: &[u8],
    file_table: &[u8],
    work: &mut [u32],
    inode: u32,
    list: &mut [u32],
) -> Listed
    ensures { Exported result.answer (λ a. ListPromise (tables dir_hash.now dir_table.now file_hash.now file_table.now) (files (tables dir_hash.now dir_table.now file_hash.now file_table.now)) work.old inode list.old (beside (list_gives a result.count list.new) work.new)) }
{
    tree::look::list_files(
        dir_hash, dir_table, file_hash, file_table, work, inode, list,
    )
    .into()
}

#[unsafe(no_mangle)]
pub extern "C" fn mukthiban_tree_carried_file(
    dir_hash: &[u8],
    dir_table: &[u8],
    file_hash: &[u8],
    file_table: &[u8],
    work: &mut [u32],
    inode: u32,
    carried: &mut [u8; 20],
) -> Plain
    ensures { Exported result.answer (λ a. CarriedFilePromise (tables dir_hash.now dir_table.now file_hash.now file_table.now) work.old inode (beside (shown_gives a carried.new) work.new)) }
{
    let r = tree::carry::carried_file(dir_hash, dir_table, file_hash, file_table, work, inode);
    *carried = r.unwrap_or([0; 20]);
    Plain {
        answer: order::number(&r),
    }
}

#[unsafe(no_mangle)]
pub extern "C" fn mukthiban_tree_set_carried_file(
    dir_hash: &[u8],
    dir_table: &[u8],
    file_hash: &[u8],
    file_table: &mut [u8],
    work: &mut [u32],
    inode: u32,
    carried: &[u8; 20],
) -> Plain
    ensures { Exported result.answer (λ a. SetCarriedFilePromise (tables dir_hash.now dir_table.now file_hash.now file_table.old) work.old inode carried.now (beside (carry_gives a (tables dir_hash.now dir_table.now file_hash.now file_table.new)) work.new)) }
{
    tree::carry::set_carried_file(
        dir_hash, dir_table, file_hash, file_table, work, inode, *carried,
    )
    .into()
}

#[unsafe(no_mangle)]
pub extern "C" fn mukthiban_tree_stat(
    dir_hash: &[u8],
    dir_table: &[u8],
    file_hash: &[u8],
    file_table: &[u8],
    work: &mut [u32],
) -> Stat
    ensures { Exported result.answer (λ a. StatPromise (tables dir_hash.now dir_table.now file_hash.now file_table.now) work.old (beside (stat_gives a result.dir_total result.dir_free result.file_total result.file_free) work.new)) }
{
    tree::look::stat(dir_hash, dir_table, file_hash, file_table, work).into()
}
