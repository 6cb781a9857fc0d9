// The inner calls that look at the entry tables, for a side that has tested its tables once and keeps them sound. Each requires what the test tells, and
// tests nothing.
ghost use Rattle.std.specs.Prelude.{◌≡◌};
ghost use Rattle.order.specs.First.{First};
ghost use Rattle.tree_key.specs.Key.{name_key};
ghost use Rattle.tree_promises.specs.Inner.Ready.{Ready};
ghost use Rattle.tree_sound.specs.Tables.{tables, dirs, files};
ghost use Rattle.tree_promises.specs.Calls.{lookup_rows, lookup_done, lookup_gives, ListDirs, ListFiles, list_gives, stat_gives, stat_done};
ghost use Rattle.mukthiban.specs.Export.{Exported};

use crate::{Found, Listed, Stat};
use tree_key::{SaveExtDirEntry, SaveExtFileEntry, SaveExtKey};

#[unsafe(no_mangle)]
pub extern "C" fn mukthiban_tested_tree_lookup_dir(
    dir_hash: &[u8],
    dir_table: &[u8],
    file_hash: &[u8],
    file_table: &[u8],
    parent: u32,
    name: &[u8; 16],
) -> Found
    requires { Ready (tables dir_hash.now dir_table.now file_hash.now file_table.now) }
    ensures { Exported result.answer (λ a. First (lookup_rows (dirs (tables dir_hash.now dir_table.now file_hash.now file_table.now)) (name_key parent name.now)) (lookup_done (dirs (tables dir_hash.now dir_table.now file_hash.now file_table.now)) (name_key parent name.now)) (lookup_gives a result.inode result.compared)) }
{
    let key = SaveExtKey::new(parent, name);
    tree_look::lookup(dir_hash, dir_table, SaveExtDirEntry::WIDTH, key).into()
}

#[unsafe(no_mangle)]
pub extern "C" fn mukthiban_tested_tree_lookup_file(
    dir_hash: &[u8],
    dir_table: &[u8],
    file_hash: &[u8],
    file_table: &[u8],
    parent: u32,
    name: &[u8; 16],
) -> Found
    requires { Ready (tables dir_hash.now dir_table.now file_hash.now file_table.now) }
    ensures { Exported result.answer (λ a. First (lookup_rows (files (tables dir_hash.now dir_table.now file_hash.now file_table.now)) (name_key parent name.now)) (lookup_done (files (tables dir_hash.now dir_table.now file_hash.now file_table.now)) (name_key parent name.now)) (lookup_gives a result.inode result.compared)) }
{
    let key = SaveExtKey::new(parent, name);
    tree_look::lookup(file_hash, file_table, SaveExtFileEntry::WIDTH, key).into()
}

#[unsafe(no_mangle)]
pub extern "C" fn mukthiban_tested_tree_list_dirs(
    dir_hash: &[u8],
    dir_table: &[u8],
    file_hash: &[u8],
    file_table: &[u8],
    inode: u32,
    list: &mut [u32],
) -> Listed
    requires { Ready (tables dir_hash.now dir_table.now file_hash.now file_table.now) }
    ensures { Exported result.answer (λ a. ListDirs (tables dir_hash.now dir_table.now file_hash.now file_table.now) inode list.old (list_gives a result.count list.new)) }
{
    tree_look::list_dirs(dir_hash, dir_table, file_hash, file_table, inode, list).into()
}

#[unsafe(no_mangle)]
pub extern "C" fn mukthiban_tested_tree_list_files(
    dir_hash: &[u8],
    dir_table: &[u8],
    file_hash: &[u8],
    file_table: &[u8],
    inode: u32,
    list: &mut [u32],
) -> Listed
    requires { Ready (tables dir_hash.now dir_table.now file_hash.now file_table.now) }
    ensures { Exported result.answer (λ a. ListFiles (tables dir_hash.now dir_table.now file_hash.now file_table.now) inode list.old (list_gives a result.count list.new)) }
{
    tree_look::list_files(dir_hash, dir_table, file_hash, file_table, inode, list).into()
}

#[unsafe(no_mangle)]
pub extern "C" fn mukthiban_tested_tree_stat(
    dir_hash: &[u8],
    dir_table: &[u8],
    file_hash: &[u8],
    file_table: &[u8],
) -> Stat
    requires { Ready (tables dir_hash.now dir_table.now file_hash.now file_table.now) }
    ensures { Exported result.answer (λ a. (stat_gives a result.dir_total result.dir_free result.file_total result.file_free ≡ stat_done (tables dir_hash.now dir_table.now file_hash.now file_table.now))) }
{
    Ok(tree_look::stat(dir_hash, dir_table, file_hash, file_table)).into()
}
