// The calls inside that change sound entry tables: delete, rename and make. Each judges first and changes nothing where a row applies; none tests soundness.
// Directories and files apart, as in tree_step: their tables can't be lent alike.
#![tactic(auto)]

ghost use Rattle.tree_sound.specs.Tables.{Tables, tables};
ghost use Rattle.tree_promises.specs.declared.Kind.TheVariants.{Directory, File};
ghost use Rattle.tree_promises.specs.Packed.{gives, Inside, delete_tests, delete_done, rename_tests, rename_done};
ghost use Rattle.tree_packed.specs.Opens.{Opens, opens};
ghost use Rattle.tree_promises.specs.Inner.Ready.{ReadyOpens};

use order::Refusal;
use tree_judge::{judge_delete, judge_delete_dir, judge_rename_dir, judge_rename_file};
use tree_key::{SaveExtDirEntry, SaveExtFileEntry, SaveExtKey};
use tree_step::{link_dir, link_file, unlink_dir, unlink_file};

// Deletes file x.
pub fn delete_file(
    dir_hash: &[u8],
    dirs: &mut [u8],
    hash: &mut [u8],
    files: &mut [u8],
    list: &mut [u32],
    opened: &mut usize,
    x: u32,
) -> Result<(), Refusal>
    requires { ReadyOpens (tables dir_hash.now dirs.old hash.old files.old) (opens opened.old list.old) }
    ensures { (let s : Tables = tables dir_hash.now dirs.old hash.old files.old in let o : Opens = opens opened.old list.old in
        Inside s o (delete_tests File s o x) (delete_done File s o x)
        (gives result 0 (tables dir_hash.now dirs.new hash.new files.new) (opens opened.new list.new))) }
{
    let opens = tree_packed::record_of(list, *opened, x);
    judge_delete(hash, files, SaveExtFileEntry::WIDTH, opens, x)?;
    unlink_file(dirs, hash, files, x);
    tree_table::give(files, SaveExtFileEntry::WIDTH, x);
    tree_packed::put_record(list, opened, x, 0);
    Ok(())
}

// Deletes directory x.
pub fn delete_dir(
    hash: &mut [u8],
    dirs: &mut [u8],
    file_hash: &[u8],
    files: &[u8],
    list: &mut [u32],
    opened: &mut usize,
    x: u32,
) -> Result<(), Refusal>
    requires { ReadyOpens (tables hash.old dirs.old file_hash.now files.now) (opens opened.old list.old) }
    ensures { (let s : Tables = tables hash.old dirs.old file_hash.now files.now in let o : Opens = opens opened.old list.old in
        Inside s o (delete_tests Directory s o x) (delete_done Directory s o x)
        (gives result 0 (tables hash.new dirs.new file_hash.now files.now) (opens opened.new list.new))) }
{
    let opens = tree_packed::record_of(list, *opened, x);
    judge_delete_dir(hash, dirs, opens, x)?;
    unlink_dir(hash, dirs, x);
    tree_table::give(dirs, SaveExtDirEntry::WIDTH, x);
    tree_packed::put_record(list, opened, x, 0);
    Ok(())
}

// Gives file x another parent and name. The key is made once, and is judged and linked by.
pub fn rename_file(
    dir_hash: &[u8],
    dirs: &mut [u8],
    hash: &mut [u8],
    files: &mut [u8],
    list: &[u32],
    opened: usize,
    x: u32,
    parent: u32,
    name: &[u8; 16],
) -> Result<(), Refusal>
    requires { ReadyOpens (tables dir_hash.now dirs.old hash.old files.old) (opens opened list.now) }
    ensures { (let s : Tables = tables dir_hash.now dirs.old hash.old files.old in let o : Opens = opens opened list.now in
        Inside s o (rename_tests File s o x parent name.now) (rename_done File s o x parent name.now)
        (gives result 0 (tables dir_hash.now dirs.new hash.new files.new) (opens opened list.now))) }
{
    let opens = tree_packed::record_of(list, opened, x);
    let key = SaveExtKey::new(parent, name);
    judge_rename_file(dir_hash, dirs, hash, files, opens, x, parent, name, key)?;
    unlink_file(dirs, hash, files, x);
    link_file(dirs, hash, files, x, parent, key);
    Ok(())
}

// Gives directory x another parent and name. The key is made once, and is judged and linked by.
pub fn rename_dir(
    hash: &mut [u8],
    dirs: &mut [u8],
    file_hash: &[u8],
    files: &[u8],
    list: &[u32],
    opened: usize,
    x: u32,
    parent: u32,
    name: &[u8; 16],
) -> Result<(), Refusal>
    requires { ReadyOpens (tables hash.old dirs.old file_hash.now files.now) (opens opened list.now) }
    ensures { (let s : Tables = tables hash.old dirs.old file_hash.now files.now in let o : Opens = opens opened list.now in
        Inside s o (rename_tests Directory s o x parent name.now) (rename_done Directory s o x parent name.now)
        (gives result 0 (tables hash.new dirs.new file_hash.now files.now) (opens opened list.now))) }
{
    let opens = tree_packed::record_of(list, opened, x);
    let key = SaveExtKey::new(parent, name);
    judge_rename_dir(hash, dirs, file_hash, files, opens, x, parent, name, key)?;
    unlink_dir(hash, dirs, x);
    link_dir(hash, dirs, x, parent, key);
    Ok(())
}
