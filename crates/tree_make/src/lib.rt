// The calls inside that make an entry in sound tables: judged first, then the entry is taken, linked and filled.
// Directories and files apart, as in tree_step: their tables can't be lent alike.
#![tactic(auto)]

ghost use Rattle.std.specs.Prelude.{◌≡◌, [], ◌∷◌, ◌+◌, ◌*◌, ◌/◌, ◌≤◌, ◌<◌, length};
ghost use Rattle.std.specs.Result.{result_unwrap_or};
ghost use Rattle.order.specs.Answer.{answer_of};
ghost use Rattle.tree_table.specs.Field.{write, wrote, sub_dir_field, sub_file_field};
ghost use Rattle.tree_table.specs.Steps.{taken};
ghost use Rattle.tree_sound.specs.Tables.{Tables, tables};
ghost use Rattle.tree_promises.specs.declared.Kind.TheVariants.{Directory, File};
ghost use Rattle.tree_promises.specs.Steps.{made};
ghost use Rattle.tree_promises.specs.Packed.{gives, Inside, make_tests, make_done};
ghost use Rattle.tree_packed.specs.Opens.{Opens, opens};
ghost use Rattle.tree_promises.specs.Inner.Ready.{ReadyOpens, alone};
ghost use Rattle.tree_make.specs.Inner.Take.{Takes};

use order::Refusal;
use tree_carry::{put_carried_dir, put_carried_file};
use tree_judge::judge_made;
use tree_key::{SaveExtDirEntry, SaveExtFileEntry, SaveExtKey};
use tree_step::{link_dir, link_file};

// The record of a new entry: the writer's open, and no readers.
const MADE: u32 = 2147483648;

// Takes an entry for a file, links it and fills it.
fn new_file(
    dirs: &mut [u8],
    hash: &mut [u8],
    files: &mut [u8],
    parent: u32,
    name: &[u8; 16],
    carried: &[u8; 20],
) -> u32
    requires { Takes 48 files.old × (parent * 40 + 40 ≤ length dirs.old) × (0 < length hash.old / 4) }
    ensures { (let s : Tables = tables [] dirs.old hash.old files.old in
        (result ≡ taken (alone 48 files.old)) × (dirs.new ≡ (made File s parent name.now carried.now).dir_table)
        × (hash.new ≡ (made File s parent name.now carried.now).file_hash)
        × (files.new ≡ (made File s parent name.now carried.now).file_table)) }
{
    let x = tree_table::take(files, SaveExtFileEntry::WIDTH);
    link_file(dirs, hash, files, x, parent, SaveExtKey::new(parent, name));
    put_carried_file(files, x, carried);
    x
}

// A new directory has no children.
fn put_childless(dirs: &mut [u8], x: u32)
    requires { x * 40 + 40 ≤ length dirs.old }
    ensures { dirs.new ≡ wrote 40 dirs.old (write x sub_dir_field 0 ∷ write x sub_file_field 0 ∷ []) }
{
    tree_table::put_link(dirs, SaveExtDirEntry::WIDTH, SaveExtDirEntry::SUB_DIR, x, 0);
    tree_table::put_link(
        dirs,
        SaveExtDirEntry::WIDTH,
        SaveExtDirEntry::SUB_FILE,
        x,
        0,
    );
}

// Takes an entry for a directory, links it and fills it.
fn new_dir(hash: &mut [u8], dirs: &mut [u8], parent: u32, name: &[u8; 16], padding: &[u8; 4]) -> u32
    requires { Takes 40 dirs.old × (parent * 40 + 40 ≤ length dirs.old) × (0 < length hash.old / 4) }
    ensures { (result ≡ taken (alone 40 dirs.old))
        × (hash.new ≡ (made Directory (tables hash.old dirs.old [] []) parent name.now padding.now).dir_hash)
        × (dirs.new ≡ (made Directory (tables hash.old dirs.old [] []) parent name.now padding.now).dir_table) }
{
    let x = tree_table::take(dirs, SaveExtDirEntry::WIDTH);
    put_childless(dirs, x);
    link_dir(hash, dirs, x, parent, SaveExtKey::new(parent, name));
    put_carried_dir(dirs, x, padding);
    x
}

// Makes a file, held by its writer.
pub fn make_file(
    dir_hash: &[u8],
    dirs: &mut [u8],
    hash: &mut [u8],
    files: &mut [u8],
    list: &mut [u32],
    opened: &mut usize,
    parent: u32,
    name: &[u8; 16],
    carried: &[u8; 20],
) -> Result<u32, Refusal>
    requires { ReadyOpens (tables dir_hash.now dirs.old hash.old files.old) (opens opened.old list.old) }
    ensures { (let s : Tables = tables dir_hash.now dirs.old hash.old files.old in let o : Opens = opens opened.old list.old in
        Inside s o (make_tests File s o parent name.now) (make_done File s o parent name.now carried.now)
        (gives (answer_of result) (result_unwrap_or result 0) (tables dir_hash.now dirs.new hash.new files.new) (opens opened.new list.new))) }
{
    judge_made(
        dir_hash,
        dirs,
        hash,
        files,
        SaveExtFileEntry::WIDTH,
        list,
        *opened,
        parent,
        name,
    )?;
    let x = new_file(dirs, hash, files, parent, name, carried);
    tree_packed::put_record(list, opened, x, MADE);
    Ok(x)
}

// Makes a directory, held by its writer.
pub fn make_dir(
    hash: &mut [u8],
    dirs: &mut [u8],
    file_hash: &[u8],
    files: &[u8],
    list: &mut [u32],
    opened: &mut usize,
    parent: u32,
    name: &[u8; 16],
    padding: &[u8; 4],
) -> Result<u32, Refusal>
    requires { ReadyOpens (tables hash.old dirs.old file_hash.now files.now) (opens opened.old list.old) }
    ensures { (let s : Tables = tables hash.old dirs.old file_hash.now files.now in let o : Opens = opens opened.old list.old in
        Inside s o (make_tests Directory s o parent name.now) (make_done Directory s o parent name.now padding.now)
        (gives (answer_of result) (result_unwrap_or result 0) (tables hash.new dirs.new file_hash.now files.now) (opens opened.new list.new))) }
{
    judge_made(
        hash,
        dirs,
        hash,
        dirs,
        SaveExtDirEntry::WIDTH,
        list,
        *opened,
        parent,
        name,
    )?;
    let x = new_dir(hash, dirs, parent, name, padding);
    tree_packed::put_record(list, opened, x, MADE);
    Ok(x)
}
