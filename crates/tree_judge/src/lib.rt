// What the tests before a step decide on sound tables: that no row applies, or the answer of the first that does. Nothing is changed here. `opens` is the
// open record of inode x.
#![tactic(auto)]

ghost use Rattle.std.specs.Prelude.{◌≡◌, [], ◌/◌, ◌≤◌, ◌<◌, length};
ghost use Rattle.tree_key.specs.Key.{key_words, name_key};
ghost use Rattle.order.specs.Tells.{Tells};
ghost use Rattle.tree_table.specs.Field.{field};
ghost use Rattle.tree_table.specs.Steps.{free_of, taken};
ghost use Rattle.tree_sound.specs.Tables.{Tables, tables, dirs, files};
ghost use Rattle.tree_promises.specs.declared.Kind.TheVariants.{Directory, File};
ghost use Rattle.tree_promises.specs.Has.{HasOther};
ghost use Rattle.tree_promises.specs.Calls.{held_tests_of, alone_tests_of, delete_tests_of, rename_tests_of, make_tests};
ghost use Rattle.tree_promises.specs.Packed.{make_tests_in};
ghost use Rattle.tree_packed.specs.Opens as packed;
ghost use Rattle.tree_promises.specs.Inner.Ready.{Ready, Single, alone, hashed};
ghost use Rattle.tree_judge.specs.Inner.Judge.{JudgedBy};

use order::Refusal;
use tree_key::{SaveExtDirEntry, SaveExtFileEntry, SaveExtKey};
use tree_legal::is_legal;
use tree_look::live;

// Whether inode x is live and a writer holds it, where `opens` is its record: NotFound, NotOpen.
pub fn judge_held(hash: &[u8], table: &[u8], w: usize, opens: u32, x: u32) -> Result<(), Refusal>
    requires { Single hash.now table.now w }
    ensures { JudgedBy (held_tests_of (alone w table.now) opens x) result }
{
    if !live(hash, table, w, x) {
        return Err(Refusal::NotFound);
    }
    if tree_opens::writer_in(opens) == 0 {
        return Err(Refusal::NotOpen);
    }
    Ok(())
}

// Whether inode x is live and a writer holds it alone: NotFound, NotOpen, Busy.
pub fn judge_delete(hash: &[u8], table: &[u8], w: usize, opens: u32, x: u32) -> Result<(), Refusal>
    requires { Single hash.now table.now w }
    ensures { JudgedBy (alone_tests_of (alone w table.now) opens x) result }
{
    judge_held(hash, table, w, opens, x)?;
    if tree_opens::readers_in(opens) > 0 {
        return Err(Refusal::Busy);
    }
    Ok(())
}

// Whether directory x can be deleted: as judge_delete, then DeletingRoot, NotEmpty.
pub fn judge_delete_dir(hash: &[u8], dirs: &[u8], opens: u32, x: u32) -> Result<(), Refusal>
    requires { Single hash.now dirs.now 40 }
    ensures { JudgedBy (delete_tests_of Directory (tables hash.now dirs.now [] []) opens x) result }
{
    judge_delete(hash, dirs, SaveExtDirEntry::WIDTH, opens, x)?;
    if x == 1 {
        return Err(Refusal::DeletingRoot);
    }
    if tree_table::link_of(dirs, SaveExtDirEntry::WIDTH, SaveExtDirEntry::SUB_DIR, x) != 0
        || tree_table::link_of(dirs, SaveExtDirEntry::WIDTH, SaveExtDirEntry::SUB_FILE, x) != 0
    {
        return Err(Refusal::NotEmpty);
    }
    Ok(())
}

// Whether another live entry than x has the key.
pub fn has_other(hash: &[u8], table: &[u8], w: usize, x: u32, key: SaveExtKey) -> bool
    requires { Single hash.now table.now w }
    ensures { Tells (HasOther (hashed w hash.now table.now) x (key_words key)) result }
{
    let b = tree_key::hash(key, hash.len() / 4);
    let first = tree_table::get_hash(hash, b);
    let hit = tree_table::get(table, w, first, key);
    hit.inode != 0 && hit.inode != x
}

// Whether no entry is left: none never used and none removed.
pub fn full(table: &[u8], w: usize) -> bool
    requires { (28 ≤ w) × (w ≤ length table.now) × (0 < field w table.now 0 1) }
    ensures { Tells (free_of (alone w table.now) ≡ 0) result }
{
    tree_table::link_of(table, w, w - 4, 0) == 0
        && tree_table::link_of(table, w, 4, 0) <= tree_table::link_of(table, w, 0, 0)
}

// Whether file x can be renamed, where key is that of the new parent and name: as judge_held, then InvalidValue of the new
// name, NotFound of the new parent, AlreadyExist.
pub fn judge_rename_file(
    dir_hash: &[u8],
    dirs: &[u8],
    hash: &[u8],
    files: &[u8],
    opens: u32,
    x: u32,
    parent: u32,
    name: &[u8; 16],
    key: SaveExtKey,
) -> Result<(), Refusal>
    requires { Ready (tables dir_hash.now dirs.now hash.now files.now) × (key_words key ≡ name_key parent name.now) }
    ensures { (let s : Tables = tables dir_hash.now dirs.now hash.now files.now in
        JudgedBy (rename_tests_of File s opens x parent name.now) result) }
{
    judge_held(hash, files, SaveExtFileEntry::WIDTH, opens, x)?;
    if !is_legal(name) {
        return Err(Refusal::InvalidValue);
    }
    if !live(dir_hash, dirs, SaveExtDirEntry::WIDTH, parent) {
        return Err(Refusal::NotFound);
    }
    if has_other(hash, files, SaveExtFileEntry::WIDTH, x, key) {
        return Err(Refusal::AlreadyExist);
    }
    Ok(())
}

// Whether directory x can be renamed, where key is that of the new parent and name: as judge_held, then DeletingRoot, InvalidValue of the
// new name, NotFound of the new parent, IntoItself, AlreadyExist.
pub fn judge_rename_dir(
    hash: &[u8],
    dirs: &[u8],
    file_hash: &[u8],
    files: &[u8],
    opens: u32,
    x: u32,
    parent: u32,
    name: &[u8; 16],
    key: SaveExtKey,
) -> Result<(), Refusal>
    requires { Ready (tables hash.now dirs.now file_hash.now files.now) × (key_words key ≡ name_key parent name.now) }
    ensures { (let s : Tables = tables hash.now dirs.now file_hash.now files.now in
        JudgedBy (rename_tests_of Directory s opens x parent name.now) result) }
{
    judge_held(hash, dirs, SaveExtDirEntry::WIDTH, opens, x)?;
    if x == 1 {
        return Err(Refusal::DeletingRoot);
    }
    if !is_legal(name) {
        return Err(Refusal::InvalidValue);
    }
    if !live(hash, dirs, SaveExtDirEntry::WIDTH, parent) {
        return Err(Refusal::NotFound);
    }
    if tree_table::in_list(dirs, SaveExtDirEntry::WIDTH, 0, parent, x) {
        return Err(Refusal::IntoItself);
    }
    if has_other(hash, dirs, SaveExtDirEntry::WIDTH, x, key) {
        return Err(Refusal::AlreadyExist);
    }
    Ok(())
}

// Whether an entry with a parent and a name can be made in a table: InvalidValue of the name, NotFound of the parent, AlreadyExist, NoSpace.
pub fn judge_make(
    dir_hash: &[u8],
    dirs: &[u8],
    hash: &[u8],
    table: &[u8],
    w: usize,
    parent: u32,
    name: &[u8; 16],
) -> Result<(), Refusal>
    requires { Single dir_hash.now dirs.now 40 × Single hash.now table.now w }
    ensures { (let s : Tables = tables dir_hash.now dirs.now [] [] in
        JudgedBy (make_tests s (hashed w hash.now table.now) parent name.now) result) }
{
    if !is_legal(name) {
        return Err(Refusal::InvalidValue);
    }
    if !live(dir_hash, dirs, SaveExtDirEntry::WIDTH, parent) {
        return Err(Refusal::NotFound);
    }
    if has_other(hash, table, w, 0, SaveExtKey::new(parent, name)) {
        return Err(Refusal::AlreadyExist);
    }
    if full(table, w) {
        return Err(Refusal::NoSpace);
    }
    Ok(())
}

// The entry that make uses: the first removed one, or else the first that was never used.
fn next_entry(table: &[u8], w: usize) -> u32
    requires { (28 ≤ w) × (w ≤ length table.now) }
    ensures { result ≡ taken (alone w table.now) }
{
    let first = tree_table::link_of(table, w, w - 4, 0);
    if first == 0 {
        tree_table::link_of(table, w, 0, 0)
    } else {
        first
    }
}

// Whether an entry can be made and its record finds a place in a packed list: as judge_make, then TooManyOpens.
pub fn judge_made(
    dir_hash: &[u8],
    dirs: &[u8],
    hash: &[u8],
    table: &[u8],
    w: usize,
    list: &[u32],
    opened: usize,
    parent: u32,
    name: &[u8; 16],
) -> Result<(), Refusal>
    requires { Single dir_hash.now dirs.now 40 × Single hash.now table.now w × packed.InOrder (packed.opens opened list.now) }
    ensures { (let s : Tables = tables dir_hash.now dirs.now [] [] in
        JudgedBy (make_tests_in s (hashed w hash.now table.now) (packed.opens opened list.now) parent name.now) result) }
{
    judge_make(dir_hash, dirs, hash, table, w, parent, name)?;
    let x = next_entry(table, w);
    if tree_packed::is_full(list, opened, x) {
        return Err(Refusal::TooManyOpens);
    }
    Ok(())
}
