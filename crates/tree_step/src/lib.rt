// The steps on the four tables: an entry leaves its bucket and its parent's list, or enters them. Each asks for what soundness gives, and tests nothing.
// A directory's entry and its parent's stand in one table, which can't be lent twice: so the steps of directories take it once, those of files take both.
#![tactic(auto)]

ghost use Rattle.std.specs.Prelude.{◌≡◌, List, [], ◌++◌, ℕ, ◌+◌, ◌*◌, ◌/◌, ◌≤◌, ◌<◌, length, eqb};
ghost use Rattle.tree_key.specs.Key.{key_words, name_key};
ghost use Rattle.tree_sound.specs.Tables.{tables};
ghost use Rattle.tree_promises.specs.declared.Kind.TheVariants.{Directory, File};
ghost use Rattle.tree_promises.specs.Steps.{linked_to, unlinked_from};
ghost use Rattle.tree_promises.specs.Inner.Ready.{LiveAt, Single};
ghost use Rattle.tree_table.specs.Field.{wrote, next_field, sub_dir_field, sub_file_field};
ghost use Rattle.tree_table.specs.Steps.{cut_writes, head_writes};
ghost use Rattle.tree_step.specs.Inner.Seat.{InParent, InBucket, InList};

use tree_key::{SaveExtDirEntry, SaveExtFileEntry, SaveExtKey};

// Where an entry stands in its bucket: the bucket, the entry before it (0: none), and what follows it.
#[derive(Clone, Copy)]
pub struct Seat {
    pub bucket: usize,
    pub before: u32,
    pub after: u32,
}

// Where an entry stands in its parent's list: the parent, the entry before it (0: none), and what follows it.
#[derive(Clone, Copy)]
pub struct Child {
    pub up: u32,
    pub before: u32,
    pub after: u32,
}

// Where entry x stands in its bucket.
fn in_bucket(hash: &[u8], table: &[u8], w: usize, x: u32) -> Seat
    requires { Single hash.now table.now w × LiveAt w table.now x }
    ensures { InBucket hash.now table.now w x result }
{
    let start = tree_table::index(x) * w;
    let end = start + w;
    let key = tree_key::get_key(&table[start..end]);
    let bucket = tree_key::hash(key, hash.len() / 4);
    let first = tree_table::get_hash(hash, bucket);
    Seat {
        bucket,
        before: tree_table::find_before(table, w, w - 4, first, x),
        after: tree_table::link_of(table, w, w - 4, x),
    }
}

// Where entry x stands in its parent's list, whose head is at place `at` of the parent's entry.
fn in_parent(dirs: &[u8], at: usize, table: &[u8], w: usize, x: u32) -> Child
    requires { InParent dirs.now at table.now w x × (at + 4 ≤ 40) × (28 ≤ w) }
    ensures { InList dirs.now at table.now w x result }
{
    let up = tree_table::link_of(table, w, 0, x);
    let first = tree_table::link_of(dirs, SaveExtDirEntry::WIDTH, at, up);
    Child {
        up,
        before: tree_table::find_before(table, w, 20, first, x),
        after: tree_table::link_of(table, w, 20, x),
    }
}

// A directory leaves its parent's list: what follows it is written to the one before it, or to its parent.
fn leave_dir(dirs: &mut [u8], up: u32, before: u32, after: u32)
    requires { (up * 40 + 40 ≤ length dirs.old) × (before * 40 + 40 ≤ length dirs.old) }
    ensures { dirs.new ≡ wrote 40 dirs.old (cut_writes (eqb before 0) before next_field after ++ head_writes (eqb before 0) up sub_dir_field after) }
{
    if before == 0 {
        tree_table::put_link(
            dirs,
            SaveExtDirEntry::WIDTH,
            SaveExtDirEntry::SUB_DIR,
            up,
            after,
        );
    } else {
        tree_table::put_link(
            dirs,
            SaveExtDirEntry::WIDTH,
            SaveExtDirEntry::NEXT,
            before,
            after,
        );
    }
}

// A file leaves its parent's list.
fn leave_file(dirs: &mut [u8], files: &mut [u8], up: u32, before: u32, after: u32)
    requires { (up * 40 + 40 ≤ length dirs.old) × (before * 48 + 48 ≤ length files.old) }
    ensures { (dirs.new ≡ wrote 40 dirs.old (head_writes (eqb before 0) up sub_file_field after))
        × (files.new ≡ wrote 48 files.old (cut_writes (eqb before 0) before next_field after)) }
{
    if before == 0 {
        tree_table::put_link(
            dirs,
            SaveExtDirEntry::WIDTH,
            SaveExtDirEntry::SUB_FILE,
            up,
            after,
        );
    } else {
        tree_table::put_link(
            files,
            SaveExtFileEntry::WIDTH,
            SaveExtFileEntry::NEXT,
            before,
            after,
        );
    }
}

// Directory x leaves its bucket and its parent's list.
pub fn unlink_dir(hash: &mut [u8], dirs: &mut [u8], x: u32)
    requires { Single hash.old dirs.old 40 × LiveAt 40 dirs.old x × InParent dirs.old 24 dirs.old 40 x }
    ensures { (hash.new ≡ (unlinked_from Directory (tables hash.old dirs.old [] []) x).dir_hash)
        × (dirs.new ≡ (unlinked_from Directory (tables hash.old dirs.old [] []) x).dir_table) }
{
    let b = in_bucket(hash, dirs, SaveExtDirEntry::WIDTH, x);
    let l = in_parent(
        dirs,
        SaveExtDirEntry::SUB_DIR,
        dirs,
        SaveExtDirEntry::WIDTH,
        x,
    );
    tree_table::cut_bucket(
        hash,
        dirs,
        SaveExtDirEntry::WIDTH,
        b.bucket,
        b.before,
        b.after,
    );
    leave_dir(dirs, l.up, l.before, l.after);
}

// File x leaves its bucket and its parent's list.
pub fn unlink_file(dirs: &mut [u8], hash: &mut [u8], files: &mut [u8], x: u32)
    requires { Single hash.old files.old 48 × LiveAt 48 files.old x × InParent dirs.old 28 files.old 48 x }
    ensures { (dirs.new ≡ (unlinked_from File (tables [] dirs.old hash.old files.old) x).dir_table)
        × (hash.new ≡ (unlinked_from File (tables [] dirs.old hash.old files.old) x).file_hash)
        × (files.new ≡ (unlinked_from File (tables [] dirs.old hash.old files.old) x).file_table) }
{
    let b = in_bucket(hash, files, SaveExtFileEntry::WIDTH, x);
    let l = in_parent(
        dirs,
        SaveExtDirEntry::SUB_FILE,
        files,
        SaveExtFileEntry::WIDTH,
        x,
    );
    tree_table::cut_bucket(
        hash,
        files,
        SaveExtFileEntry::WIDTH,
        b.bucket,
        b.before,
        b.after,
    );
    leave_file(dirs, files, l.up, l.before, l.after);
}

// Entry x gets its key, that of the parent and a name, and is the first directory of its parent and of its bucket.
pub fn link_dir(hash: &mut [u8], dirs: &mut [u8], x: u32, parent: u32, key: SaveExtKey)
    requires { (x * 40 + 40 ≤ length dirs.old) × (parent * 40 + 40 ≤ length dirs.old) × (0 < length hash.old / 4) }
    ensures { (name : List ℕ) → key_words key ≡ name_key parent name
        → (hash.new ≡ (linked_to Directory (tables hash.old dirs.old [] []) x parent name).dir_hash)
        × (dirs.new ≡ (linked_to Directory (tables hash.old dirs.old [] []) x parent name).dir_table) }
{
    let b = tree_key::hash(key, hash.len() / 4);
    let first = tree_table::get_hash(hash, b);
    let next = tree_table::link_of(
        dirs,
        SaveExtDirEntry::WIDTH,
        SaveExtDirEntry::SUB_DIR,
        parent,
    );
    tree_table::put_hash(hash, b, x);
    tree_table::enter(dirs, SaveExtDirEntry::WIDTH, x, key, next, first);
    tree_table::put_link(
        dirs,
        SaveExtDirEntry::WIDTH,
        SaveExtDirEntry::SUB_DIR,
        parent,
        x,
    );
}

// Entry x gets its key, that of the parent and a name, and is the first file of its parent and of its bucket.
pub fn link_file(
    dirs: &mut [u8],
    hash: &mut [u8],
    files: &mut [u8],
    x: u32,
    parent: u32,
    key: SaveExtKey,
)
    requires { (x * 48 + 48 ≤ length files.old) × (parent * 40 + 40 ≤ length dirs.old) × (0 < length hash.old / 4) }
    ensures { (name : List ℕ) → key_words key ≡ name_key parent name
        → (dirs.new ≡ (linked_to File (tables [] dirs.old hash.old files.old) x parent name).dir_table)
        × (hash.new ≡ (linked_to File (tables [] dirs.old hash.old files.old) x parent name).file_hash)
        × (files.new ≡ (linked_to File (tables [] dirs.old hash.old files.old) x parent name).file_table) }
{
    let b = tree_key::hash(key, hash.len() / 4);
    let first = tree_table::get_hash(hash, b);
    let next = tree_table::link_of(
        dirs,
        SaveExtDirEntry::WIDTH,
        SaveExtDirEntry::SUB_FILE,
        parent,
    );
    tree_table::put_hash(hash, b, x);
    tree_table::enter(files, SaveExtFileEntry::WIDTH, x, key, next, first);
    tree_table::put_link(
        dirs,
        SaveExtDirEntry::WIDTH,
        SaveExtDirEntry::SUB_FILE,
        parent,
        x,
    );
}
