// Keys and their hash, and the two kinds of entries: what save_ext_common.rs has, and the hash of fs_meta.rs.
#![tactic(auto)]

ghost use Rattle.std.specs.Prelude.{◌≡◌, [], ◌∷◌, ◌+◌, ◌%◌, ◌≤◌, ◌<◌, length};
ghost use Rattle.tree_key.specs.Hash.{mix, hash_of};
ghost use Rattle.tree_key.specs.Key.{key_of, name_key, key_words, same_key};

// The key of an entry: its parent's inode and its sixteen name bytes, which are kept as four words, so that a key is hashed and compared by five words.
#[derive(Clone, Copy, PartialEq, Eq, PartialOrd, Ord)]
pub struct SaveExtKey {
    pub parent: u32,
    pub name0: u32,
    pub name1: u32,
    pub name2: u32,
    pub name3: u32,
}

impl SaveExtKey {
    pub fn new(parent: u32, name: &[u8; 16]) -> Self
        ensures { key_words result ≡ name_key parent name.now }
    {
        Self {
            parent,
            name0: words::get_u32(name, 0),
            name1: words::get_u32(name, 4),
            name2: words::get_u32(name, 8),
            name3: words::get_u32(name, 12),
        }
    }

    // The root's key.
    pub fn new_root() -> Self
        ensures { key_words result ≡ 0 ∷ 0 ∷ 0 ∷ 0 ∷ 0 ∷ [] }
    {
        Self {
            parent: 0,
            name0: 0,
            name1: 0,
            name2: 0,
            name3: 0,
        }
    }
}

// The key reader: it is handed the entry's own part of the table.
pub fn get_key(entry: &[u8]) -> SaveExtKey
    requires { 20 ≤ length entry.now }
    ensures { key_words result ≡ key_of entry.now }
{
    SaveExtKey {
        parent: words::get_u32(entry, 0),
        name0: words::get_u32(entry, 4),
        name1: words::get_u32(entry, 8),
        name2: words::get_u32(entry, 12),
        name3: words::get_u32(entry, 16),
    }
}

// Whether the entry, given as its own part of the table, has the key.
pub fn has_key(entry: &[u8], key: SaveExtKey) -> bool
    requires { 20 ≤ length entry.now }
    ensures { result ≡ same_key (key_of entry.now) (key_words key) }
{
    get_key(entry) == key
}

// One step of the hash.
fn mix_in(h: u32, w: u32) -> u32
    ensures { result ≡ mix h w }
{
    h.rotate_right(1) ^ w
}

// The bucket of a key.
pub fn hash(key: SaveExtKey, buckets: usize) -> usize
    requires { 0 < buckets }
    ensures { result ≡ hash_of (key_words key) % buckets }
{
    let words = [key.parent, key.name0, key.name1, key.name2, key.name3];
    words.iter().fold(0x12345678, |h, &w| mix_in(h, w)) as usize % buckets
}

// What a directory's entry holds beside its key: the next directory of the same parent, its own first children, and four bytes carried for the caller.
#[derive(Clone, Copy)]
pub struct SaveExtDir {
    pub next: u32,
    pub sub_dir: u32,
    pub sub_file: u32,
    pub padding: u32,
}

impl SaveExtDir {
    // A directory with no children, before `next` in its parent's list.
    pub fn new(next: u32, padding: u32) -> Self
        ensures { (result.next ≡ next) × (result.sub_dir ≡ 0) × (result.sub_file ≡ 0) × (result.padding ≡ padding) }
    {
        Self {
            next,
            sub_dir: 0,
            sub_file: 0,
            padding,
        }
    }

    pub fn new_root() -> Self
        ensures { (result.next ≡ 0) × (result.sub_dir ≡ 0) × (result.sub_file ≡ 0) × (result.padding ≡ 0) }
    {
        Self::new(0, 0)
    }
}

// What a file's entry holds beside its key: the next file of the same parent, and twenty bytes carried for the caller, as five words.
#[derive(Clone, Copy)]
pub struct SaveExtFile {
    pub next: u32,
    pub carried: [u32; 5],
}

impl SaveExtFile {
    pub fn new(next: u32, carried: [u32; 5]) -> Self
        ensures { (result.next ≡ next) × (result.carried ≡ carried) }
    {
        Self { next, carried }
    }
}

// An entry: its key, what its kind holds beside that, and the next entry of its bucket. The places are counted in bytes from the entry's start.
#[derive(Clone, Copy)]
pub struct SaveExtEntry<Info> {
    pub key: SaveExtKey,
    pub info: Info,
    pub collision: u32,
}

impl<Info> SaveExtEntry<Info> {
    pub fn new(key: SaveExtKey, info: Info, collision: u32) -> Self
        ensures { (result.key ≡ key) × (result.info ≡ info) × (result.collision ≡ collision) }
    {
        Self {
            key,
            info,
            collision,
        }
    }
}

// A directory's entry, 40 bytes. Its places stand here and not in the generic block, whose constants another constant cannot name yet.
pub type SaveExtDirEntry = SaveExtEntry<SaveExtDir>;

impl SaveExtEntry<SaveExtDir> {
    pub const WIDTH: usize = 40;

    pub const INFO: usize = 20;

    pub const NEXT: usize = SaveExtDirEntry::INFO;

    pub const SUB_DIR: usize = SaveExtDirEntry::INFO + 4;

    pub const SUB_FILE: usize = SaveExtDirEntry::INFO + 8;

    pub const CARRIED: usize = SaveExtDirEntry::INFO + 12;

    pub const COLLISION: usize = SaveExtDirEntry::INFO + 16;
}

// A file's entry, 48 bytes.
pub type SaveExtFileEntry = SaveExtEntry<SaveExtFile>;

impl SaveExtEntry<SaveExtFile> {
    pub const WIDTH: usize = 48;

    pub const INFO: usize = 20;

    pub const NEXT: usize = SaveExtFileEntry::INFO;

    pub const CARRIED: usize = SaveExtFileEntry::INFO + 4;

    pub const COLLISION: usize = SaveExtFileEntry::INFO + 24;
}
