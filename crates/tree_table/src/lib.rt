// One entry table at any width: the walks and steps of fs_meta.rs's MetaTable. Entries are counted from 0, and `w` is the entry's width in bytes.
#![tactic(auto)]

ghost use Rattle.std.specs.Prelude.{◌≡◌, [], ◌∷◌, ◌++◌, ◌+◌, ◌-◌, ◌*◌, ◌/◌, ◌%◌, ◌≤◌, ◌<◌, eqb, length, drop};
ghost use Rattle.words.specs.Word.{word, put_word};
ghost use Rattle.links.specs.Links.{◌∈◌};
ghost use Rattle.links.specs.Change.{pick, before};
ghost use Rattle.tree_key.specs.Key.{key_words};
ghost use Rattle.tree_table.specs.Field.{start, collision_field, field, write, wrote};
ghost use Rattle.tree_table.specs.View.{key_at, hash_at};
ghost use Rattle.tree_table.specs.Steps.{take_writes, enter_writes, cut_writes, head_writes, copy_writes, give_writes};
ghost use Rattle.tree_table.specs.Chain.{link_at, list_at, Ends, member, seek_in};

// The bytes of a link. The collision field is the last of an entry, whichever its type: it stands this many bytes before the entry's end.
pub const LINK: usize = tree_key::SaveExtDirEntry::WIDTH - tree_key::SaveExtDirEntry::COLLISION;

// Where the count and the maximum stand in entry 0.
pub const COUNT: usize = 0;

pub const MAXIMUM: usize = 4;

// An inode as an index.
pub fn index(x: u32) -> usize
    ensures { result ≡ x }
{
    x as usize
}

// The word at place `at` of entry x.
pub fn link_of(table: &[u8], w: usize, at: usize, x: u32) -> u32
    requires { (x * w + w ≤ length table.now) × (at + 4 ≤ w) }
    ensures { result ≡ link_at table.now w at x }
{
    words::get_u32(table, x as usize * w + at)
}

// The length of a list.
pub fn count_list(table: &[u8], w: usize, at: usize, first: u32) -> u32
    requires { Ends table.now w at first × (at + 4 ≤ w) }
    ensures { result ≡ length (list_at table.now w at first) }
{
    let mut x = first;
    let mut n: u32 = 0;
    while x != 0 {
        n += 1;
        x = link_of(table, w, at, x);
    }
    n
}

// Whether y stands in a list.
pub fn in_list(table: &[u8], w: usize, at: usize, first: u32, y: u32) -> bool
    requires { Ends table.now w at first × (at + 4 ≤ w) }
    ensures { result ≡ member y (list_at table.now w at first) }
{
    let mut x = first;
    while x != 0 {
        if x == y {
            return true;
        }
        x = link_of(table, w, at, x);
    }
    false
}

// The entry before y in a list that holds it; 0 if it is the first.
pub fn find_before(table: &[u8], w: usize, at: usize, first: u32, y: u32) -> u32
    requires { Ends table.now w at first × (at + 4 ≤ w) × (y ∈ list_at table.now w at first) }
    ensures { result ≡ before y 0 (list_at table.now w at first) }
{
    let mut p: u32 = 0;
    let mut x = first;
    while x != y {
        p = x;
        x = link_of(table, w, at, x);
    }
    p
}

// Writes a list to the front of another.
pub fn write_list(table: &[u8], w: usize, at: usize, first: u32, list: &mut [u32])
    requires { Ends table.now w at first × (at + 4 ≤ w) × (length (list_at table.now w at first) ≤ length list.old) }
    ensures { list.new ≡ list_at table.now w at first ++ drop (length (list_at table.now w at first)) list.old }
{
    let mut x = first;
    let mut i: usize = 0;
    while x != 0 {
        list[i] = x;
        i += 1;
        x = link_of(table, w, at, x);
    }
}

// What a walk along a bucket finds: the entry's inode, 0 for none, and the number of entries compared.
#[derive(Clone, Copy)]
pub struct Hit {
    pub inode: u32,
    pub compared: u32,
}

// Goes along a bucket from its first entry; each entry's own part of the table is handed to the key comparison.
pub fn get(table: &[u8], w: usize, first: u32, key: tree_key::SaveExtKey) -> Hit
    requires { Ends table.now w (start w collision_field) first × (24 ≤ w) }
    ensures { result ≡ seek_in (key_at (field w table.now)) (key_words key) (list_at table.now w (start w collision_field) first) 0 }
{
    let mut x = first;
    let mut n: u32 = 0;
    while x != 0 {
        let start = index(x) * w;
        let end = start + w;
        n += 1;
        if tree_key::has_key(&table[start..end], key) {
            return Hit {
                inode: x,
                compared: n,
            };
        }
        x = link_of(table, w, w - LINK, x);
    }
    Hit {
        inode: 0,
        compared: n,
    }
}

// Writes the word at place `at` of entry x.
pub fn put_link(table: &mut [u8], w: usize, at: usize, x: u32, v: u32)
    requires { (x * w + w ≤ length table.old) × (at + 4 ≤ w) }
    ensures { table.new ≡ put_word table.old (x * w + at) v }
{
    words::put_u32(table, x as usize * w + at, v);
}

// The first entry of bucket b.
pub fn get_hash(hash: &[u8], b: usize) -> u32
    requires { b * 4 + 4 ≤ length hash.now }
    ensures { result ≡ hash_at hash.now b }
{
    words::get_u32(hash, b * 4)
}

// Makes x the first entry of bucket b.
pub fn put_hash(hash: &mut [u8], b: usize, x: u32)
    requires { b * 4 + 4 ≤ length hash.old }
    ensures { hash.new ≡ wrote 4 hash.old (write b 0 x ∷ []) }
{
    words::put_u32(hash, b * 4, x);
}

// Takes the entry that a make uses: the first removed one, else the count, which grows by 1.
pub fn take(table: &mut [u8], w: usize) -> u32
    requires { (24 ≤ w) × (w ≤ length table.old) × (field w table.old 0 0 * w + w ≤ length table.old) × ((field w table.old 0 0 ≡ 0) → field w table.old 0 1 < 65536) }
    ensures { (result ≡ pick (eqb (field w table.old 0 0) 0) (field w table.old 0 1) (field w table.old 0 0))
        × (table.new ≡ wrote w table.old (take_writes (eqb (field w table.old 0 0) 0) (field w table.old))) }
{
    let first = link_of(table, w, w - LINK, 0);
    if first == 0 {
        let n = link_of(table, w, COUNT, 0);
        put_link(table, w, COUNT, 0, n + 1);
        return n;
    }
    let next = link_of(table, w, w - LINK, first);
    put_link(table, w, w - LINK, 0, next);
    first
}

// Writes the key of entry x.
fn put_key(table: &mut [u8], w: usize, x: u32, key: tree_key::SaveExtKey)
    requires { (x * w + w ≤ length table.old) × (28 ≤ w) }
    ensures { table.new ≡ wrote w table.old (write x 1 key.parent ∷ write x 2 key.name0 ∷ write x 3 key.name1 ∷ write x 4 key.name2 ∷ write x 5 key.name3 ∷ []) }
{
    put_link(table, w, 0, x, key.parent);
    put_link(table, w, 4, x, key.name0);
    put_link(table, w, 8, x, key.name1);
    put_link(table, w, 12, x, key.name2);
    put_link(table, w, 16, x, key.name3);
}

// Writes what links entry x: its key, the next entry of its parent, and the next one of its bucket.
pub fn enter(table: &mut [u8], w: usize, x: u32, key: tree_key::SaveExtKey, next: u32, first: u32)
    requires { (x * w + w ≤ length table.old) × (28 ≤ w) }
    ensures { table.new ≡ wrote w table.old (enter_writes x key.parent key.name0 key.name1 key.name2 key.name3 next first) }
{
    put_key(table, w, x, key);
    put_link(table, w, tree_key::SaveExtDirEntry::NEXT, x, next);
    put_link(table, w, w - LINK, x, first);
}

// Takes an entry out of its bucket b: what follows it is written to the entry p before it, or to the hash where there is none.
pub fn cut_bucket(hash: &mut [u8], table: &mut [u8], w: usize, b: usize, p: u32, new: u32)
    requires { (b * 4 + 4 ≤ length hash.old) × (p * w + w ≤ length table.old) × (4 ≤ w) }
    ensures { (hash.new ≡ wrote 4 hash.old (head_writes (eqb p 0) b 0 new))
        × (table.new ≡ wrote w table.old (cut_writes (eqb p 0) p 0 new)) }
{
    if p == 0 {
        put_hash(hash, b, new);
    } else {
        put_link(table, w, w - LINK, p, new);
    }
}

// Copies entry 0 over entry x, but for the collision field.
fn copy_entry(table: &mut [u8], w: usize, x: u32)
    requires { (x * w + w ≤ length table.old) × (4 ≤ w) × (0 < x) }
    ensures { table.new ≡ wrote w table.old (copy_writes (w / 4 - 1) 1 (field w table.old) x) }
{
    for i in 0..w / 4 - 1 {
        let v = link_of(table, w, 4 * i, 0);
        put_link(table, w, 4 * i, x, v);
    }
}

// Gives entry x up: entry 0's whole width is copied over it, and it is the first removed entry.
pub fn give(table: &mut [u8], w: usize, x: u32)
    requires { (x * w + w ≤ length table.old) × (4 ≤ w) × (0 < x) }
    ensures { table.new ≡ wrote w table.old (give_writes w (field w table.old) x) }
{
    let first = link_of(table, w, w - LINK, 0);
    copy_entry(table, w, x);
    put_link(table, w, w - LINK, x, first);
    put_link(table, w, w - LINK, 0, x);
}
