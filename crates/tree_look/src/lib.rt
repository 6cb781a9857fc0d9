// What stands in sound entry tables: the inner calls that look, and those that touch open records alone. Each requires soundness and tests nothing.
#![tactic(auto)]

ghost use Rattle.std.specs.Prelude.{◌≡◌, ◌-◌, ◌/◌, ◌≤◌};
ghost use Rattle.std.specs.Result.{result_unwrap_or};
ghost use Rattle.order.specs.Answer.{Done, answer_of};
ghost use Rattle.order.specs.First.{First};
ghost use Rattle.tree_promises.specs.Calls.{lookup_rows, lookup_done, lookup_gives, list_gives, short_rows, listed_done, ListDirs, ListFiles, stat_gives, stat_done};
ghost use Rattle.order.specs.Tells.{Tells};
ghost use Rattle.tree_table.specs.Chain.{list_at, Ends};
ghost use Rattle.tree_table.specs.Steps.{free_of};
ghost use Rattle.tree_sound.specs.Tables.{Tables, tables};
ghost use Rattle.tree_key.specs.Key.{key_words};
ghost use Rattle.tree_promises.specs.Inner.Ready.{Ready, LiveAt, Single, SingleOpens, alone, hashed};
ghost use Rattle.tree_promises.specs.Inner.Opening.{opening_in, OpenIn, CloseIn};
ghost use Rattle.tree_packed.specs.Opens.{opens};

use order::Refusal;
use tree_key::{SaveExtDirEntry, SaveExtFileEntry, SaveExtKey};
use tree_opens::Want;

// Whether inode x of a table is live: it stands in the bucket of its own key.
pub fn live(hash: &[u8], table: &[u8], w: usize, x: u32) -> bool
    requires { Single hash.now table.now w }
    ensures { Tells (LiveAt w table.now x) result }
{
    if x == 0 || words::get_u32(table, 0) <= x {
        return false;
    }
    let at = tree_table::index(x) * w;
    let end = at + w;
    let key = tree_key::get_key(&table[at..end]);
    let b = tree_key::hash(key, hash.len() / 4);
    let first = words::get_u32(hash, b * 4);
    tree_table::in_list(table, w, w - 4, first, x)
}

// Opens inode x once more, for a reader or for the writer: NotFound, TooManyOpens, Busy.
pub fn open(
    hash: &[u8],
    table: &[u8],
    w: usize,
    list: &mut [u32],
    opened: &mut usize,
    x: u32,
    want: Want,
) -> Result<(), Refusal>
    requires { SingleOpens hash.now table.now w (opens opened.old list.old) }
    ensures { OpenIn (alone w table.now) (opens opened.old list.old) x want (opening_in result (opens opened.new list.new)) }
{
    if !live(hash, table, w, x) {
        return Err(Refusal::NotFound);
    }
    let k = *opened;
    if tree_packed::is_full(list, k, x) {
        return Err(Refusal::TooManyOpens);
    }
    let record = tree_packed::record_of(list, k, x);
    let next = tree_opens::one_more(record, want)?;
    tree_packed::put_record(list, opened, x, next);
    Ok(())
}

// Gives back an open of inode x: NotFound, NotOpen.
pub fn close(
    hash: &[u8],
    table: &[u8],
    w: usize,
    list: &mut [u32],
    opened: &mut usize,
    x: u32,
    want: Want,
) -> Result<(), Refusal>
    requires { SingleOpens hash.now table.now w (opens opened.old list.old) }
    ensures { CloseIn (alone w table.now) (opens opened.old list.old) x want (opening_in result (opens opened.new list.new)) }
{
    if !live(hash, table, w, x) {
        return Err(Refusal::NotFound);
    }
    let k = *opened;
    let record = tree_packed::record_of(list, k, x);
    let next = tree_opens::one_less(record, want)?;
    tree_packed::put_record(list, opened, x, next);
    Ok(())
}

// A lookup's answer: the entry's inode, and the number of entries compared, which stands beside it since NotFound gives it too (RULES 2.2).
#[derive(Clone, Copy)]
pub struct Looked {
    pub inode: Result<u32, Refusal>,
    pub compared: u32,
}

// The entry with a key. Its words are read once and mixed in, and never laid out as twenty bytes. To see it:
// `objdump -d dist/x86_64-unknown-linux-gnu/libmukthiban.a`, at `mukthiban_tested_tree_lookup_dir`; for make and rename at
// `tree_make::make_dir`, `tree_judge::judge_made` and `tree_change::rename_file`. A hash is where the number 0x91A2B3C stands.
pub fn lookup(hash: &[u8], table: &[u8], w: usize, key: SaveExtKey) -> Looked
    requires { Single hash.now table.now w }
    ensures { First (lookup_rows (hashed w hash.now table.now) (key_words key)) (lookup_done (hashed w hash.now table.now) (key_words key)) (lookup_gives (answer_of result.inode) (result_unwrap_or result.inode 0) result.compared) }
{
    let b = tree_key::hash(key, hash.len() / 4);
    let first = words::get_u32(hash, b * 4);
    let hit = tree_table::get(table, w, first, key);
    let inode = if hit.inode == 0 {
        Err(Refusal::NotFound)
    } else {
        Ok(hit.inode)
    };
    Looked {
        inode,
        compared: hit.compared,
    }
}

// Writes a list of children to the front of the lent one, and gives how many places hold it.
fn list_children(table: &[u8], w: usize, first: u32, list: &mut [u32]) -> Result<usize, Refusal>
    requires { Ends table.now w 20 first × (24 ≤ w) }
    ensures { First (short_rows (list_at table.now w 20 first) list.old) (listed_done (list_at table.now w 20 first) list.old) (list_gives (answer_of result) (result_unwrap_or result 0) list.new) }
{
    let n = tree_table::index(tree_table::count_list(table, w, 20, first));
    if list.len() < n {
        return Err(Refusal::ListTooShort);
    }
    tree_table::write_list(table, w, 20, first, list);
    Ok(n)
}

// The directories in a directory, in their list's order. What this shares with list_files is list_children: the rest names its own list and table.
pub fn list_dirs(
    dir_hash: &[u8],
    dir_table: &[u8],
    file_hash: &[u8],
    file_table: &[u8],
    inode: u32,
    list: &mut [u32],
) -> Result<usize, Refusal>
    requires { Ready (tables dir_hash.now dir_table.now file_hash.now file_table.now) }
    ensures { (let s : Tables = tables dir_hash.now dir_table.now file_hash.now file_table.now in
        ListDirs s inode list.old (list_gives (answer_of result) (result_unwrap_or result 0) list.new)) }
{
    if !live(dir_hash, dir_table, SaveExtDirEntry::WIDTH, inode) {
        return Err(Refusal::NotFound);
    }
    let at = tree_table::index(inode) * SaveExtDirEntry::WIDTH;
    let first = words::get_u32(dir_table, at + SaveExtDirEntry::SUB_DIR);
    list_children(dir_table, SaveExtDirEntry::WIDTH, first, list)
}

// The files in a directory, in their list's order.
pub fn list_files(
    dir_hash: &[u8],
    dir_table: &[u8],
    file_hash: &[u8],
    file_table: &[u8],
    inode: u32,
    list: &mut [u32],
) -> Result<usize, Refusal>
    requires { Ready (tables dir_hash.now dir_table.now file_hash.now file_table.now) }
    ensures { (let s : Tables = tables dir_hash.now dir_table.now file_hash.now file_table.now in
        ListFiles s inode list.old (list_gives (answer_of result) (result_unwrap_or result 0) list.new)) }
{
    if !live(dir_hash, dir_table, SaveExtDirEntry::WIDTH, inode) {
        return Err(Refusal::NotFound);
    }
    let at = tree_table::index(inode) * SaveExtDirEntry::WIDTH;
    let first = words::get_u32(dir_table, at + SaveExtDirEntry::SUB_FILE);
    list_children(file_table, SaveExtFileEntry::WIDTH, first, list)
}

// The entries of a table that make can still use.
fn free_of(hash: &[u8], table: &[u8], w: usize) -> usize
    requires { Single hash.now table.now w }
    ensures { result ≡ free_of (alone w table.now) }
{
    let count = tree_table::index(words::get_u32(table, 0));
    let maximum = tree_table::index(words::get_u32(table, 4));
    let first = words::get_u32(table, w - 4);
    let removed = tree_table::index(tree_table::count_list(table, w, w - 4, first));
    maximum - count + removed
}

// The entries that a table has in all, but for entry 0.
fn total_of(hash: &[u8], table: &[u8], w: usize) -> usize
    requires { Single hash.now table.now w }
    ensures { result ≡ (alone w table.now).maximum - 1 }
{
    tree_table::index(words::get_u32(table, 4)) - 1
}

// Entries in all and entries free, of the directories and of the files.
#[derive(Clone, Copy)]
pub struct MetaStat {
    pub dir_total: usize,
    pub dir_free: usize,
    pub file_total: usize,
    pub file_free: usize,
}

pub fn stat(dir_hash: &[u8], dir_table: &[u8], file_hash: &[u8], file_table: &[u8]) -> MetaStat
    requires { Ready (tables dir_hash.now dir_table.now file_hash.now file_table.now) }
    ensures { (let s : Tables = tables dir_hash.now dir_table.now file_hash.now file_table.now in
        stat_gives Done result.dir_total result.dir_free result.file_total result.file_free ≡ stat_done s) }
{
    MetaStat {
        dir_total: total_of(dir_hash, dir_table, SaveExtDirEntry::WIDTH),
        dir_free: free_of(dir_hash, dir_table, SaveExtDirEntry::WIDTH),
        file_total: total_of(file_hash, file_table, SaveExtFileEntry::WIDTH),
        file_free: free_of(file_hash, file_table, SaveExtFileEntry::WIDTH),
    }
}
