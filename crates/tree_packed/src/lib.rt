// Open records packed: a lent list of inode and record, two places each, for opened inodes alone, rising by inode, with the number of records beside it. What
// a record is does not matter here, but that 0 is nothing open.
#![tactic(auto)]

ghost use Rattle.std.specs.Prelude.{◌≡◌, true, ◌+◌, ◌*◌, ◌≤◌, ◌<◌, length};
ghost use Rattle.tree_packed.specs.Packed.{Packed, Place, rec};
ghost use Rattle.tree_packed.specs.Put.{IsFull, taken_out, put_in, put_of, gives};
ghost use Rattle.tree_packed.specs.Opens.{opens, InOrder, with_record};

// Whether the first k records of a list are packed as they must be.
pub fn well_formed(list: &[u32], k: usize) -> bool
    ensures { (result ≡ true → Packed k list.now) × (Packed k list.now → result ≡ true) }
{
    let (pairs, _) = list.as_chunks::<2>();
    if pairs.len() < k {
        return false;
    }
    let mut last = 0;
    for pair in &pairs[..k] {
        if pair[0] <= last || pair[1] == 0 {
            return false;
        }
        last = pair[0];
    }
    true
}

// The place at which an inode stands or would stand, by halves.
fn place_of(list: &[u32], k: usize, inode: u32) -> usize
    requires { Packed k list.now }
    ensures { Place k list.now inode result }
{
    let (pairs, _) = list.as_chunks::<2>();
    pairs[..k].partition_point(|pair| pair[0] < inode)
}

// The record of an inode, 0 where it has none.
pub fn record_of(list: &[u32], k: usize, inode: u32) -> u32
    requires { Packed k list.now }
    ensures { result ≡ rec k list.now inode }
{
    let j = place_of(list, k, inode);
    if j < k && list[2 * j] == inode {
        list[2 * j + 1]
    } else {
        0
    }
}

// Whether a record of this inode would find no place.
pub fn is_full(list: &[u32], k: usize, inode: u32) -> bool
    requires { Packed k list.now }
    ensures { (result ≡ true → IsFull k list.now inode) × (IsFull k list.now inode → result ≡ true) }
{
    list.len() / 2 <= k && record_of(list, k, inode) == 0
}

// Takes the record at place j out: those behind it come down.
fn take_out(list: &mut [u32], k: usize, j: usize)
    requires { (j < k) × (2 * k ≤ length list.old) }
    ensures { list.new ≡ taken_out k j list.old }
{
    list.copy_within(2 * (j + 1)..2 * k, 2 * j);
}

// Puts a record in at place j: those from there on go up.
fn put_in(list: &mut [u32], k: usize, j: usize, inode: u32, record: u32)
    requires { (j ≤ k) × (2 * (k + 1) ≤ length list.old) }
    ensures { list.new ≡ put_in k j inode «record» list.old }
{
    list.copy_within(2 * j..2 * k, 2 * (j + 1));
    list[2 * j] = inode;
    list[2 * j + 1] = record;
}

// Puts the record of an inode: inserted, replaced or, where it is 0, taken out. The number of records afterwards, or None where no place is left.
pub fn put(list: &mut [u32], k: usize, inode: u32, record: u32) -> Option<usize>
    requires { Packed k list.old }
    ensures { gives result list.new ≡ put_of k list.old inode «record» }
{
    let j = place_of(list, k, inode);
    if record_of(list, k, inode) == 0 {
        if record == 0 {
            return Some(k);
        }
        if list.len() / 2 <= k {
            return None;
        }
        put_in(list, k, j, inode, record);
        return Some(k + 1);
    }
    if record == 0 {
        take_out(list, k, j);
        return Some(k - 1);
    }
    list[2 * j + 1] = record;
    Some(k)
}

// The same where the number of records is lent with the list. Where the inode is not listed and every place is taken, nothing changes.
pub fn put_record(list: &mut [u32], opened: &mut usize, inode: u32, record: u32)
    requires { InOrder (opens opened.old list.old) }
    ensures { opens opened.new list.new ≡ with_record (opens opened.old list.old) inode «record» }
{
    if let Some(next) = put(list, *opened, inode, record) {
        *opened = next;
    }
}
