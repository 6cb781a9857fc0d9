// The test of one entry table by itself: the numbers at its front, the removed list, the buckets and the keys.
#![tactic(auto)]

ghost use Rattle.std.specs.Prelude.{◌≡◌, ℕ, ◌+◌, ◌-◌, ◌*◌, ◌/◌, ◌≤◌, ◌<◌, length};
ghost use Rattle.tree_table.specs.Chain.{link_at, Ends};
ghost use Rattle.order.specs.Tells.{Tells};
ghost use Rattle.tree_marks.specs.Inner.Marks.{gone, mark_at};
ghost use Rattle.tree_table.specs.Field.{start, collision_field, field};
ghost use Rattle.tree_apart.specs.Inner.Apart.{far};
ghost use Rattle.tree_alone.specs.Inner.Entries.{Fits, AllFit};
ghost use Rattle.tree_alone.specs.Inner.Stage.{BucketCounted, BucketsCounted, TableCounted, TableTested};

// Whether an entry is removed, or was met in the bucket of its own hash and, unless that is long, has no equal key behind it there.
fn entry_fits(table: &[u8], w: usize, buckets: usize, y: u32, mark: u32, long: bool) -> bool
    requires { (y * w + w ≤ length table.now) × (24 ≤ w) × (0 < buckets) × (buckets ≤ 65536)
        × ((mark ≡ gone → ⊥) → 0 < mark → Ends table.now w (start w collision_field) (link_at table.now w (start w collision_field) y)) }
    ensures { Tells (Fits table.now w buckets long y mark) result }
{
    if mark == tree_marks::GONE {
        return true;
    }
    let start = tree_table::index(y) * w;
    let end = start + w;
    let key = tree_key::get_key(&table[start..end]);
    let place = tree_key::hash(key, buckets);
    if tree_table::index(mark) != place + 1 {
        return false;
    }
    if long {
        return true;
    }
    let first = tree_table::link_of(table, w, w - tree_table::LINK, y);
    tree_table::get(table, w, first, key).inode == 0
}

// Whether every entry of a bucket fits, from its first one on, by the bucket's mark.
fn check_bucket(table: &[u8], w: usize, buckets: usize, first: u32, mark: u32, long: bool) -> bool
    requires { Ends table.now w (start w collision_field) first × (24 ≤ w) × (0 < buckets) × (buckets ≤ 65536) × (long ≡ far table.now w first) }
    ensures { Tells (AllFit table.now w buckets first mark) result }
{
    let mut x = first;
    while x != 0 {
        if !entry_fits(table, w, buckets, x, mark, long) {
            return false;
        }
        x = tree_table::link_of(table, w, w - tree_table::LINK, x);
    }
    true
}

// Goes along one bucket: marks its entries with its number i, counted from 1, and then sees that each fits, while they are near. It answers the bucket's
// length, or None. The keys of a long bucket are not compared here.
fn sort_bucket(
    table: &[u8],
    w: usize,
    count: u32,
    buckets: usize,
    first: u32,
    work: &mut [u32],
    off: usize,
    i: u32,
) -> Option<usize>
    requires { (count * w ≤ length table.now) × (1 ≤ count) × (count ≤ 65536) × (24 ≤ w) × (off + count ≤ length work.old) × (0 < buckets) × (buckets ≤ 65536) × (0 < i) }
    ensures { BucketCounted table.now w count buckets first i off work.old work.new result }
{
    let n = tree_marks::mark_counted(table, w, w - tree_table::LINK, count, first, work, off, i)?;
    if !check_bucket(table, w, buckets, first, i, tree_apart::NEAR < n) {
        return None;
    }
    Some(n)
}

// The same for every bucket. It answers the length of the longest, or None.
fn sort_buckets(
    hash: &[u8],
    table: &[u8],
    w: usize,
    count: u32,
    buckets: usize,
    work: &mut [u32],
    off: usize,
) -> Option<usize>
    requires { (count * w ≤ length table.now) × (1 ≤ count) × (count ≤ 65536) × (24 ≤ w) × (off + count ≤ length work.old) × (0 < buckets) × (buckets ≤ 65536)
        × (buckets * 4 ≤ length hash.now) }
    ensures { BucketsCounted hash.now table.now w count buckets off work.old work.new result }
{
    let mut longest = 0;
    for b in 0..buckets {
        let first = tree_table::get_hash(hash, b);
        let n = sort_bucket(table, w, count, buckets, first, work, off, b as u32 + 1)?;
        longest = longest.max(n);
    }
    Some(longest)
}

// Whether every entry has a mark.
fn all_marked(work: &[u32], off: usize, count: u32) -> bool
    requires { off + count ≤ length work.now }
    ensures { Tells ((y : ℕ) → 0 < y → y < count → 0 < mark_at work.now off y) result }
{
    for y in 1..count {
        if work[off + tree_table::index(y)] == 0 {
            return false;
        }
    }
    true
}

// The removed list, the buckets and the keys of one table, whose marks begin at `off` and are 0. It answers the length of the longest bucket, or None.
fn sort_table(
    hash: &[u8],
    table: &[u8],
    w: usize,
    count: u32,
    work: &mut [u32],
    off: usize,
) -> Option<usize>
    requires { (count ≡ field w table.now 0 1) × (count * w ≤ length table.now) × (1 ≤ count) × (count ≤ 65536) × (24 ≤ w)
        × (0 < length hash.now / 4) × (length hash.now / 4 ≤ 65536) × (off + count ≤ length work.old) × ((y : ℕ) → mark_at work.old off y ≡ 0) }
    ensures { TableCounted hash.now table.now w off work.old work.new result }
{
    let buckets = hash.len() / 4;
    let first = tree_table::link_of(table, w, w - tree_table::LINK, 0);
    if !tree_marks::mark_list(
        table,
        w,
        w - tree_table::LINK,
        count,
        first,
        work,
        off,
        tree_marks::GONE,
    ) {
        return None;
    }
    let longest = sort_buckets(hash, table, w, count, buckets, work, off)?;
    if !all_marked(work, off, count) {
        return None;
    }
    Some(longest)
}

// Whether the numbers at a table's front fit its room.
fn front_fits(count: u32, maximum: u32, room: usize, least: u32) -> bool
    ensures { Tells ((maximum ≤ room) × (1 ≤ count) × (count ≤ maximum) × (least ≤ count)) result }
{
    tree_table::index(maximum) <= room && 1 <= count && count <= maximum && least <= count
}

// The test of one table by itself, whose marks begin at `off` and are 0. It leaves the marks of the removed entries. The keys of long buckets are
// compared last, since they are sorted in the places of the marks.
pub fn test_table(
    hash: &[u8],
    table: &[u8],
    w: usize,
    least: u32,
    work: &mut [u32],
    off: usize,
) -> bool
    requires { (24 ≤ w) × (w ≤ length table.now) × (length table.now / w ≤ 65536) × (0 < length hash.now / 4) × (length hash.now / 4 ≤ 65536)
        × (off + length table.now / w ≤ length work.old) × ((y : ℕ) → mark_at work.old off y ≡ 0) }
    ensures { TableTested hash.now table.now w least off work.old work.new result }
{
    let count = tree_table::link_of(table, w, tree_table::COUNT, 0);
    let maximum = tree_table::link_of(table, w, tree_table::MAXIMUM, 0);
    if !front_fits(count, maximum, table.len() / w, least) {
        return false;
    }
    let Some(longest) = sort_table(hash, table, w, count, work, off) else {
        return false;
    };
    if tree_apart::NEAR < longest {
        return tree_apart::test_far(hash, table, w, count, work, off);
    }
    tree_marks::keep_gone(work, off, count);
    true
}
