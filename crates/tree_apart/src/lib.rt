// The keys of the long buckets of one table: each bucket's inodes are written to the places of the marks, sorted by their keys, and neighbours compared.
#![tactic(auto)]

ghost use Rattle.std.specs.Prelude.{◌≡◌, true, ℕ, ◌+◌, ◌-◌, ◌*◌, ◌/◌, ◌≤◌, ◌<◌, length};
ghost use Rattle.tree_table.specs.Field.{start, collision_field};
ghost use Rattle.tree_table.specs.Chain.{list_at, Ends};
ghost use Rattle.order.specs.Tells.{Tells};
ghost use Rattle.tree_marks.specs.Inner.Marks.{mark_at, Within};
ghost use Rattle.tree_marks.specs.Inner.Gather.{bucket_at};
ghost use Rattle.tree_apart.specs.Inner.Apart.{AllApart, far, Bounded, FarApart, Wiped, Sifted};

// A bucket with more entries than this is long: its keys are sorted and neighbours compared. In any other bucket all pairs are compared.
pub const NEAR: usize = 64;

// Whether a bucket is long.
fn is_far(table: &[u8], w: usize, first: u32) -> bool
    requires { Ends table.now w (start w collision_field) first × (24 ≤ w) }
    ensures { result ≡ far table.now w first }
{
    let mut x = first;
    let mut n: usize = 0;
    while x != 0 {
        if n == NEAR {
            return true;
        }
        n += 1;
        x = tree_table::link_of(table, w, w - tree_table::LINK, x);
    }
    false
}

// Whether the keys of one bucket differ. Its inodes are sorted in `room`.
fn list_apart(table: &[u8], w: usize, first: u32, room: &mut [u32]) -> bool
    requires { Ends table.now w (start w collision_field) first × (24 ≤ w) × (length (list_at table.now w (start w collision_field) first) ≤ length room.old) }
    ensures { Tells (AllApart table.now w first) result }
{
    let c = tree_table::count_list(table, w, w - tree_table::LINK, first);
    let n = tree_table::index(c);
    tree_table::write_list(table, w, w - tree_table::LINK, first, room);
    tree_sort::distinct_keys(table, w, &mut room[..n])
}

// The same of a bucket if it is long.
fn bucket_apart(table: &[u8], w: usize, first: u32, room: &mut [u32]) -> bool
    requires { Ends table.now w (start w collision_field) first × (24 ≤ w) × (length (list_at table.now w (start w collision_field) first) ≤ length room.old) }
    ensures { Tells (far table.now w first ≡ true → AllApart table.now w first) result }
{
    !is_far(table, w, first) || list_apart(table, w, first, room)
}

// Whether the keys of every long bucket differ.
fn far_apart(hash: &[u8], table: &[u8], w: usize, room: &mut [u32]) -> bool
    requires { Bounded hash.now table.now w (length room.old) × (24 ≤ w) }
    ensures { Tells (FarApart hash.now table.now w) result }
{
    let buckets = hash.len() / 4;
    for b in 0..buckets {
        let first = tree_table::get_hash(hash, b);
        if !bucket_apart(table, w, first, room) {
            return false;
        }
    }
    true
}

// The same, sorted in the `count` places of the marks from `off` on.
fn sift(hash: &[u8], table: &[u8], w: usize, count: u32, work: &mut [u32], off: usize) -> bool
    requires { Bounded hash.now table.now w count × (24 ≤ w) × (off + count ≤ length work.old) }
    ensures { Tells (FarApart hash.now table.now w) result × Within off count work.old work.new }
{
    let end = off + tree_table::index(count);
    far_apart(hash, table, w, &mut work[off..end])
}

// Sets those places to 0.
fn wipe(work: &mut [u32], off: usize, count: u32)
    requires { off + count ≤ length work.old }
    ensures { Wiped off count work.old work.new }
{
    let end = off + tree_table::index(count);
    order::clear(&mut work[off..end]);
}

// The test of the long buckets. Afterwards only the removed entries have a mark.
pub fn test_far(
    hash: &[u8],
    table: &[u8],
    w: usize,
    count: u32,
    work: &mut [u32],
    off: usize,
) -> bool
    requires { Bounded hash.now table.now w count × (24 ≤ w) × (w ≤ length table.now) × (count * w ≤ length table.now) × (off + count ≤ length work.old)
        × ((y : ℕ) → count ≤ y → mark_at work.old off y ≡ 0) }
    ensures { Sifted hash.now table.now w count off work.old work.new result }
{
    if !sift(hash, table, w, count, work, off) {
        return false;
    }
    wipe(work, off, count);
    let first = tree_table::link_of(table, w, w - tree_table::LINK, 0);
    tree_marks::mark_list(
        table,
        w,
        w - tree_table::LINK,
        count,
        first,
        work,
        off,
        tree_marks::GONE,
    )
}
