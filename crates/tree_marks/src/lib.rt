// Marks of the tree's test: lists gone along with a mark left at each entry, so that no entry is met twice, and the way up from each directory.
#![tactic(auto)]

ghost use Rattle.std.specs.Prelude.{◌≡◌, List, ℕ, ◌+◌, ◌-◌, ◌*◌, ◌≤◌, ◌<◌, length, get_or};
ghost use Rattle.tree_table.specs.Chain.{link_at};
ghost use Rattle.tree_table.specs.Field.{start, next_field};
ghost use Rattle.order.specs.Tells.{Tells};
ghost use Rattle.tree_marks.specs.Inner.Marks.{gone, mark_at, mark_of, Within, Marked, ListMarked, ListCounted};
ghost use Rattle.tree_table.specs.View.{Live};
ghost use Rattle.tree_marks.specs.Inner.Gather.{Gathered, Gathers, GoneMarked, DirMarked, ParentMarked, GoneKept};
ghost use Rattle.tree_marks.specs.Inner.Climb.{Tops, Flat, Risen, AllRisen};

// Goes along a list and marks its entries. It answers their number; None where it comes to an entry that is not below count, or that is marked.
pub fn mark_counted(
    table: &[u8],
    w: usize,
    link: usize,
    count: u32,
    first: u32,
    work: &mut [u32],
    off: usize,
    m: u32,
) -> Option<usize>
    requires { (count * w ≤ length table.now) × (link + 4 ≤ w) × (off + count ≤ length work.old) × (0 < m) }
    ensures { ListCounted (link_at table.now w link) count first m off work.old work.new result }
{
    let mut x = first;
    let mut n = 0;
    while x != 0 {
        if x >= count {
            return None;
        }
        let i = tree_table::index(x);
        if work[off + i] != 0 {
            return None;
        }
        work[off + i] = m;
        n += 1;
        x = words::get_u32(table, i * w + link);
    }
    Some(n)
}

// The same where the number is not asked for.
pub fn mark_list(
    table: &[u8],
    w: usize,
    link: usize,
    count: u32,
    first: u32,
    work: &mut [u32],
    off: usize,
    m: u32,
) -> bool
    requires { (count * w ≤ length table.now) × (link + 4 ≤ w) × (off + count ≤ length work.old) × (0 < m) }
    ensures { ListMarked (link_at table.now w link) count first m off work.old work.new result }
{
    mark_counted(table, w, link, count, first, work, off, m).is_some()
}

// The mark of a removed entry.
pub const GONE: u32 = 65537;

// Goes along the child list of one directory, unless it is removed, and marks its entries with the directory's inode.
fn mark_dir(
    dirs: &[u8],
    p: u32,
    head: usize,
    table: &[u8],
    w: usize,
    count: u32,
    work: &mut [u32],
    off: usize,
) -> bool
    requires { (p * 40 + 40 ≤ length dirs.now) × (head + 4 ≤ 40) × (0 < p) × (p < length work.old)
        × (count * w ≤ length table.now) × (24 ≤ w) × (off + count ≤ length work.old) }
    ensures { DirMarked (link_at table.now w (start w next_field)) count (link_at dirs.now 40 head) p off work.old work.new result }
{
    let i = tree_table::index(p);
    if work[i] == GONE {
        return true;
    }
    let first = words::get_u32(dirs, i * tree_key::SaveExtDirEntry::WIDTH + head);
    mark_list(
        table,
        w,
        tree_key::SaveExtDirEntry::NEXT,
        count,
        first,
        work,
        off,
        p,
    )
}

// Goes along the child list of each live directory. The list starts at the word at `head` in the directory's entry and goes on by the next field of
// the entries of the table. The marks of the directories begin at 0.
pub fn mark_children(
    dirs: &[u8],
    bound: u32,
    head: usize,
    table: &[u8],
    w: usize,
    count: u32,
    work: &mut [u32],
    off: usize,
) -> bool
    requires { (bound * 40 ≤ length dirs.now) × (head + 4 ≤ 40) × (1 ≤ bound) × (bound ≤ 65536) × (bound ≤ length work.old)
        × (count * w ≤ length table.now) × (24 ≤ w) × (off + count ≤ length work.old) }
    ensures { ((RD R : List ℕ) → GoneMarked bound RD work.old
        → Gathered (link_at table.now w (start w next_field)) count (link_at dirs.now 40 head) (Live bound RD) R 1 (mark_at work.old off)
        → Gathers (link_at table.now w (start w next_field)) count (link_at dirs.now 40 head) (Live bound RD) bound off R work.new result)
        × Within off count work.old work.new }
{
    for p in 1..bound {
        if !mark_dir(dirs, p, head, table, w, count, work, off) {
            return false;
        }
    }
    true
}

// Takes away every mark but those of the removed entries.
pub fn keep_gone(work: &mut [u32], off: usize, count: u32)
    requires { off + count ≤ length work.old }
    ensures { GoneKept off count work.old work.new }
{
    let end = off + tree_table::index(count);
    for mark in &mut work[off..end] {
        *mark = if *mark == GONE { GONE } else { 0 };
    }
}

// Whether an entry's mark is that of a removed one, or the parent that the entry names. Only the root's may be 0.
fn named(root: u32, y: u32, mark: u32, parent: u32) -> bool
    ensures { Tells (ParentMarked root y mark parent) result }
{
    mark == GONE || mark == parent && (mark != 0 || y == root)
}

// Where an entry names its parent.
const PARENT: usize = 0;

// Whether each entry was met in the list of the parent that it names.
pub fn check_parents(
    table: &[u8],
    w: usize,
    root: u32,
    count: u32,
    work: &[u32],
    off: usize,
) -> bool
    requires { (count * w ≤ length table.now) × (4 ≤ w) × (off + count ≤ length work.now) }
    ensures { Tells ((y : ℕ) → 0 < y → y < count → ParentMarked root y (mark_at work.now off y) (link_at table.now w 0 y)) result }
{
    for y in 1..count {
        let i = tree_table::index(y);
        if !named(
            root,
            y,
            work[off + i],
            words::get_u32(table, i * w + PARENT),
        ) {
            return false;
        }
    }
    true
}

// Whether one comes to a mark 0 by going up from y by the marks. More steps than entries are a ring.
fn climbs(work: &[u32], count: u32, y: u32) -> bool
    requires { count ≤ length work.now }
    ensures { Tells (Tops count work.now y) result }
{
    let mut x = y;
    let mut steps = 0;
    while x != 0 {
        if x >= count {
            return false;
        }
        if steps == count {
            return false;
        }
        x = work[tree_table::index(x)];
        steps += 1;
    }
    true
}

// Sets the marks to 0 on the way up from y.
fn flatten(work: &mut [u32], count: u32, y: u32)
    requires { (count ≤ length work.old) × (0 < y) × (y < count) × Tops count work.old y }
    ensures { Flat count y work.old work.new }
{
    let mut x = y;
    let mut p = work[tree_table::index(y)];
    while p != 0 {
        work[tree_table::index(x)] = 0;
        x = p;
        p = work[tree_table::index(x)];
    }
}

// Whether directory y comes to the root. If it does, the marks know it of every directory on the way.
fn rises(work: &mut [u32], count: u32, y: u32) -> bool
    requires { (count ≤ length work.old) × (0 < y) × (y < count) }
    ensures { Risen count y work.old work.new result }
{
    let m = work[tree_table::index(y)];
    if m == GONE {
        return true;
    }
    if !climbs(work, count, y) {
        return false;
    }
    flatten(work, count, y);
    true
}

// Whether every directory comes to the root by parents. The marks of the live ones are their parents, and the root's is 0.
pub fn all_reach(work: &mut [u32], count: u32) -> bool
    requires { count ≤ length work.old }
    ensures { AllRisen count work.old work.new result }
{
    for y in 1..count {
        if !rises(work, count, y) {
            return false;
        }
    }
    true
}
