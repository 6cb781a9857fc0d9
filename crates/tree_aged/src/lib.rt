// Whether the orders of the entry tables' lists are those of one past: a walk along the links of each table, depth first.
#![tactic(auto)]

ghost use Rattle.std.specs.Prelude.{◌≡◌, ◌<◌, length};
ghost use Rattle.order.specs.Answer.{Done};
ghost use Rattle.order.specs.Beside.{beside};
ghost use Rattle.tree_table.specs.Field.{field};
ghost use Rattle.tree_table.specs.Chain.{link_at};
ghost use Rattle.tree_sound.specs.Tables.{tables};
ghost use Rattle.tree_marks.specs.Inner.Marks.{mark_of};
ghost use Rattle.tree_aged.specs.Calls.{table_number, told, aged_says, AgedPromise};
ghost use Rattle.tree_aged.specs.Inner.Walk.{Fits, At, OpenTo, Open, Known, RemovedEnds, Walked, Passed, Lowest, Zeros, Begun, Leaves, Ripe, Sorted, OpenTree, OpenSays};

use order::Refusal;
use tree_promises::Kind;

// An entry of the directories or of the files, from which links lead into a circle; or the root, where it names another.
#[derive(Clone, Copy)]
pub struct Entry {
    pub kind: Kind,
    pub inode: u32,
}

// The number of a table, as a technician reads it and the C interface gives it.
pub fn table_number(kind: Kind) -> u32
    ensures { result ≡ table_number kind }
{
    match kind {
        Kind::Directory => 1,
        Kind::File => 2,
    }
}

// The widths of the two entry types.
const DIR: usize = tree_key::SaveExtDirEntry::WIDTH;

const FILE: usize = tree_key::SaveExtFileEntry::WIDTH;

// Where the next field stands in an entry, whichever its type.
const NEXT: usize = tree_key::SaveExtDirEntry::NEXT;

// The mark of an entry from which every way by links ends. An entry on the way that is gone along has the one before it, plus 1, as its mark.
const ENDED: u32 = 65538;

// Whether a link names an entry that is not known to end.
fn is_open(work: &[u32], z: u32) -> bool
    requires { z < length work.now }
    ensures { OpenTo work.now z result }
{
    z != 0 && work[tree_table::index(z)] != ENDED
}

// The first link of entry x that leads to an entry not known to end; 0 where there is none.
fn open_link(table: &[u8], w: usize, work: &[u32], x: u32) -> u32
    requires { At w table.now work.now x }
    ensures { Open w table.now work.now x result }
{
    let c = tree_table::link_of(table, w, w - tree_table::LINK, x);
    if is_open(work, c) {
        return c;
    }
    let n = tree_table::link_of(table, w, NEXT, x);
    if is_open(work, n) {
        return n;
    }
    0
}

// Whether every way by links from entry y ends. Goes on from an entry by a link that is open, and back where none is; a link to an entry on the way closes
// a circle.
fn ends(table: &[u8], w: usize, work: &mut [u32], y: u32) -> bool
    requires at { At w table.now work.old y }
    requires known { Known w table.now work.old }
    requires y_value { mark_of work.old y ≡ 0 }
    ensures { Walked w table.now y work.new result }
{
    work[tree_table::index(y)] = 1;
    let mut x = y;
    while x != 0 {
        let z = open_link(table, w, work, x);
        let i = tree_table::index(x);
        if z == 0 {
            x = work[i] - 1;
            work[i] = ENDED;
        } else {
            let j = tree_table::index(z);
            if work[j] != 0 {
                return false;
            }
            work[j] = x + 1;
            x = z;
        }
    }
    true
}

// Whether an inode is no entry, or one from which every way by links ends.
fn passes(table: &[u8], w: usize, work: &mut [u32], y: u32) -> bool
    requires fits { Fits w table.now work.old }
    requires known { Known w table.now work.old }
    requires y_nonzero { 0 < y }
    requires y_bound { y < field w table.now 0 1 }
    ensures { Passed w table.now y work.new result }
{
    work[tree_table::index(y)] != 0 || ends(table, w, work, y)
}

// The lowest entry from which links lead into a circle.
fn lowest(table: &[u8], w: usize, count: u32, work: &mut [u32]) -> Option<u32>
    requires fits { Fits w table.now work.old }
    requires known { Known w table.now work.old }
    requires count_value { count ≡ field w table.now 0 1 }
    ensures { Lowest w table.now result }
{
    for y in 1..count {
        if !passes(table, w, work, y) {
            return Some(y);
        }
    }
    None
}

// Marks the removed entries.
fn mark_gone(table: &[u8], w: usize, count: u32, work: &mut [u32])
    requires fits { Fits w table.now work.old }
    requires removed_ends { RemovedEnds w table.now }
    requires zeros { Zeros work.old }
    requires count_value { count ≡ link_at table.now w 0 0 }
    ensures { Begun w table.now work.new }
{
    let first = tree_table::link_of(table, w, w - tree_table::LINK, 0);
    tree_marks::mark_list(
        table,
        w,
        w - tree_table::LINK,
        count,
        first,
        work,
        0,
        tree_marks::GONE,
    );
}

// The lowest such entry of a table by itself, in a work list of zeros, which are there again after it.
fn sort(table: &[u8], w: usize, work: &mut [u32]) -> Option<u32>
    requires fits { Fits w table.now work.old }
    requires removed_ends { RemovedEnds w table.now }
    requires zeros { Zeros work.old }
    ensures { Leaves w table.now work.old work.new result }
{
    let count = tree_table::link_of(table, w, tree_table::COUNT, 0);
    mark_gone(table, w, count, work);
    let found = lowest(table, w, count, work);
    order::clear(work);
    found
}

// The same in the first places of a work list, as many as the table has room for.
fn sorted(table: &[u8], w: usize, work: &mut [u32]) -> Option<u32>
    requires { Ripe w table.now work.old }
    ensures { Sorted w table.now work.old work.new result }
{
    let room = table.len() / w;
    sort(table, w, &mut work[..room])
}

// What is told once the gate is open.
fn aged_open(dir_table: &[u8], file_table: &[u8], work: &mut [u32]) -> Option<Entry>
    requires { OpenTree dir_table.now file_table.now work.old }
    ensures { OpenSays dir_table.now file_table.now work.old work.new (told Done result) }
{
    if tree_table::link_of(dir_table, DIR, DIR - tree_table::LINK, 1) != 0 {
        return Some(Entry {
            kind: Kind::Directory,
            inode: 1,
        });
    }
    if let Some(inode) = sorted(dir_table, DIR, work) {
        return Some(Entry {
            kind: Kind::Directory,
            inode,
        });
    }
    let inode = sorted(file_table, FILE, work)?;
    Some(Entry {
        kind: Kind::File,
        inode,
    })
}

// Whether an honest writer can have left sound entry tables, by the orders of their lists. None: no entry is newer than itself, and nothing is older than the
// root. Directory and inode 1: the root names another entry of its bucket. Else the lowest directory from which links lead into a circle, or the lowest such
// file.
pub fn aged(
    dir_hash: &[u8],
    dir_table: &[u8],
    file_hash: &[u8],
    file_table: &[u8],
    work: &mut [u32],
) -> Result<Option<Entry>, Refusal>
    ensures { AgedPromise (tables dir_hash.now dir_table.now file_hash.now file_table.now) work.old (beside (aged_says result) work.new) }
{
    tree_test::gate(dir_hash, dir_table, file_hash, file_table, work)?;
    Ok(aged_open(dir_table, file_table, work))
}
