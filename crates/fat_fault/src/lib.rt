// Where a block table is broken: the entry and the rule, found by passes over a table that is refused. Every pass is linear in the number of blocks: a
// place of the work list goes from 0 to 1, to a colour, to the ring's mark, and never back.
#![tactic(auto)]

ghost use Rattle.std.specs.Prelude.{◌≡◌, true, false, ℕ, suc, ◌+◌, ◌*◌, ◌≤◌, ◌<◌, length, get_or, replicate};
ghost use Rattle.fat_node.specs.Node.{prev_at, next_at};
ghost use Rattle.fat_fault.specs.Fault.{answered, head_fits, loose, hop, untied, lowest, fault_of};
ghost use Rattle.fat_fault.specs.Inner.Ring.{Ring};
ghost use Rattle.fat_fault.specs.Inner.Marks.{Marked, Fresh, Finds, Walked, Names, Hops, Coloured, Closed, Rounded, Came};

use order::Fault;

// The mark of a node that lies in a ring.
const ROUND: u32 = 2147483648;

// Marks every node by 1, along the walk from block 0; or finds the first that can't be read.
fn walk(table: &[u8], work: &mut [u32]) -> Result<(), Fault>
    requires table_len { length table.now ≡ 8 * (length work.old + 1) }
    requires work_len_bound { length work.old ≤ 1000000 }
    requires work_value { work.old ≡ replicate (length work.old) 0 }
    ensures { Walked (length work.old) table.now work.new result }
{
    let n = work.len();
    let mut b: usize = 0;
    while b < n {
        let node = fat_node::get_node(table, n, b)?;
        work[b] = 1;
        b += node.size;
    }
    Ok(())
}

// The block of the node that index i names, if it names one.
fn named(work: &[u32], i: usize) -> Option<usize>
    ensures { Names work.now i result }
{
    if 0 < i && i <= work.len() && work[i - 1] != 0 {
        Some(i - 1)
    } else {
        None
    }
}

// Whether the head has its form, and names none or a node with no previous.
fn head_fits(table: &[u8], work: &[u32]) -> bool
    requires table_len { length table.now ≡ 8 * (length work.now + 1) }
    requires work_len_bound { length work.now ≤ 1000000 }
    requires marked { Marked (length work.now) table.now work.now }
    ensures { result ≡ head_fits (length work.now) table.now }
{
    match fat_node::get_head(table) {
        Some(h) => named(work, h).map_or(h == 0, |j| fat_node::prev_of(table, j) == 0),
        None => false,
    }
}

// Whether a link of the node at block b names no node, or one that does not name it back.
fn loose(table: &[u8], work: &[u32], b: usize) -> bool
    requires table_len { length table.now ≡ 8 * (length work.now + 1) }
    requires b_in_bounds { (b < length work.now) × (length work.now ≤ 1000000) }
    requires marked { Marked (length work.now) table.now work.now }
    ensures { result ≡ loose (length work.now) table.now b }
{
    let next = fat_node::next_of(table, b);
    let prev = fat_node::prev_of(table, b);
    !named(work, next).map_or(next == 0, |j| fat_node::prev_of(table, j) == b + 1)
        || !named(work, prev).map_or(prev == 0, |j| fat_node::next_of(table, j) == b + 1)
}

// The block of the node that next names at block b, if it names one.
fn hop(table: &[u8], work: &[u32], b: usize) -> Option<usize>
    requires table_len { length table.now ≡ 8 * (length work.now + 1) }
    requires b_in_bounds { (b < length work.now) × (length work.now ≤ 1000000) }
    requires marked { Marked (length work.now) table.now work.now }
    ensures { Hops (length work.now) table.now b result }
{
    named(work, fat_node::next_of(table, b))
}

// Gives every node of the ring that block j lies in the ring's mark.
fn ring(table: &[u8], work: &mut [u32], j: usize)
    requires table_len { length table.now ≡ 8 * (length work.old + 1) }
    requires j_in_bounds { (j < length work.old) × (length work.old ≤ 1000000) }
    requires marked { Marked (length work.old) table.now work.old }
    requires closed { Closed (length work.old) table.now work.old }
    requires ring { Ring (hop (length work.old) table.now) j }
    ensures { Rounded (length work.old) table.now j work.old work.new }
{
    let mut i = j;
    while work[i] != ROUND {
        work[i] = ROUND;
        let Some(next) = hop(table, work, i) else {
            return;
        };
        i = next;
    }
}

// Colours what is come to from the node at block b, as far as it was not, and tells whether one comes back to b. Where that closes another ring, marks it.
fn colour(table: &[u8], work: &mut [u32], b: usize) -> bool
    requires table_len { length table.now ≡ 8 * (length work.old + 1) }
    requires b_in_bounds { (b < length work.old) × (length work.old ≤ 1000000) }
    requires coloured { Coloured (length work.old) table.now b work.old }
    ensures { Came (length work.old) table.now b work.new result }
{
    let own = b as u32 + 2;
    let mut at = Some(b);
    while let Some(j) = at {
        let m = work[j];
        if m != 1 {
            if m == own {
                if j == b {
                    return true;
                }
                ring(table, work, j);
            }
            return false;
        }
        work[j] = own;
        at = hop(table, work, j);
    }
    false
}

// Whether a node stands at block b that is loose or in a ring; the nodes below b are coloured.
fn untied(table: &[u8], work: &mut [u32], b: usize) -> bool
    requires table_len { length table.now ≡ 8 * (length work.old + 1) }
    requires b_in_bounds { (b < length work.old) × (length work.old ≤ 1000000) }
    requires coloured { Coloured (length work.old) table.now b work.old }
    ensures { (result ≡ untied (length work.old) table.now b) × (result ≡ false → Coloured (length work.old) table.now (b + 1) work.new) }
{
    colour(table, work, b) || work[b] == ROUND || work[b] != 0 && loose(table, work, b)
}

// Whether no node is loose or in a ring; or the lowest that is, which is told as soon as it is come to.
fn lowest(table: &[u8], work: &mut [u32]) -> Result<(), Fault>
    requires table_len { length table.now ≡ 8 * (length work.old + 1) }
    requires work_len_bound { length work.old ≤ 1000000 }
    requires fresh { Fresh (length work.old) table.now work.old }
    ensures { Finds (lowest (length work.old) table.now (length work.old) 0) result }
{
    for b in 0..work.len() {
        if untied(table, work, b) {
            return Err(Fault {
                entry: b + 1,
                rule: 7,
            });
        }
    }
    Ok(())
}

// Whether there is no fault; or the first, with a work list that is 0 before it.
fn find(table: &[u8], work: &mut [u32]) -> Result<(), Fault>
    requires table_len { length table.now ≡ 8 * (length work.old + 1) }
    requires work_len_bound { length work.old ≤ 1000000 }
    requires work_value { work.old ≡ replicate (length work.old) 0 }
    ensures { Finds (fault_of (length work.old) table.now) result }
{
    walk(table, work)?;
    if !head_fits(table, work) {
        return Err(Fault { entry: 0, rule: 6 });
    }
    lowest(table, work)
}

// Whether a table is sound; or where it is broken, with a work list of as many places as blocks that is 0 before and after.
pub fn locate(table: &[u8], work: &mut [u32]) -> Result<(), Fault>
    requires table_len { length table.now ≡ 8 * (length work.old + 1) }
    requires work_len_bound { length work.old ≤ 1000000 }
    requires work_value { work.old ≡ replicate (length work.old) 0 }
    ensures { Finds (fault_of (length work.old) table.now) result × (work.new ≡ replicate (length work.old) 0) }
{
    let found = find(table, work);
    order::clear(work);
    found
}
