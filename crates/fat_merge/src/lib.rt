// Merging of free neighbours: the free chain in rising order, no two of its nodes touching.
#![tactic(auto)]

ghost use Rattle.std.specs.Prelude.{◌≡◌, ℕ, ◌≤◌, ◌<◌, length, get_or, replicate};
ghost use Rattle.fat_node.specs.Node.{NodeAt};
ghost use Rattle.fat_table.specs.Chain.{free_at};
ghost use Rattle.order.specs.Beside.{beside};
ghost use Rattle.fat_promises.specs.Calls.{change_gives};
ghost use Rattle.fat_walk.specs.Volume.{Volume};
ghost use Rattle.fat_merge.specs.Merge.{merged};
ghost use Rattle.fat_merge.specs.Promise.{MergeSound, MergePromise};
ghost use Rattle.fat_merge.specs.Inner.Sweep.{marks, Ahead, Here, Reading, Skipped, PassedOver, LaidFrom, IndexIs};

use fat_node::Node;
use fat_walk::head_of;
use order::Refusal;

// Marks the first block of every free node, along the free chain.
pub fn mark(table: &[u8], n: usize, work: &mut [u32])
    requires volume { Volume n table.now }
    requires work_len { length work.old ≡ n }
    ensures { work.new ≡ marks (free_at n table.now) work.old }
{
    let mut i = head_of(table);
    while i != 0 {
        let b = i - 1;
        work[b] = 1;
        i = fat_node::next_of(table, b);
    }
}

// The size of the node that stands at block b.
pub fn size_at(table: &[u8], n: usize, b: usize) -> usize
    requires { Here n table.now b }
    ensures { NodeAt table.now n b result }
{
    fat_node::size_of(table, n, b) as usize
}

// The first marked block from a node's start on, hopping by node; n where there is none.
pub fn skip(table: &[u8], n: usize, work: &[u32], from: usize) -> usize
    requires { Reading n table.now work.now «from» }
    ensures { (c : ℕ → ℕ) → Ahead n table.now work.now c «from» → Skipped n table.now work.now c «from» result }
{
    let mut b = from;
    while b < n {
        if work[b] != 0 {
            return b;
        }
        b += size_at(table, n, b);
    }
    b
}

// The end of the stretch of free blocks that starts at a marked block, hopping by node. Its marks are taken away.
fn past(table: &[u8], n: usize, work: &mut [u32], from: usize) -> usize
    requires reading { Reading n table.now work.old «from» }
    requires from_lt_n { «from» < n }
    requires fact { get_or work.old «from» 0 ≡ 0 → ⊥ }
    ensures { PassedOver n table.now work.old work.new «from» result }
{
    let mut end = from;
    while end < n {
        if work[end] == 0 {
            return end;
        }
        work[end] = 0;
        end += size_at(table, n, end);
    }
    end
}

// The index of block b, or 0 where b is past the last.
fn index_of(n: usize, b: usize) -> usize
    requires { n ≤ 1000000 }
    ensures { IndexIs n b result }
{
    if b < n { b + 1 } else { 0 }
}

// Writes a node for each stretch of free blocks, from the first one on, and takes the marks away. Each is written when the next is known, behind what is
// still to be read.
fn lay_from(table: &mut [u8], n: usize, work: &mut [u32], from: usize)
    requires reading { Reading n table.old work.old «from» }
    requires fact { «from» < n → get_or work.old «from» 0 ≡ 0 → ⊥ }
    ensures { LaidFrom n table.old table.new work.old work.new «from» }
{
    let mut b = from;
    let mut prev: usize = 0;
    while b < n {
        let end = past(table, n, work, b);
        let after = skip(table, n, work, end);
        let next = index_of(n, after);
        let size = end - b;
        fat_node::set_node(table, n, b, Node { size, prev, next });
        prev = b + 1;
        b = after;
    }
}

// Merges free neighbours, on a sound table and with a work list of one place a block, which are 0 before and after it.
pub fn merge_sound(table: &mut [u8], n: usize, work: &mut [u32])
    requires volume { Volume n table.old }
    requires work_value { work.old ≡ replicate n 0 }
    ensures { (table.new ≡ merged n table.old) × (work.new ≡ replicate n 0) }
{
    mark(table, n, work);
    let from = skip(table, n, work, 0);
    let head = index_of(n, from);
    lay_from(table, n, work, from);
    fat_node::set_head(table, head);
}

// Merges free neighbours: the free chain becomes the longest stretches of free blocks, in rising order, so that no two of its nodes touch. Every file stays.
// Answers its number alone; refuses what the test of the table refuses, a block length out of its bounds with the sizes, and one that is not in use last.
pub fn merge(table: &mut [u8], block_len: usize, work: &mut [u32]) -> Result<(), Refusal>
    ensures { MergePromise table.old block_len work.old (beside (change_gives result table.new) work.new) }
{
    fat_test::table_gate(table, block_len, work)?;
    let n = fat_node::blocks(table);
    merge_sound(table, n, &mut work[..n]);
    Ok(())
}

// The same for a side that has tested its table once and keeps it sound: tests nothing but the block length.
pub fn tested_merge(
    table: &mut [u8],
    n: usize,
    block_len: usize,
    work: &mut [u32],
) -> Result<(), Refusal>
    requires volume { Volume n table.old }
    requires work_value { work.old ≡ replicate n 0 }
    ensures { MergeSound n table.old block_len (change_gives result table.new) × (work.new ≡ replicate n 0) }
{
    if !fat_test::in_use(block_len) {
        return Err(Refusal::ReadOnlyVolume);
    }
    merge_sound(table, n, work);
    Ok(())
}
