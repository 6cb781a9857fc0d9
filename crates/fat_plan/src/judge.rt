// Whether a plan is accepted, and where the planner's plan leads. Nothing is changed here but the work list.
ghost use Rattle.std.specs.Prelude.{◌≡◌, ℕ, ◌+◌, ◌*◌, ◌≤◌, ◌<◌, length, get_or, replicate};
ghost use Rattle.fat_table.specs.Sound.{File};
ghost use Rattle.fat_walk.specs.Volume.{Volume};
ghost use Rattle.fat_merge.specs.Inner.Sweep.{Ahead, Reading, Passed};
ghost use Rattle.fat_plan.specs.Plan.{Accepted, lowest};
ghost use Rattle.fat_plan.specs.Promise.{CheckSound};
ghost use Rattle.fat_plan.specs.Inner.Moves.{Says, BlocksIn, Moves, Open, StandsSaid, LowestSaid};

use fat_list::open_list_sound;
use fat_merge::{mark, size_at, skip};
use fat_walk::is_file;
use order::Refusal;

// The end of the stretch of free blocks that starts at a marked block, hopping by node.
fn past(table: &[u8], n: usize, work: &[u32], from: usize) -> usize
    requires reading { Reading n table.now work.now «from» }
    requires from_lt_n { «from» < n }
    requires fact { get_or work.now «from» 0 ≡ 0 → ⊥ }
    ensures { (c : ℕ → ℕ) → Ahead n table.now work.now c «from» → Passed n table.now work.now c «from» result }
{
    let mut end = from;
    while end < n {
        if work[end] == 0 {
            return end;
        }
        end += size_at(table, n, end);
    }
    end
}

// Whether the k blocks from m on lie in one stretch of marked nodes, hopping by node.
fn stands(table: &[u8], n: usize, work: &[u32], m: usize, k: usize) -> bool
    requires reading { Reading n table.now work.now 0 }
    requires m_bound { (m ≤ 4294967295) × (1 ≤ k) × (k ≤ 1000000) }
    ensures { StandsSaid n table.now work.now m k result }
{
    let mut b = skip(table, n, work, 0);
    while b < n {
        let end = past(table, n, work, b);
        if m < end {
            return b <= m && m + k <= end;
        }
        b = skip(table, n, work, end);
    }
    false
}

// The index of the first stretch of k marked blocks, 0 for none, hopping by node.
fn first_fit(table: &[u8], n: usize, work: &[u32], k: usize) -> usize
    requires { Reading n table.now work.now 0 }
    ensures { LowestSaid n table.now work.now k result }
{
    let mut b = skip(table, n, work, 0);
    while b < n {
        let end = past(table, n, work, b);
        if k <= end - b {
            return b + 1;
        }
        b = skip(table, n, work, end);
    }
    0
}

// Whether the k blocks from m on are all free. The work list is cleared before it and after it.
fn is_open(table: &[u8], n: usize, work: &mut [u32], m: usize, k: usize) -> bool
    requires volume { Volume n table.now }
    requires work_value { work.old ≡ replicate n 0 }
    requires m_bound { (m ≤ 4294967295) × (1 ≤ k) × (k ≤ 1000000) }
    ensures { (Says result (Open n table.now m k)) × (work.new ≡ replicate n 0) }
{
    mark(table, n, work);
    let open = stands(table, n, work, m, k);
    order::clear(work);
    open
}

// The index of the lowest block at which k consecutive free blocks stand, 0 for none. The work list is cleared before it and after it.
pub fn find_lowest(table: &[u8], n: usize, work: &mut [u32], k: usize) -> usize
    requires volume { Volume n table.now }
    requires work_value { work.old ≡ replicate n 0 }
    ensures { (result ≡ lowest n table.now k) × (work.new ≡ replicate n 0) }
{
    mark(table, n, work);
    let index = first_fit(table, n, work, k);
    order::clear(work);
    index
}

// Writes the blocks of a file to the front of the work list and answers how many there are.
pub fn list_blocks(table: &[u8], n: usize, work: &mut [u32], first_block: usize) -> usize
    requires volume { Volume n table.now }
    requires file { File table.now n first_block }
    requires work_len { length work.old ≡ n }
    ensures { BlocksIn n table.now first_block result work.new }
{
    open_list_sound(table, n, first_block, work).unwrap()
}

// Whether a plan moves the first k blocks of a list, in their order, to consecutive blocks.
fn same_moves(plan: &[u32], list: &[u32], k: usize) -> bool
    requires { (1 ≤ k) × (k ≤ 1000000) × (k ≤ length list.now) }
    ensures { Says result (Moves plan.now list.now k) }
{
    if plan.len() != 2 * k {
        return false;
    }
    let m = plan[1] as usize;
    for i in 0..k {
        if plan[2 * i] != list[i] || plan[2 * i + 1] as usize != m + i {
            return false;
        }
    }
    true
}

// Whether a plan is accepted for a file. The work list is cleared before it and after it.
fn accepts(table: &[u8], n: usize, work: &mut [u32], first_block: usize, plan: &[u32]) -> bool
    requires volume { Volume n table.now }
    requires file { File table.now n first_block }
    requires work_value { work.old ≡ replicate n 0 }
    ensures { (Says result (Accepted n table.now first_block plan.now)) × (work.new ≡ replicate n 0) }
{
    let k = list_blocks(table, n, work, first_block);
    let same = same_moves(plan, work, k);
    order::clear(work);
    same && is_open(table, n, work, plan[1] as usize, k)
}

// Judges a plan for the file at a block: NotAFile, InvalidValue.
pub fn check_sound(
    table: &[u8],
    n: usize,
    work: &mut [u32],
    first_block: usize,
    plan: &[u32],
) -> Result<(), Refusal>
    requires volume { Volume n table.now }
    requires work_value { work.old ≡ replicate n 0 }
    ensures { (CheckSound n table.now first_block plan.now result) × (work.new ≡ replicate n 0) }
{
    if !is_file(table, n, first_block) {
        return Err(Refusal::NotAFile);
    }
    if !accepts(table, n, work, first_block, plan) {
        return Err(Refusal::InvalidValue);
    }
    Ok(())
}
