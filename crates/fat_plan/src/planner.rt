// The planner: the moves of a file to the lowest place where it is whole.
ghost use Rattle.std.specs.Prelude.{◌≡◌, ℕ, ◌+◌, ◌*◌, ◌≤◌, length, take, replicate};
ghost use Rattle.std.specs.Result.{result_unwrap_or};
ghost use Rattle.order.specs.Answer.{answer_of};
ghost use Rattle.std.proofs.lemmas.List.Edits.{sets};
ghost use Rattle.fat_table.specs.Chain.{total, chain_at};
ghost use Rattle.fat_promises.specs.Calls.{list_gives};
ghost use Rattle.fat_walk.specs.Volume.{Volume};
ghost use Rattle.fat_walk.specs.Inner.Chains.{ChainFrom};
ghost use Rattle.fat_plan.specs.Plan.{moves};
ghost use Rattle.fat_plan.specs.Promise.{FindSound};
ghost use Rattle.fat_plan.specs.Inner.Finds.{FindPlanned, FindAt, Planned};

use crate::judge::{find_lowest, list_blocks};
use fat_walk::{Sought, is_file};
use order::Refusal;

// What a find will do: the file's blocks, `count` of them, move to those from `target` on.
#[derive(Clone, Copy)]
struct Found {
    count: usize,
    target: usize,
}

// The number of blocks of the chain that index first starts.
fn count_of(table: &[u8], n: usize, first: usize) -> usize
    requires { ChainFrom n table.now first }
    ensures { result ≡ total (chain_at table.now n first) }
{
    let sought = fat_walk::seek(table, n, first, n + 1);
    match sought {
        Sought::Within { node: _, part: _ } => 0,
        Sought::Past { last: _, part } => n + 1 - part,
    }
}

// Judges a find for the file at a block, with so many places for the plan: NotAFile, NoSpace, ListTooShort.
fn judge_find(
    table: &[u8],
    n: usize,
    work: &mut [u32],
    first_block: usize,
    room: usize,
) -> Result<Found, Refusal>
    requires volume { Volume n table.now }
    requires work_value { work.old ≡ replicate n 0 }
    ensures { (FindPlanned n table.now first_block room result) × (work.new ≡ replicate n 0) }
{
    if !is_file(table, n, first_block) {
        return Err(Refusal::NotAFile);
    }
    let count = count_of(table, n, first_block + 1);
    let index = find_lowest(table, n, work, count);
    if index == 0 {
        return Err(Refusal::NoSpace);
    }
    if room < 2 * count {
        return Err(Refusal::ListTooShort);
    }
    Ok(Found {
        count,
        target: index - 1,
    })
}

// Writes the moves of the first k blocks of one list to the blocks from m on, to the front of another.
fn write_moves(list: &mut [u32], blocks: &[u32], k: usize, m: usize)
    requires k_in_bounds { (k ≤ length blocks.now) × (2 * k ≤ length list.old) }
    requires k_bound { m + k ≤ 1000000 }
    ensures { list.new ≡ sets list.old 0 (moves (take k blocks.now) m) }
{
    for i in 0..k {
        list[2 * i] = blocks[i];
        list[2 * i + 1] = (m + i) as u32;
    }
}

// Writes the moves of a file to the blocks from m on, to the front of a list. The work list is cleared before it and after it.
fn plan_step(
    table: &[u8],
    n: usize,
    work: &mut [u32],
    first_block: usize,
    list: &mut [u32],
    m: usize,
)
    requires volume { Volume n table.now }
    requires work_value { work.old ≡ replicate n 0 }
    requires find_at { FindAt n table.now first_block (length list.old) m }
    ensures { (Planned n table.now first_block list.old m list.new) × (work.new ≡ replicate n 0) }
{
    let k = list_blocks(table, n, work, first_block);
    write_moves(list, work, k, m);
    order::clear(work);
}

// Plans to make the file at a block whole, on a sound table.
pub fn find_sound(
    table: &[u8],
    n: usize,
    work: &mut [u32],
    first_block: usize,
    list: &mut [u32],
) -> Result<usize, Refusal>
    requires volume { Volume n table.now }
    requires work_value { work.old ≡ replicate n 0 }
    ensures { (FindSound n table.now first_block list.old (list_gives (answer_of result) (result_unwrap_or result 0) list.new)) × (work.new ≡ replicate n 0) }
{
    let found = judge_find(table, n, work, first_block, list.len())?;
    plan_step(table, n, work, first_block, list, found.target);
    Ok(found.count)
}
