// The applying of a plan on a sound table: the bytes copied, the targets made a file of one node, the old nodes put before the free front.
ghost use Rattle.std.specs.Prelude.{◌≡◌, ℕ, ◌+◌, ◌*◌, ◌≤◌, length, take, drop, replicate};
ghost use Rattle.std.specs.Result.{result_unwrap_or};
ghost use Rattle.order.specs.Answer.{answer_of};
ghost use Rattle.std.proofs.lemmas.List.Edits.{sets};
ghost use Rattle.fat_promises.specs.Blocks.{bytes_at};
ghost use Rattle.fat_walk.specs.Volume.{Volume, Data};
ghost use Rattle.fat_plan.specs.Promise.{MayCheck};
ghost use Rattle.fat_apply.specs.Apply.{apply_gives, ApplySound};
ghost use Rattle.fat_apply.specs.Inner.Moving.{sources_of, Movable, AppliedBy};

use fat_place::place_step;
use fat_plan::judge::check_sound;
use fat_step::delete_step;
use fat_walk::last_of;
use order::Refusal;

// Copies len bytes of the data from place `from` on over those from place `to` on.
fn copy_block(data: &mut [u8], from: usize, to: usize, len: usize)
    requires { («from» + len ≤ length «data».old) × (to + len ≤ length «data».old) }
    ensures { «data».new ≡ sets «data».old to (take len (drop «from» «data».old)) }
{
    data.copy_within(from..from + len, to);
}

// Copies the source blocks of a plan, in its order, to the blocks from m on, none of which is a source.
fn move_blocks(data: &mut [u8], block_len: usize, n: usize, plan: &[u32], m: usize)
    requires fact { Data n (length «data».old) block_len }
    requires movable { Movable n m plan.now }
    ensures { «data».new ≡ sets «data».old (m * block_len) (bytes_at (length (sources_of plan.now) * block_len) «data».old block_len (sources_of plan.now) 0) }
{
    for i in 0..plan.len() / 2 {
        let b = plan[2 * i] as usize;
        copy_block(data, b * block_len, (m + i) * block_len, block_len);
    }
}

// Applies an accepted plan for the file at a block. Answers its new first block.
fn apply_step(
    table: &mut [u8],
    data: &mut [u8],
    block_len: usize,
    n: usize,
    first_block: usize,
    plan: &[u32],
) -> usize
    requires volume { Volume n table.old }
    requires fact { Data n (length «data».old) block_len }
    requires may_check { MayCheck n table.old first_block plan.now }
    ensures { AppliedBy n table.old «data».old block_len first_block plan.now result table.new «data».new }
{
    let m = plan[1] as usize;
    let k = plan.len() / 2;
    move_blocks(data, block_len, n, plan, m);
    place_step(table, n, m, k);
    let last = last_of(table, n, first_block + 1);
    delete_step(table, n, first_block, last);
    m
}

// Applies a plan for the file at a block, on a sound table, with a work list of one place a block, which are 0 before and after it.
pub fn apply_sound(
    table: &mut [u8],
    data: &mut [u8],
    block_len: usize,
    n: usize,
    work: &mut [u32],
    first_block: usize,
    plan: &[u32],
) -> Result<usize, Refusal>
    requires volume { Volume n table.old }
    requires fact { Data n (length «data».old) block_len }
    requires work_value { work.old ≡ replicate n 0 }
    ensures { (ApplySound n table.old «data».old block_len first_block plan.now (apply_gives (answer_of result) (result_unwrap_or result 0) table.new «data».new)) × (work.new ≡ replicate n 0) }
{
    check_sound(table, n, work, first_block, plan)?;
    Ok(apply_step(table, data, block_len, n, first_block, plan))
}
