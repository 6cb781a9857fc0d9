// The applying of a plan for a side that has tested its table once and keeps it sound. It requires what the test tells and tests nothing but the block
// length: ReadOnlyVolume where it is not in use, before the call's own refusals.
ghost use Rattle.std.specs.Prelude.{◌≡◌, length, replicate};
ghost use Rattle.std.specs.Result.{result_unwrap_or};
ghost use Rattle.order.specs.Answer.{answer_of};
ghost use Rattle.fat_walk.specs.Volume.{Volume, Data};
ghost use Rattle.fat_apply.specs.Apply.{apply_gives, ApplyTested};

use crate::step::apply_sound;
use order::Refusal;

// Applies a plan for the file at a block, with a work list of one place a block, which are 0 before and after it.
pub fn tested_apply(
    table: &mut [u8],
    n: usize,
    data: &mut [u8],
    block_len: usize,
    work: &mut [u32],
    first_block: usize,
    plan: &[u32],
) -> Result<usize, Refusal>
    requires volume { Volume n table.old }
    requires fact { Data n (length «data».old) block_len }
    requires work_value { work.old ≡ replicate n 0 }
    ensures { (ApplyTested n table.old «data».old block_len first_block plan.now (apply_gives (answer_of result) (result_unwrap_or result 0) table.new «data».new)) × (work.new ≡ replicate n 0) }
{
    if !fat_test::in_use(block_len) {
        return Err(Refusal::ReadOnlyVolume);
    }
    apply_sound(table, data, block_len, n, work, first_block, plan)
}
