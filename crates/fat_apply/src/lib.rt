// The applying of a plan that makes a file whole.
#![tactic(auto)]

ghost use Rattle.std.specs.Prelude.{length};
ghost use Rattle.std.specs.Result.{result_unwrap_or};
ghost use Rattle.order.specs.Answer.{answer_of};
ghost use Rattle.fat_promises.specs.Promise.{beside};
ghost use Rattle.fat_apply.specs.Apply.{apply_gives, ApplyPromise};

pub mod step;
pub mod tested;

use crate::step::apply_sound;
use order::Refusal;

// Applies a plan for the file whose first block is given: its bytes are copied to the targets, which become its one node, and its old nodes go before the
// free front. Answers its number and the file's new first block; ReadOnlyVolume where the block length is not in use, NotAFile where the block is not the
// first of a chain other than the free one, InvalidValue where the plan is not accepted; then table and data stay as they were.
pub fn apply(
    table: &mut [u8],
    data: &mut [u8],
    block_len: usize,
    work: &mut [u32],
    first_block: usize,
    plan: &[u32],
) -> Result<usize, Refusal>
    ensures { ApplyPromise table.old «data».old block_len work.old first_block plan.now (beside (apply_gives (answer_of result) (result_unwrap_or result 0) table.new «data».new) work.new) }
{
    fat_test::change_gate(table, data.len(), block_len, work)?;
    let n = fat_node::blocks(table);
    apply_sound(table, data, block_len, n, &mut work[..n], first_block, plan)
}
