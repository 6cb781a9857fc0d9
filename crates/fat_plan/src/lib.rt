// Plans to make a file whole: a checker of anyone's plans, and a planner.
#![tactic(auto)]

ghost use Rattle.std.specs.Prelude.{length};
ghost use Rattle.std.specs.Result.{result_unwrap_or};
ghost use Rattle.order.specs.Answer.{answer_of};
ghost use Rattle.fat_promises.specs.Promise.{beside};
ghost use Rattle.fat_plan.specs.Promise.{CheckPromise, FindPromise};
ghost use Rattle.fat_promises.specs.Calls.{list_gives};

pub mod judge;
pub mod planner;

use crate::judge::check_sound;
use crate::planner::find_sound;
use order::Refusal;

// Checks a plan for the file whose first block is given. Answers its number alone; NotAFile where the block is not the first of a chain other than the free
// one, InvalidValue where the plan is not accepted: its sources are the file's blocks in file order, its targets consecutive and free.
pub fn check(
    table: &[u8],
    data: &[u8],
    block_len: usize,
    work: &mut [u32],
    first_block: usize,
    plan: &[u32],
) -> Result<(), Refusal>
    ensures { CheckPromise table.now (length «data».now) block_len work.old first_block plan.now (beside result work.new) }
{
    fat_test::gate(table, data.len(), block_len, work)?;
    let n = fat_node::blocks(table);
    check_sound(table, n, &mut work[..n], first_block, plan)
}

// Plans to make the file whose first block is given whole: its blocks move to the lowest place where enough consecutive blocks are free. Writes source and
// target of each move into the list; later places stay. Answers its number and how many moves there are; NotAFile as check, NoSpace where there is no such
// place, ListTooShort where the list has fewer than two places a block.
pub fn find(
    table: &[u8],
    data: &[u8],
    block_len: usize,
    work: &mut [u32],
    first_block: usize,
    list: &mut [u32],
) -> Result<usize, Refusal>
    ensures { FindPromise table.now (length «data».now) block_len work.old first_block list.old (beside (list_gives (answer_of result) (result_unwrap_or result 0) list.new) work.new) }
{
    fat_test::gate(table, data.len(), block_len, work)?;
    let n = fat_node::blocks(table);
    find_sound(table, n, &mut work[..n], first_block, list)
}
