// Plans that make a file whole: the three calls, and the inner calls for a side that has tested its table once and keeps it sound.
ghost use Rattle.std.specs.Prelude.{◌≡◌, length, replicate};
ghost use Rattle.fat_promises.specs.Promise.{beside};
ghost use Rattle.fat_promises.specs.Calls.{list_gives};
ghost use Rattle.fat_walk.specs.Volume.{Volume, Data};
ghost use Rattle.fat_plan.specs.Promise.{CheckSound, CheckPromise, FindSound, FindPromise};
ghost use Rattle.fat_apply.specs.Apply.{apply_gives, ApplyTested, ApplyPromise};
ghost use Rattle.mukthiban.specs.Export.{Located};

use crate::{Answered, Created, Planned};

#[unsafe(no_mangle)]
pub extern "C" fn mukthiban_plan_check(
    table: &[u8],
    data: &[u8],
    block_len: usize,
    work: &mut [u32],
    first_block: usize,
    plan: &[u32],
) -> Answered
    ensures { Located result.answer result.entry result.rule (λ a. CheckPromise table.now (length «data».now) block_len work.old first_block plan.now (beside a work.new)) }
{
    fat_plan::check(table, data, block_len, work, first_block, plan).into()
}

#[unsafe(no_mangle)]
pub extern "C" fn mukthiban_plan_apply(
    table: &mut [u8],
    data: &mut [u8],
    block_len: usize,
    work: &mut [u32],
    first_block: usize,
    plan: &[u32],
) -> Created
    ensures { Located result.answer result.entry result.rule (λ a. ApplyPromise table.old «data».old block_len work.old first_block plan.now (beside (apply_gives a result.first_block table.new «data».new) work.new)) }
{
    fat_apply::apply(table, data, block_len, work, first_block, plan).into()
}

#[unsafe(no_mangle)]
pub extern "C" fn mukthiban_plan_find(
    table: &[u8],
    data: &[u8],
    block_len: usize,
    work: &mut [u32],
    first_block: usize,
    list: &mut [u32],
) -> Planned
    ensures { Located result.answer result.entry result.rule (λ a. FindPromise table.now (length «data».now) block_len work.old first_block list.old (beside (list_gives a result.count list.new) work.new)) }
{
    fat_plan::find(table, data, block_len, work, first_block, list).into()
}

#[unsafe(no_mangle)]
pub extern "C" fn mukthiban_tested_plan_check(
    table: &[u8],
    n: usize,
    work: &mut [u32],
    first_block: usize,
    plan: &[u32],
) -> Answered
    requires volume { Volume n table.now }
    requires work_value { work.old ≡ replicate n 0 }
    ensures { Located result.answer result.entry result.rule (λ a. CheckSound n table.now first_block plan.now a × (work.new ≡ replicate n 0)) }
{
    fat_plan::judge::check_sound(table, n, work, first_block, plan).into()
}

#[unsafe(no_mangle)]
pub extern "C" fn mukthiban_tested_plan_apply(
    table: &mut [u8],
    n: usize,
    data: &mut [u8],
    block_len: usize,
    work: &mut [u32],
    first_block: usize,
    plan: &[u32],
) -> Created
    requires volume { Volume n table.old }
    requires fact { Data n (length «data».old) block_len }
    requires work_value { work.old ≡ replicate n 0 }
    ensures { Located result.answer result.entry result.rule (λ a. ApplyTested n table.old «data».old block_len first_block plan.now (apply_gives a result.first_block table.new «data».new) × (work.new ≡ replicate n 0)) }
{
    fat_apply::tested::tested_apply(table, n, data, block_len, work, first_block, plan).into()
}

#[unsafe(no_mangle)]
pub extern "C" fn mukthiban_tested_plan_find(
    table: &[u8],
    n: usize,
    work: &mut [u32],
    first_block: usize,
    list: &mut [u32],
) -> Planned
    requires volume { Volume n table.now }
    requires work_value { work.old ≡ replicate n 0 }
    ensures { Located result.answer result.entry result.rule (λ a. FindSound n table.now first_block list.old (list_gives a result.count list.new) × (work.new ≡ replicate n 0)) }
{
    fat_plan::planner::find_sound(table, n, work, first_block, list).into()
}
