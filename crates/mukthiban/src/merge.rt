// The merge of free neighbours: the call, and the inner call for a side that has tested its table once and keeps it sound.
ghost use Rattle.std.specs.Prelude.{◌≡◌, replicate};
ghost use Rattle.fat_promises.specs.Promise.{beside};
ghost use Rattle.fat_promises.specs.Calls.{change_gives};
ghost use Rattle.fat_walk.specs.Volume.{Volume};
ghost use Rattle.fat_merge.specs.Promise.{MergeSound, MergePromise};
ghost use Rattle.mukthiban.specs.Export.{Located};

use crate::Answered;

#[unsafe(no_mangle)]
pub extern "C" fn mukthiban_fat_merge(
    table: &mut [u8],
    block_len: usize,
    work: &mut [u32],
) -> Answered
    ensures { Located result.answer result.entry result.rule (λ a. MergePromise table.old block_len work.old (beside (change_gives a table.new) work.new)) }
{
    fat_merge::merge(table, block_len, work).into()
}

#[unsafe(no_mangle)]
pub extern "C" fn mukthiban_tested_fat_merge(
    table: &mut [u8],
    n: usize,
    block_len: usize,
    work: &mut [u32],
) -> Answered
    requires volume { Volume n table.old }
    requires work_value { work.old ≡ replicate n 0 }
    ensures { Located result.answer result.entry result.rule (λ a. MergeSound n table.old block_len (change_gives a table.new)) × (work.new ≡ replicate n 0) }
{
    fat_merge::tested_merge(table, n, block_len, work).into()
}
