// The kiosk's test and create, and the inner calls for a side that has tested its tables once and keeps them sound.
ghost use Rattle.std.specs.Prelude.{◌+◌, ◌/◌, ◌≤◌, length};
ghost use Rattle.fat_promises.specs.Calls.{create_gives};
ghost use Rattle.fat_walk.specs.Volume.{Volume};
ghost use Rattle.tree_sound.specs.Tables.{tables};
ghost use Rattle.audit_inner.specs.Inner.Marks.{Clear};
ghost use Rattle.kiosk_create.specs.Create.{KioskTested, KioskPromise};
ghost use Rattle.kiosk_inner.specs.Inner.Judge.{ReadyProfile};
ghost use Rattle.kiosk.specs.Promise.{beside, profile_gives, TestPromise, TestSays};
ghost use Rattle.mukthiban.specs.Export.{Located};

use crate::{Created, Profiled};

#[unsafe(no_mangle)]
pub extern "C" fn mukthiban_kiosk_test(
    table: &[u8],
    data: &[u8],
    block_len: usize,
    dir_hash: &[u8],
    dir_table: &[u8],
    file_hash: &[u8],
    file_table: &[u8],
    work: &mut [u32],
) -> Profiled
    ensures { Located result.answer result.entry result.rule (λ a. TestPromise table.now (length «data».now) block_len (tables dir_hash.now dir_table.now file_hash.now file_table.now) work.old (beside (profile_gives a result.broken) work.new)) }
{
    kiosk::test(
        table, data, block_len, dir_hash, dir_table, file_hash, file_table, work,
    )
    .into()
}

#[unsafe(no_mangle)]
pub extern "C" fn mukthiban_kiosk_create(
    table: &mut [u8],
    data: &[u8],
    block_len: usize,
    work: &mut [u32],
    block_count: usize,
) -> Created
    ensures { Located result.answer result.entry result.rule (λ a. KioskPromise table.old (length «data».now) block_len work.old block_count (beside (create_gives a result.first_block table.new) work.new)) }
{
    kiosk_create::create(table, data, block_len, work, block_count).into()
}

#[unsafe(no_mangle)]
pub extern "C" fn mukthiban_tested_kiosk_test(
    table: &[u8],
    n: usize,
    block_len: usize,
    dir_table: &[u8],
    file_table: &[u8],
    work: &mut [u32],
) -> Profiled
    requires ready_profile { ReadyProfile n table.now block_len dir_table.now file_table.now }
    requires file_table_in_bounds { n + length file_table.now / 48 ≤ length work.old }
    requires clear { Clear 0 work.old }
    ensures { Located result.answer result.entry result.rule (λ a. TestSays n table.now block_len dir_table.now file_table.now work.old work.new (profile_gives a result.broken)) }
{
    kiosk::tested_test(table, n, block_len, dir_table, file_table, work).into()
}

#[unsafe(no_mangle)]
pub extern "C" fn mukthiban_tested_kiosk_create(
    table: &mut [u8],
    n: usize,
    block_len: usize,
    block_count: usize,
) -> Created
    requires { Volume n table.old }
    ensures { Located result.answer result.entry result.rule (λ a. KioskTested n table.old block_len block_count (create_gives a result.first_block table.new)) }
{
    kiosk_create::tested_create(table, n, block_len, block_count).into()
}
