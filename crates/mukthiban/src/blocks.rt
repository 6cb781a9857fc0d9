// The calls on the block table.
ghost use Rattle.std.specs.Prelude.{length};
ghost use Rattle.fat_promises.specs.Promise.{beside};
ghost use Rattle.fat_node.specs.Format.{FormatPromise};
ghost use Rattle.fat_test.specs.Promise.{TestPromise, tested};
ghost use Rattle.fat_promises.specs.Calls.{CreatePromise, create_gives, ResizePromise, DeletePromise, change_gives, ListPromise, list_gives, ReadPromise, WritePromise, carry_gives};
ghost use Rattle.mukthiban.specs.Export.{Exported, Located};

use crate::{Answered, Created, Opened, Plain, Tested};

#[unsafe(no_mangle)]
pub extern "C" fn mukthiban_fat_format(table: &mut [u8]) -> Plain
    ensures { Exported result.answer (λ a. FormatPromise table.old a table.new) }
{
    fat_node::format(table).into()
}

#[unsafe(no_mangle)]
pub extern "C" fn mukthiban_fat_test(table: &[u8], work: &mut [u32]) -> Tested
    ensures { Located result.answer result.entry result.rule (λ a. TestPromise table.now work.old (tested a result.free result.files, work.new)) }
{
    fat_test::test(table, work).into()
}

#[unsafe(no_mangle)]
pub extern "C" fn mukthiban_fat_create(
    table: &mut [u8],
    data: &[u8],
    block_len: usize,
    work: &mut [u32],
    block_count: usize,
) -> Created
    ensures { Located result.answer result.entry result.rule (λ a. CreatePromise table.old (length «data».now) block_len work.old block_count (beside (create_gives a result.first_block table.new) work.new)) }
{
    fat::create(table, data, block_len, work, block_count).into()
}

#[unsafe(no_mangle)]
pub extern "C" fn mukthiban_fat_resize(
    table: &mut [u8],
    data: &[u8],
    block_len: usize,
    work: &mut [u32],
    first_block: usize,
    block_count: usize,
) -> Answered
    ensures { Located result.answer result.entry result.rule (λ a. ResizePromise table.old (length «data».now) block_len work.old first_block block_count (beside (change_gives a table.new) work.new)) }
{
    fat::resize(table, data, block_len, work, first_block, block_count).into()
}

#[unsafe(no_mangle)]
pub extern "C" fn mukthiban_fat_delete(
    table: &mut [u8],
    data: &[u8],
    block_len: usize,
    work: &mut [u32],
    first_block: usize,
) -> Answered
    ensures { Located result.answer result.entry result.rule (λ a. DeletePromise table.old (length «data».now) block_len work.old first_block (beside (change_gives a table.new) work.new)) }
{
    fat::delete(table, data, block_len, work, first_block).into()
}

#[unsafe(no_mangle)]
pub extern "C" fn mukthiban_fat_open_list(
    table: &[u8],
    data: &[u8],
    block_len: usize,
    work: &mut [u32],
    first_block: usize,
    list: &mut [u32],
) -> Opened
    ensures { Located result.answer result.entry result.rule (λ a. ListPromise table.now (length «data».now) block_len work.old first_block list.old (beside (list_gives a result.count list.new) work.new)) }
{
    fat::open_list(table, data, block_len, work, first_block, list).into()
}

#[unsafe(no_mangle)]
pub extern "C" fn mukthiban_fat_read(
    table: &[u8],
    data: &[u8],
    block_len: usize,
    work: &mut [u32],
    first_block: usize,
    pos: usize,
    buf: &mut [u8],
) -> Answered
    ensures { Located result.answer result.entry result.rule (λ a. ReadPromise table.now «data».now block_len work.old first_block pos buf.old (beside (carry_gives a buf.new) work.new)) }
{
    fat::read(table, data, block_len, work, first_block, pos, buf).into()
}

#[unsafe(no_mangle)]
pub extern "C" fn mukthiban_fat_write(
    table: &[u8],
    data: &mut [u8],
    block_len: usize,
    work: &mut [u32],
    first_block: usize,
    pos: usize,
    buf: &[u8],
) -> Answered
    ensures { Located result.answer result.entry result.rule (λ a. WritePromise table.now «data».old block_len work.old first_block pos buf.now (beside (carry_gives a «data».new) work.new)) }
{
    fat::write(table, data, block_len, work, first_block, pos, buf).into()
}
