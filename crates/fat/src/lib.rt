// The calls of the block table.
#![tactic(auto)]

pub mod tested;

ghost use Rattle.std.specs.Prelude.{length};
ghost use Rattle.std.specs.Result.{result_unwrap_or};
ghost use Rattle.order.specs.Answer.{answer_of};
ghost use Rattle.fat_promises.specs.Promise.{beside};
ghost use Rattle.fat_promises.specs.Calls.{CreatePromise, DeletePromise, create_gives, change_gives, ResizePromise, list_gives, ListPromise};
ghost use Rattle.fat_promises.specs.Calls.{carry_gives, ReadPromise, WritePromise};

use fat_copy::{read_sound, write_sound};
use fat_list::open_list_sound;
use fat_step::{create_sound, delete_sound, resize_sound};
use fat_test::{change_gate, gate};
use order::Refusal;

// Deletes the file whose first block is given: all its nodes go before the free front, in their order. Refused by ReadOnlyVolume where the block length is
// not in use, by NotAFile where the block is not the first of a chain other than the free one.
pub fn delete(
    table: &mut [u8],
    data: &[u8],
    block_len: usize,
    work: &mut [u32],
    first_block: usize,
) -> Result<(), Refusal>
    ensures { DeletePromise table.old (length «data».now) block_len work.old first_block (beside (change_gives result table.new) work.new) }
{
    change_gate(table, data.len(), block_len, work)?;
    let n = fat_node::blocks(table);
    delete_sound(table, n, first_block)
}

// Creates a file of so many blocks, the first of the free chain, and answers its first block. Refused by ReadOnlyVolume as delete, by InvalidValue for 0
// blocks, by NoSpace where fewer are free.
pub fn create(
    table: &mut [u8],
    data: &[u8],
    block_len: usize,
    work: &mut [u32],
    block_count: usize,
) -> Result<usize, Refusal>
    ensures { CreatePromise table.old (length «data».now) block_len work.old block_count (beside (create_gives (answer_of result) (result_unwrap_or result 0) table.new) work.new) }
{
    change_gate(table, data.len(), block_len, work)?;
    let n = fat_node::blocks(table);
    create_sound(table, n, block_count)
}

// Resizes the file whose first block is given to so many blocks: it grows by the first of the free chain, or its last go before the free front; to the
// same count nothing changes. Refused by ReadOnlyVolume and NotAFile as delete, by InvalidValue for 0 blocks, by NoSpace where too few are free.
pub fn resize(
    table: &mut [u8],
    data: &[u8],
    block_len: usize,
    work: &mut [u32],
    first_block: usize,
    block_count: usize,
) -> Result<(), Refusal>
    ensures { ResizePromise table.old (length «data».now) block_len work.old first_block block_count (beside (change_gives result table.new) work.new) }
{
    change_gate(table, data.len(), block_len, work)?;
    let n = fat_node::blocks(table);
    resize_sound(table, n, first_block, block_count)
}

// Lists the blocks of the file whose first block is given, in chain order, and answers how many there are; later places of the list stay. Refused by
// NotAFile as delete, by ListTooShort where the list can't hold them all.
pub fn open_list(
    table: &[u8],
    data: &[u8],
    block_len: usize,
    work: &mut [u32],
    first_block: usize,
    list: &mut [u32],
) -> Result<usize, Refusal>
    ensures { ListPromise table.now (length «data».now) block_len work.old first_block list.old (beside (list_gives (answer_of result) (result_unwrap_or result 0) list.new) work.new) }
{
    gate(table, data.len(), block_len, work)?;
    let n = fat_node::blocks(table);
    open_list_sound(table, n, first_block, list)
}

// Reads bytes of the file whose first block is given, from byte pos on, as many as the buffer has. Refused by NotAFile where the block is not the first of
// a chain other than the free one, by OutOfBound where the bytes pass the file's end; then the buffer stays as it was.
pub fn read(
    table: &[u8],
    data: &[u8],
    block_len: usize,
    work: &mut [u32],
    first_block: usize,
    pos: usize,
    buf: &mut [u8],
) -> Result<(), Refusal>
    ensures { ReadPromise table.now «data».now block_len work.old first_block pos buf.old (beside (carry_gives result buf.new) work.new) }
{
    gate(table, data.len(), block_len, work)?;
    let n = fat_node::blocks(table);
    read_sound(table, data, block_len, n, first_block, pos, buf)
}

// Writes the buffer's bytes into the file whose first block is given, from byte pos on. Refused by ReadOnlyVolume as delete, else as read is; then the data
// stay as they were.
pub fn write(
    table: &[u8],
    data: &mut [u8],
    block_len: usize,
    work: &mut [u32],
    first_block: usize,
    pos: usize,
    buf: &[u8],
) -> Result<(), Refusal>
    ensures { WritePromise table.now «data».old block_len work.old first_block pos buf.now (beside (carry_gives result «data».new) work.new) }
{
    change_gate(table, data.len(), block_len, work)?;
    let n = fat_node::blocks(table);
    write_sound(table, data, block_len, n, first_block, pos, buf)
}
