// The inner calls on the block table, for a side that has tested its table once and keeps it sound. Each requires what the test tells, and
// tests nothing but, where it changes something, that the block length is in use.
ghost use Rattle.std.specs.Prelude.{length};
ghost use Rattle.order.specs.First.{First};
ghost use Rattle.fat_walk.specs.Volume.{Volume, Data};
ghost use Rattle.fat_promises.specs.Promise.{change_rows};
ghost use Rattle.fat_promises.specs.Calls.{create_rows, create_done, create_gives, resize_rows, resize_done, delete_rows, delete_done, change_gives, list_rows, list_done, list_gives, carry_rows, read_done, write_done, carry_gives};
ghost use Rattle.mukthiban.specs.Export.{Located};

use crate::{Answered, Created, Opened};

#[unsafe(no_mangle)]
pub extern "C" fn mukthiban_tested_fat_create(
    table: &mut [u8],
    n: usize,
    block_len: usize,
    block_count: usize,
) -> Created
    requires { Volume n table.old }
    ensures { Located result.answer result.entry result.rule (λ a. First (change_rows (λ a. create_gives a 0 table.old) block_len (create_rows n table.old block_count)) (create_done n table.old block_count) (create_gives a result.first_block table.new)) }
{
    fat::tested::tested_create(table, n, block_len, block_count).into()
}

#[unsafe(no_mangle)]
pub extern "C" fn mukthiban_tested_fat_resize(
    table: &mut [u8],
    n: usize,
    block_len: usize,
    first_block: usize,
    block_count: usize,
) -> Answered
    requires { Volume n table.old }
    ensures { Located result.answer result.entry result.rule (λ a. First (change_rows (λ a. change_gives a table.old) block_len (resize_rows n table.old first_block block_count)) (resize_done n table.old first_block block_count) (change_gives a table.new)) }
{
    fat::tested::tested_resize(table, n, block_len, first_block, block_count).into()
}

#[unsafe(no_mangle)]
pub extern "C" fn mukthiban_tested_fat_delete(
    table: &mut [u8],
    n: usize,
    block_len: usize,
    first_block: usize,
) -> Answered
    requires { Volume n table.old }
    ensures { Located result.answer result.entry result.rule (λ a. First (change_rows (λ a. change_gives a table.old) block_len (delete_rows n table.old first_block)) (delete_done n table.old first_block) (change_gives a table.new)) }
{
    fat::tested::tested_delete(table, n, block_len, first_block).into()
}

#[unsafe(no_mangle)]
pub extern "C" fn mukthiban_tested_fat_open_list(
    table: &[u8],
    n: usize,
    first_block: usize,
    list: &mut [u32],
) -> Opened
    requires { Volume n table.now }
    ensures { Located result.answer result.entry result.rule (λ a. First (list_rows n table.now first_block list.old) (list_done n table.now first_block list.old) (list_gives a result.count list.new)) }
{
    fat_list::open_list_sound(table, n, first_block, list).into()
}

#[unsafe(no_mangle)]
pub extern "C" fn mukthiban_tested_fat_read(
    table: &[u8],
    n: usize,
    data: &[u8],
    block_len: usize,
    first_block: usize,
    pos: usize,
    buf: &mut [u8],
) -> Answered
    requires volume { Volume n table.now }
    requires fact { Data n (length «data».now) block_len }
    ensures { Located result.answer result.entry result.rule (λ a. First (carry_rows n table.now block_len first_block pos (length buf.old) buf.old) (read_done n table.now «data».now block_len first_block pos buf.old) (carry_gives a buf.new)) }
{
    fat_copy::read_sound(table, data, block_len, n, first_block, pos, buf).into()
}

#[unsafe(no_mangle)]
pub extern "C" fn mukthiban_tested_fat_write(
    table: &[u8],
    n: usize,
    data: &mut [u8],
    block_len: usize,
    first_block: usize,
    pos: usize,
    buf: &[u8],
) -> Answered
    requires volume { Volume n table.now }
    requires fact { Data n (length «data».old) block_len }
    ensures { Located result.answer result.entry result.rule (λ a. First (change_rows (λ a. carry_gives a «data».old) block_len (carry_rows n table.now block_len first_block pos (length buf.now) «data».old)) (write_done n table.now «data».old block_len first_block pos buf.now) (carry_gives a «data».new)) }
{
    fat::tested::tested_write(table, n, data, block_len, first_block, pos, buf).into()
}
