// The calls that change something, for a side that has tested its table once and keeps it sound. Each requires what the test tells and tests nothing but the
// block length: ReadOnlyVolume where it is not in use, before the call's own refusals.
ghost use Rattle.std.specs.Prelude.{length};
ghost use Rattle.std.specs.Result.{result_unwrap_or};
ghost use Rattle.order.specs.Answer.{answer_of};
ghost use Rattle.order.specs.First.{First};
ghost use Rattle.fat_walk.specs.Volume.{Volume, Data};
ghost use Rattle.fat_promises.specs.Promise.{change_rows};
ghost use Rattle.fat_promises.specs.Calls.{create_rows, create_done, create_gives, resize_rows, resize_done, delete_rows, delete_done, change_gives, carry_rows, write_done, carry_gives};

use fat_copy::write_sound;
use fat_step::{create_sound, delete_sound, resize_sound};
use order::Refusal;

// Creates a file of so many blocks.
pub fn tested_create(
    table: &mut [u8],
    n: usize,
    block_len: usize,
    block_count: usize,
) -> Result<usize, Refusal>
    requires { Volume n table.old }
    ensures { First (change_rows (λ a. create_gives a 0 table.old) block_len (create_rows n table.old block_count)) (create_done n table.old block_count) (create_gives (answer_of result) (result_unwrap_or result 0) table.new) }
{
    if !fat_test::in_use(block_len) {
        return Err(Refusal::ReadOnlyVolume);
    }
    create_sound(table, n, block_count)
}

// Resizes the file at a block to so many blocks.
pub fn tested_resize(
    table: &mut [u8],
    n: usize,
    block_len: usize,
    first_block: usize,
    block_count: usize,
) -> Result<(), Refusal>
    requires { Volume n table.old }
    ensures { First (change_rows (λ a. change_gives a table.old) block_len (resize_rows n table.old first_block block_count)) (resize_done n table.old first_block block_count) (change_gives result table.new) }
{
    if !fat_test::in_use(block_len) {
        return Err(Refusal::ReadOnlyVolume);
    }
    resize_sound(table, n, first_block, block_count)
}

// Deletes the file at a block.
pub fn tested_delete(
    table: &mut [u8],
    n: usize,
    block_len: usize,
    first_block: usize,
) -> Result<(), Refusal>
    requires { Volume n table.old }
    ensures { First (change_rows (λ a. change_gives a table.old) block_len (delete_rows n table.old first_block)) (delete_done n table.old first_block) (change_gives result table.new) }
{
    if !fat_test::in_use(block_len) {
        return Err(Refusal::ReadOnlyVolume);
    }
    delete_sound(table, n, first_block)
}

// Writes the buffer's bytes into the file at a block, from byte pos on.
pub fn tested_write(
    table: &[u8],
    n: usize,
    data: &mut [u8],
    block_len: usize,
    first_block: usize,
    pos: usize,
    buf: &[u8],
) -> Result<(), Refusal>
    requires volume { Volume n table.now }
    requires fact { Data n (length «data».old) block_len }
    ensures { First (change_rows (λ a. carry_gives a «data».old) block_len (carry_rows n table.now block_len first_block pos (length buf.now) «data».old)) (write_done n table.now «data».old block_len first_block pos buf.now) (carry_gives result «data».new) }
{
    if !fat_test::in_use(block_len) {
        return Err(Refusal::ReadOnlyVolume);
    }
    write_sound(table, data, block_len, n, first_block, pos, buf)
}
