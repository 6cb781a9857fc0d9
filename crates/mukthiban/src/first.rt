// The inner calls beside the free map and the map of files' first blocks, for a side that has tested its table and built both once and keeps all three. Each
// requires what these tell, and tests nothing but, where it changes something, that the block length is in use.
ghost use Rattle.std.specs.Prelude.{◌≡◌, length};
ghost use Rattle.order.specs.First.{First};
ghost use Rattle.fat_promises.specs.Promise.{change_rows};
ghost use Rattle.fat_promises.specs.Calls.{create_gives, change_gives, list_rows, list_done, list_gives, carry_rows, read_done, write_done, carry_gives};
ghost use Rattle.fat_walk.specs.Volume.{Volume, Data};
ghost use Rattle.map_bits.specs.Bits.{words_in};
ghost use Rattle.map_inner.specs.Map.{map_of};
ghost use Rattle.fat_first.specs.Firsts.{firsts_of};
ghost use Rattle.fat_first.specs.Calls.{CreateFirst, ResizeFirst, DeleteFirst};
ghost use Rattle.mukthiban.specs.Export.{Located};

use crate::{Answered, Created, Opened};

#[unsafe(no_mangle)]
pub extern "C" fn mukthiban_tested_first_build(
    table: &[u8],
    n: usize,
    firsts: &mut [u32],
) -> Answered
    requires volume { Volume n table.now }
    requires firsts_len { length firsts.old ≡ words_in n }
    ensures { (result.answer ≡ 0) × (result.entry ≡ 0) × (result.rule ≡ 0) × (firsts.new ≡ firsts_of n table.now) }
{
    fat_first::build(table, n, firsts);
    Ok(()).into()
}

#[unsafe(no_mangle)]
pub extern "C" fn mukthiban_tested_first_create(
    table: &mut [u8],
    n: usize,
    block_len: usize,
    map: &mut [u32],
    firsts: &mut [u32],
    block_count: usize,
) -> Created
    requires volume { Volume n table.old }
    requires map_value { map.old ≡ map_of n table.old }
    requires firsts_value { firsts.old ≡ firsts_of n table.old }
    ensures { Located result.answer result.entry result.rule (λ a. CreateFirst n table.old block_len block_count (create_gives a result.first_block table.new) map.new firsts.new) }
{
    fat_first::create(table, n, block_len, map, firsts, block_count).into()
}

#[unsafe(no_mangle)]
pub extern "C" fn mukthiban_tested_first_resize(
    table: &mut [u8],
    n: usize,
    block_len: usize,
    map: &mut [u32],
    firsts: &[u32],
    first_block: usize,
    block_count: usize,
) -> Answered
    requires volume { Volume n table.old }
    requires map_value { map.old ≡ map_of n table.old }
    requires firsts_value { firsts.now ≡ firsts_of n table.old }
    ensures { Located result.answer result.entry result.rule (λ a. ResizeFirst n table.old block_len first_block block_count (change_gives a table.new) map.new firsts.now) }
{
    fat_first::resize(table, n, block_len, map, firsts, first_block, block_count).into()
}

#[unsafe(no_mangle)]
pub extern "C" fn mukthiban_tested_first_delete(
    table: &mut [u8],
    n: usize,
    block_len: usize,
    map: &mut [u32],
    firsts: &mut [u32],
    first_block: usize,
) -> Answered
    requires volume { Volume n table.old }
    requires map_value { map.old ≡ map_of n table.old }
    requires firsts_value { firsts.old ≡ firsts_of n table.old }
    ensures { Located result.answer result.entry result.rule (λ a. DeleteFirst n table.old block_len first_block (change_gives a table.new) map.new firsts.new) }
{
    fat_first::delete(table, n, block_len, map, firsts, first_block).into()
}

#[unsafe(no_mangle)]
pub extern "C" fn mukthiban_tested_first_open_list(
    table: &[u8],
    n: usize,
    firsts: &[u32],
    first_block: usize,
    list: &mut [u32],
) -> Opened
    requires volume { Volume n table.now }
    requires firsts_value { firsts.now ≡ firsts_of n table.now }
    ensures { Located result.answer result.entry result.rule (λ a. First (list_rows n table.now first_block list.old) (list_done n table.now first_block list.old) (list_gives a result.count list.new)) }
{
    fat_first::open_list(table, n, firsts, first_block, list).into()
}

#[unsafe(no_mangle)]
pub extern "C" fn mukthiban_tested_first_read(
    table: &[u8],
    n: usize,
    firsts: &[u32],
    data: &[u8],
    block_len: usize,
    first_block: usize,
    pos: usize,
    buf: &mut [u8],
) -> Answered
    requires volume { Volume n table.now }
    requires firsts_value { firsts.now ≡ firsts_of n table.now }
    requires fact { Data n (length «data».now) block_len }
    ensures { Located result.answer result.entry result.rule (λ a. First (carry_rows n table.now block_len first_block pos (length buf.old) buf.old) (read_done n table.now «data».now block_len first_block pos buf.old) (carry_gives a buf.new)) }
{
    fat_first::read(table, n, firsts, data, block_len, first_block, pos, buf).into()
}

#[unsafe(no_mangle)]
pub extern "C" fn mukthiban_tested_first_write(
    table: &[u8],
    n: usize,
    firsts: &[u32],
    data: &mut [u8],
    block_len: usize,
    first_block: usize,
    pos: usize,
    buf: &[u8],
) -> Answered
    requires volume { Volume n table.now }
    requires firsts_value { firsts.now ≡ firsts_of n table.now }
    requires fact { Data n (length «data».old) block_len }
    ensures { Located result.answer result.entry result.rule (λ a. First (change_rows (λ a. carry_gives a «data».old) block_len (carry_rows n table.now block_len first_block pos (length buf.now) «data».old)) (write_done n table.now «data».old block_len first_block pos buf.now) (carry_gives a «data».new)) }
{
    fat_first::write(table, n, firsts, data, block_len, first_block, pos, buf).into()
}
