// The map of files' first blocks beside the table, for a side that has tested its table and built its maps once. Each call requires that both maps are the
// table's, and leaves those of the table that it leaves; whether a block begins a file is one bit, and no call goes over other files' nodes.
#![tactic(auto)]

ghost use Rattle.std.specs.Prelude.{◌≡◌, true, ◌+◌, ◌≤◌, ◌<◌, length, replicate};
ghost use Rattle.std.specs.Result.{result_unwrap_or};
ghost use Rattle.order.specs.Answer.{answer_of};
ghost use Rattle.order.specs.First.{First};
ghost use Rattle.map_bits.specs.Bits.{words_from, words_in};
ghost use Rattle.fat_table.specs.Sound.{IsNode, File};
ghost use Rattle.fat_table.specs.Chain.{head_at};
ghost use Rattle.fat_promises.specs.Promise.{change_rows};
ghost use Rattle.fat_promises.specs.Calls.{create_gives, change_gives, list_gives, ListSound, carry_gives, ReadSound, carry_rows, write_done};
ghost use Rattle.fat_walk.specs.Volume.{Volume, Data};
ghost use Rattle.map_inner.specs.Map.{map_of};
ghost use Rattle.fat_first.specs.Firsts.{firsts_of};
ghost use Rattle.fat_first.specs.Calls.{CreateFirst, ResizeFirst, DeleteFirst};
ghost use Rattle.fat_first.specs.Inner.Below.{firsts_below};

use fat_copy::{read_told, write_told};
use fat_list::open_list_told;
use fat_walk::{head_of, size_at};
use order::Refusal;

// Puts block b in, where the node there begins a file, into a map of the first blocks below it.
fn mark_first(table: &[u8], n: usize, head: usize, b: usize, firsts: &mut [u32])
    requires volume { Volume n table.now }
    requires node { IsNode table.now n b }
    requires head_value { head ≡ head_at table.now }
    requires firsts_value { firsts.old ≡ words_from (words_in n) 0 (firsts_below n table.now b) }
    ensures { firsts.new ≡ words_from (words_in n) 0 (firsts_below n table.now (b + 1)) }
{
    if fat_node::prev_of(table, b) == 0 && head != b + 1 {
        map_bits::turn_one(firsts, b, true);
    }
}

// Puts all first blocks into a map of no block, hopping by node.
fn mark_firsts(table: &[u8], n: usize, firsts: &mut [u32])
    requires volume { Volume n table.now }
    requires firsts_value { firsts.old ≡ replicate (words_in n) 0 }
    ensures { firsts.new ≡ firsts_of n table.now }
{
    let head = head_of(table);
    let mut b: usize = 0;
    while b < n {
        mark_first(table, n, head, b, firsts);
        b += size_at(table, n, b);
    }
}

// Builds the map of the table's first blocks, whatever stands in it before.
pub fn build(table: &[u8], n: usize, firsts: &mut [u32])
    requires volume { Volume n table.now }
    requires firsts_len { length firsts.old ≡ words_in n }
    ensures { firsts.new ≡ firsts_of n table.now }
{
    order::clear(firsts);
    mark_firsts(table, n, firsts);
}

// Whether block b begins a file: its bit. No entry of the table is looked at.
fn is_first(table: &[u8], n: usize, firsts: &[u32], b: usize) -> bool
    requires volume { Volume n table.now }
    requires firsts_value { firsts.now ≡ firsts_of n table.now }
    ensures { (result ≡ true → File table.now n b) × (File table.now n b → result ≡ true) }
{
    b < n && map_bits::has(firsts, b)
}

// Creates a file of so many blocks: the free map loses them, and the map of first blocks gets the file's.
pub fn create(
    table: &mut [u8],
    n: usize,
    block_len: usize,
    map: &mut [u32],
    firsts: &mut [u32],
    block_count: usize,
) -> Result<usize, Refusal>
    requires volume { Volume n table.old }
    requires map_value { map.old ≡ map_of n table.old }
    requires firsts_value { firsts.old ≡ firsts_of n table.old }
    ensures { CreateFirst n table.old block_len block_count (create_gives (answer_of result) (result_unwrap_or result 0) table.new) map.new firsts.new }
{
    if !fat_test::in_use(block_len) {
        return Err(Refusal::ReadOnlyVolume);
    }
    let first = map_inner::create_mapped(table, n, map, block_count)?;
    map_bits::turn_one(firsts, first, true);
    Ok(first)
}

// Resizes the file at a block to so many blocks: its first block stays, and so does the map of first blocks.
pub fn resize(
    table: &mut [u8],
    n: usize,
    block_len: usize,
    map: &mut [u32],
    firsts: &[u32],
    first_block: usize,
    block_count: usize,
) -> Result<(), Refusal>
    requires volume { Volume n table.old }
    requires map_value { map.old ≡ map_of n table.old }
    requires firsts_value { firsts.now ≡ firsts_of n table.old }
    ensures { ResizeFirst n table.old block_len first_block block_count (change_gives result table.new) map.new firsts.now }
{
    if !fat_test::in_use(block_len) {
        return Err(Refusal::ReadOnlyVolume);
    }
    let begins = is_first(table, n, firsts, first_block);
    map_inner::resize_told(table, n, map, first_block, block_count, begins)
}

// Deletes the file at a block: the free map gets its blocks, and the map of first blocks loses its first.
pub fn delete(
    table: &mut [u8],
    n: usize,
    block_len: usize,
    map: &mut [u32],
    firsts: &mut [u32],
    first_block: usize,
) -> Result<(), Refusal>
    requires volume { Volume n table.old }
    requires map_value { map.old ≡ map_of n table.old }
    requires firsts_value { firsts.old ≡ firsts_of n table.old }
    ensures { DeleteFirst n table.old block_len first_block (change_gives result table.new) map.new firsts.new }
{
    if !fat_test::in_use(block_len) {
        return Err(Refusal::ReadOnlyVolume);
    }
    let begins = is_first(table, n, firsts, first_block);
    map_inner::delete_told(table, n, map, first_block, begins)?;
    map_bits::turn_one(firsts, first_block, false);
    Ok(())
}

// Lists the blocks of the file at a block, in chain order.
pub fn open_list(
    table: &[u8],
    n: usize,
    firsts: &[u32],
    first_block: usize,
    list: &mut [u32],
) -> Result<usize, Refusal>
    requires volume { Volume n table.now }
    requires firsts_value { firsts.now ≡ firsts_of n table.now }
    ensures { ListSound n table.now first_block list.old (list_gives (answer_of result) (result_unwrap_or result 0) list.new) }
{
    let begins = is_first(table, n, firsts, first_block);
    open_list_told(table, n, first_block, begins, list)
}

// Reads bytes of the file at a block.
pub fn read(
    table: &[u8],
    n: usize,
    firsts: &[u32],
    data: &[u8],
    block_len: usize,
    first_block: usize,
    pos: usize,
    buf: &mut [u8],
) -> Result<(), Refusal>
    requires volume { Volume n table.now }
    requires firsts_value { firsts.now ≡ firsts_of n table.now }
    requires fact { Data n (length «data».now) block_len }
    ensures { ReadSound n table.now «data».now block_len first_block pos buf.old (carry_gives result buf.new) }
{
    let begins = is_first(table, n, firsts, first_block);
    read_told(table, data, block_len, n, first_block, begins, pos, buf)
}

// Writes bytes of the file at a block.
pub fn write(
    table: &[u8],
    n: usize,
    firsts: &[u32],
    data: &mut [u8],
    block_len: usize,
    first_block: usize,
    pos: usize,
    buf: &[u8],
) -> Result<(), Refusal>
    requires volume { Volume n table.now }
    requires firsts_value { firsts.now ≡ firsts_of n table.now }
    requires fact { Data n (length «data».old) block_len }
    ensures { First (change_rows (λ a. carry_gives a «data».old) block_len (carry_rows n table.now block_len first_block pos (length buf.now) «data».old)) (write_done n table.now «data».old block_len first_block pos buf.now) (carry_gives result «data».new) }
{
    if !fat_test::in_use(block_len) {
        return Err(Refusal::ReadOnlyVolume);
    }
    let begins = is_first(table, n, firsts, first_block);
    write_told(table, data, block_len, n, first_block, begins, pos, buf)
}
