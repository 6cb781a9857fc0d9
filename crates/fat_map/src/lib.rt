// The free map beside the table: built by one call, kept by create, resize and delete, and asked for the free blocks of a stretch.
#![tactic(auto)]

pub mod tested;

ghost use Rattle.std.specs.Prelude.{◌≡◌, ◌⊎◌, ◌≤◌, ◌<◌, length};
ghost use Rattle.std.specs.Result.{result_unwrap_or};
ghost use Rattle.order.specs.Answer.{answer_of};
ghost use Rattle.order.specs.Tells.{Tells};
ghost use Rattle.fat_node.specs.Sizes.{blocks};
ghost use Rattle.fat_promises.specs.Calls.{create_gives, change_gives};
ghost use Rattle.fat_walk.specs.Volume.{Volume};
ghost use Rattle.map_bits.specs.Bits.{words_in};
ghost use Rattle.order.specs.Gate.{cleared};
ghost use Rattle.fat_map.specs.Gate.{IsMap};
ghost use Rattle.fat_map.specs.Promise.{beside, mapped, BuildPromise};
ghost use Rattle.fat_map.specs.Calls.{MapCreatePromise, MapResizePromise, MapDeletePromise};
ghost use Rattle.fat_map.specs.Count.{count_gives, CountPromise};
ghost use Rattle.fat_map.specs.Inner.Gated.{BuildGateOf, ChangeGateOf};

use fat_test::Counts;
use order::{Fault, Refusal};

// The words that a map of n blocks has.
pub fn words_in(n: usize) -> usize
    requires { n ≤ 2305843009213693952 }
    ensures { result ≡ words_in n }
{
    (n + 31) / 32
}

// The gate of a call with a map of so many words: sizes, work list and map, soundness. Asked with no place of a work list, the table's gate tells the sizes
// alone.
fn gate(
    table: &[u8],
    data_len: usize,
    block_len: usize,
    work: &mut [u32],
    map: &[u32],
) -> Result<Counts, Refusal>
    ensures { BuildGateOf table.now data_len block_len work.old map.now work.new result }
{
    let n = fat_node::blocks(table);
    let words = words_in(n);
    if map.len() < words {
        return fat_test::gate(table, data_len, block_len, &mut work[..0]);
    }
    fat_test::gate(table, data_len, block_len, work)
}

// Whether the map is that of a sound table; the work list, which is cleared, is so again afterwards.
fn is_map(table: &[u8], n: usize, work: &mut [u32], map: &[u32]) -> bool
    requires volume { Volume n table.now }
    requires n_value { n ≡ blocks table.now }
    requires n_in_bounds { (n ≤ length work.old) × (work.old ≡ cleared n work.old) }
    requires n_in_bounds_2 { words_in n ≤ length map.now }
    ensures { Tells (IsMap table.now map.now) result × (work.new ≡ work.old) }
{
    let words = words_in(n);
    map_inner::is_map(table, n, &mut work[..words], &map[..words])
}

// The gate of a call with a map that changes the table: after soundness the map, then the block length.
fn change_gate(
    table: &[u8],
    data_len: usize,
    block_len: usize,
    work: &mut [u32],
    map: &[u32],
) -> Result<(), Refusal>
    ensures { ChangeGateOf table.now data_len block_len work.old map.now work.new result }
{
    gate(table, data_len, block_len, work, map)?;
    let n = fat_node::blocks(table);
    if !is_map(table, n, work, map) {
        return Err(Refusal::BrokenFat(Fault { entry: 0, rule: 0 }));
    }
    if !fat_test::in_use(block_len) {
        return Err(Refusal::ReadOnlyVolume);
    }
    Ok(())
}

// Builds the map of a sound table: a bit a block, the lowest block in the lowest bit, set where the block is free; unused bits are 0, and words past n's
// are not touched. Answers its number alone; WorkTooShort also where the map has under n bits.
pub fn build(
    table: &[u8],
    data: &[u8],
    block_len: usize,
    work: &mut [u32],
    map: &mut [u32],
) -> Result<(), Refusal>
    ensures { BuildPromise table.now (length «data».now) block_len work.old map.old (beside (mapped result map.new) work.new) }
{
    gate(table, data.len(), block_len, work, map)?;
    let n = fat_node::blocks(table);
    let words = words_in(n);
    map_inner::build_sound(table, n, &mut map[..words]);
    Ok(())
}

// Creates a file as `fat::create` does, and keeps the map: it loses the file's blocks. A map that is not the table's is BrokenFat, with no place named,
// after the table's own; a refusal leaves the map.
pub fn create(
    table: &mut [u8],
    data: &[u8],
    block_len: usize,
    work: &mut [u32],
    map: &mut [u32],
    block_count: usize,
) -> Result<usize, Refusal>
    ensures { MapCreatePromise table.old (length «data».now) block_len work.old map.old block_count (beside (mapped (create_gives (answer_of result) (result_unwrap_or result 0) table.new) map.new) work.new) }
{
    change_gate(table, data.len(), block_len, work, map)?;
    let n = fat_node::blocks(table);
    let words = words_in(n);
    map_inner::create_mapped(table, n, &mut map[..words], block_count)
}

// Resizes a file as `fat::resize` does, and keeps the map: it loses or gets the blocks between. Refused as create is.
pub fn resize(
    table: &mut [u8],
    data: &[u8],
    block_len: usize,
    work: &mut [u32],
    map: &mut [u32],
    first_block: usize,
    block_count: usize,
) -> Result<(), Refusal>
    ensures { MapResizePromise table.old (length «data».now) block_len work.old map.old first_block block_count (beside (mapped (change_gives result table.new) map.new) work.new) }
{
    change_gate(table, data.len(), block_len, work, map)?;
    let n = fat_node::blocks(table);
    let words = words_in(n);
    map_inner::resize_mapped(table, n, &mut map[..words], first_block, block_count)
}

// Deletes a file as `fat::delete` does, and keeps the map: it gets the file's blocks. Refused as create is.
pub fn delete(
    table: &mut [u8],
    data: &[u8],
    block_len: usize,
    work: &mut [u32],
    map: &mut [u32],
    first_block: usize,
) -> Result<(), Refusal>
    ensures { MapDeletePromise table.old (length «data».now) block_len work.old map.old first_block (beside (mapped (change_gives result table.new) map.new) work.new) }
{
    change_gate(table, data.len(), block_len, work, map)?;
    let n = fat_node::blocks(table);
    let words = words_in(n);
    map_inner::delete_mapped(table, n, &mut map[..words], first_block)
}

// Whether n is not from 1 to 1,000,000.
fn unfit(n: usize) -> bool
    ensures { Tells ((n < 1) ⊎ (1000000 < n)) result }
{
    n < 1 || 1000000 < n
}

// Counts the set bits of a map of n blocks, from block a up to and without block b. It answers for the map that is given, and reads the words of the stretch
// alone. InvalidValue where n is out of its bounds, WorkTooShort where the map has under n bits, then InvalidValue where a is over b or b over n.
pub fn count(map: &[u32], n: usize, a: usize, b: usize) -> Result<usize, Refusal>
    ensures { CountPromise map.now n a b (count_gives (answer_of result) (result_unwrap_or result 0)) }
{
    if unfit(n) {
        return Err(Refusal::InvalidValue);
    }
    let words = words_in(n);
    if map.len() < words {
        return Err(Refusal::WorkTooShort);
    }
    if b < a || n < b {
        return Err(Refusal::InvalidValue);
    }
    Ok(map_bits::count(map, a, b))
}
