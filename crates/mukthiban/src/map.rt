// The free map beside the table: the calls, and the inner calls for a side that has tested its table and built its map once and keeps both.
ghost use Rattle.std.specs.Prelude.{◌≡◌, length};
ghost use Rattle.fat_promises.specs.Calls.{create_gives, change_gives};
ghost use Rattle.fat_walk.specs.Volume.{Volume};
ghost use Rattle.map_bits.specs.Bits.{words_in};
ghost use Rattle.map_inner.specs.Map.{map_of};
ghost use Rattle.fat_map.specs.Promise.{beside, mapped, BuildPromise};
ghost use Rattle.fat_map.specs.Calls.{MapCreatePromise, MapResizePromise, MapDeletePromise};
ghost use Rattle.fat_map.specs.Count.{count_gives, CountPromise};
ghost use Rattle.fat_map.specs.Inner.Gated.{TestedCreate, TestedResize, TestedDelete};
ghost use Rattle.mukthiban.specs.Export.{Exported, Located};

use crate::{Answered, Counted, Created};

#[unsafe(no_mangle)]
pub extern "C" fn mukthiban_map_build(
    table: &[u8],
    data: &[u8],
    block_len: usize,
    work: &mut [u32],
    map: &mut [u32],
) -> Answered
    ensures { Located result.answer result.entry result.rule (λ a. BuildPromise table.now (length «data».now) block_len work.old map.old (beside (mapped a map.new) work.new)) }
{
    fat_map::build(table, data, block_len, work, map).into()
}

#[unsafe(no_mangle)]
pub extern "C" fn mukthiban_map_create(
    table: &mut [u8],
    data: &[u8],
    block_len: usize,
    work: &mut [u32],
    map: &mut [u32],
    block_count: usize,
) -> Created
    ensures { Located result.answer result.entry result.rule (λ a. MapCreatePromise table.old (length «data».now) block_len work.old map.old block_count (beside (mapped (create_gives a result.first_block table.new) map.new) work.new)) }
{
    fat_map::create(table, data, block_len, work, map, block_count).into()
}

#[unsafe(no_mangle)]
pub extern "C" fn mukthiban_map_resize(
    table: &mut [u8],
    data: &[u8],
    block_len: usize,
    work: &mut [u32],
    map: &mut [u32],
    first_block: usize,
    block_count: usize,
) -> Answered
    ensures { Located result.answer result.entry result.rule (λ a. MapResizePromise table.old (length «data».now) block_len work.old map.old first_block block_count (beside (mapped (change_gives a table.new) map.new) work.new)) }
{
    fat_map::resize(table, data, block_len, work, map, first_block, block_count).into()
}

#[unsafe(no_mangle)]
pub extern "C" fn mukthiban_map_delete(
    table: &mut [u8],
    data: &[u8],
    block_len: usize,
    work: &mut [u32],
    map: &mut [u32],
    first_block: usize,
) -> Answered
    ensures { Located result.answer result.entry result.rule (λ a. MapDeletePromise table.old (length «data».now) block_len work.old map.old first_block (beside (mapped (change_gives a table.new) map.new) work.new)) }
{
    fat_map::delete(table, data, block_len, work, map, first_block).into()
}

#[unsafe(no_mangle)]
pub extern "C" fn mukthiban_map_count(map: &[u32], n: usize, a: usize, b: usize) -> Counted
    ensures { Exported result.answer (λ x. CountPromise map.now n a b (count_gives x result.free)) }
{
    fat_map::count(map, n, a, b).into()
}

#[unsafe(no_mangle)]
pub extern "C" fn mukthiban_tested_map_build(table: &[u8], n: usize, map: &mut [u32]) -> Answered
    requires volume { Volume n table.now }
    requires map_len { length map.old ≡ words_in n }
    ensures { (result.answer ≡ 0) × (result.entry ≡ 0) × (result.rule ≡ 0) × (map.new ≡ map_of n table.now) }
{
    map_inner::build_sound(table, n, map);
    Ok(()).into()
}

#[unsafe(no_mangle)]
pub extern "C" fn mukthiban_tested_map_create(
    table: &mut [u8],
    n: usize,
    block_len: usize,
    map: &mut [u32],
    block_count: usize,
) -> Created
    requires volume { Volume n table.old }
    requires map_value { map.old ≡ map_of n table.old }
    ensures { Located result.answer result.entry result.rule (λ a. TestedCreate n table.old block_len block_count (create_gives a result.first_block table.new) map.new) }
{
    fat_map::tested::tested_create(table, n, block_len, map, block_count).into()
}

#[unsafe(no_mangle)]
pub extern "C" fn mukthiban_tested_map_resize(
    table: &mut [u8],
    n: usize,
    block_len: usize,
    map: &mut [u32],
    first_block: usize,
    block_count: usize,
) -> Answered
    requires volume { Volume n table.old }
    requires map_value { map.old ≡ map_of n table.old }
    ensures { Located result.answer result.entry result.rule (λ a. TestedResize n table.old block_len first_block block_count (change_gives a table.new) map.new) }
{
    fat_map::tested::tested_resize(table, n, block_len, map, first_block, block_count).into()
}

#[unsafe(no_mangle)]
pub extern "C" fn mukthiban_tested_map_delete(
    table: &mut [u8],
    n: usize,
    block_len: usize,
    map: &mut [u32],
    first_block: usize,
) -> Answered
    requires volume { Volume n table.old }
    requires map_value { map.old ≡ map_of n table.old }
    ensures { Located result.answer result.entry result.rule (λ a. TestedDelete n table.old block_len first_block (change_gives a table.new) map.new) }
{
    fat_map::tested::tested_delete(table, n, block_len, map, first_block).into()
}
