// The calls that keep a map, for a side that has tested its table and built the map once. Each requires what these tell and tests nothing but the block
// length: ReadOnlyVolume where it is not in use, before the call's own refusals. Only the words of the blocks that move are written.
ghost use Rattle.std.specs.Prelude.{◌≡◌};
ghost use Rattle.std.specs.Result.{result_unwrap_or};
ghost use Rattle.order.specs.Answer.{answer_of};
ghost use Rattle.fat_walk.specs.Volume.{Volume};
ghost use Rattle.fat_promises.specs.Calls.{create_gives, change_gives};
ghost use Rattle.map_inner.specs.Map.{map_of};
ghost use Rattle.fat_map.specs.Inner.Gated.{TestedCreate, TestedResize, TestedDelete};

use order::Refusal;

// Creates a file of so many blocks.
pub fn tested_create(
    table: &mut [u8],
    n: usize,
    block_len: usize,
    map: &mut [u32],
    block_count: usize,
) -> Result<usize, Refusal>
    requires volume { Volume n table.old }
    requires map_value { map.old ≡ map_of n table.old }
    ensures { TestedCreate n table.old block_len block_count (create_gives (answer_of result) (result_unwrap_or result 0) table.new) map.new }
{
    if !fat_test::in_use(block_len) {
        return Err(Refusal::ReadOnlyVolume);
    }
    map_inner::create_mapped(table, n, map, block_count)
}

// Resizes the file at a block to so many blocks.
pub fn tested_resize(
    table: &mut [u8],
    n: usize,
    block_len: usize,
    map: &mut [u32],
    first_block: usize,
    block_count: usize,
) -> Result<(), Refusal>
    requires volume { Volume n table.old }
    requires map_value { map.old ≡ map_of n table.old }
    ensures { TestedResize n table.old block_len first_block block_count (change_gives result table.new) map.new }
{
    if !fat_test::in_use(block_len) {
        return Err(Refusal::ReadOnlyVolume);
    }
    map_inner::resize_mapped(table, n, map, first_block, block_count)
}

// Deletes the file at a block.
pub fn tested_delete(
    table: &mut [u8],
    n: usize,
    block_len: usize,
    map: &mut [u32],
    first_block: usize,
) -> Result<(), Refusal>
    requires volume { Volume n table.old }
    requires map_value { map.old ≡ map_of n table.old }
    ensures { TestedDelete n table.old block_len first_block (change_gives result table.new) map.new }
{
    if !fat_test::in_use(block_len) {
        return Err(Refusal::ReadOnlyVolume);
    }
    map_inner::delete_mapped(table, n, map, first_block)
}
