// The kiosk's create: a file in one node, cut from the first free node along the chain that is long enough.
#![tactic(auto)]

ghost use Rattle.std.specs.Prelude.{◌≡◌, length};
ghost use Rattle.std.specs.Result.{result_unwrap_or};
ghost use Rattle.order.specs.Answer.{answer_of};
ghost use Rattle.fat_table.specs.Chain.{free_at};
ghost use Rattle.fat_carve.specs.Carve.{fit};
ghost use Rattle.fat_promises.specs.Promise.{beside};
ghost use Rattle.fat_promises.specs.Calls.{create_gives};
ghost use Rattle.fat_walk.specs.Volume.{Volume};
ghost use Rattle.kiosk_create.specs.Create.{KioskSound, KioskTested, KioskPromise};

use fat_place::place_step;
use fat_walk::{head_of, size_at};
use order::Refusal;

// The index of the first node along the free chain that has so many blocks, 0 where none has.
fn find_fit(table: &[u8], n: usize, block_count: usize) -> usize
    requires { Volume n table.now }
    ensures { result ≡ fit block_count (free_at n table.now) }
{
    let mut i = head_of(table);
    while i != 0 {
        let b = i - 1;
        if block_count <= size_at(table, n, b) {
            return i;
        }
        i = fat_node::next_of(table, b);
    }
    0
}

// Creates a file of so many blocks in one node, on a sound table: InvalidValue, NoSpace.
pub fn create_sound(table: &mut [u8], n: usize, block_count: usize) -> Result<usize, Refusal>
    requires { Volume n table.old }
    ensures { KioskSound n table.old block_count (create_gives (answer_of result) (result_unwrap_or result 0) table.new) }
{
    if block_count == 0 {
        return Err(Refusal::InvalidValue);
    }
    let index = find_fit(table, n, block_count);
    if index == 0 {
        return Err(Refusal::NoSpace);
    }
    let first = index - 1;
    place_step(table, n, first, block_count);
    Ok(first)
}

// Creates a file of so many blocks in one node: the left part of the first node along the free chain that has so many; what is left of that node stands in
// its place. Answers its number and the file's first block; ReadOnlyVolume where the block length is not in use, InvalidValue for 0 blocks, NoSpace where
// no free node has so many; then the table stays as it was.
pub fn create(
    table: &mut [u8],
    data: &[u8],
    block_len: usize,
    work: &mut [u32],
    block_count: usize,
) -> Result<usize, Refusal>
    ensures { KioskPromise table.old (length «data».now) block_len work.old block_count (beside (create_gives (answer_of result) (result_unwrap_or result 0) table.new) work.new) }
{
    fat_test::change_gate(table, data.len(), block_len, work)?;
    let n = fat_node::blocks(table);
    create_sound(table, n, block_count)
}

// The same for a side that has tested its table once and keeps it sound: ReadOnlyVolume comes before the call's own refusals.
pub fn tested_create(
    table: &mut [u8],
    n: usize,
    block_len: usize,
    block_count: usize,
) -> Result<usize, Refusal>
    requires { Volume n table.old }
    ensures { KioskTested n table.old block_len block_count (create_gives (answer_of result) (result_unwrap_or result 0) table.new) }
{
    if !fat_test::in_use(block_len) {
        return Err(Refusal::ReadOnlyVolume);
    }
    create_sound(table, n, block_count)
}
