// The test of the block table, and the gate that every call on one passes.
#![tactic(auto)]

ghost use Rattle.std.specs.Prelude.{◌≡◌, true, false, ◌⊎◌, ◌+◌, ◌*◌, ◌≤◌, ◌<◌, length, replicate};
ghost use Rattle.order.specs.Gate.{cleared};
ghost use Rattle.order.specs.Tells.{Tells};
ghost use Rattle.fat_node.specs.Sizes.{blocks, Misfit, Outside};
ghost use Rattle.fat_test.specs.Promise.{tested_by, TestPromise};
ghost use Rattle.fat_test.specs.Gate.{InUse};
ghost use Rattle.fat_test.specs.Inner.Gated.{Ruled, GateOf, ChangeGateOf, TableGateOf};

pub use fat_node::Counts;
use order::Refusal;

// Whether a block length is not from 1 to 65,536.
fn unfit(block_len: usize) -> bool
    ensures { (result ≡ true → (block_len < 1) ⊎ (65536 < block_len)) × (result ≡ false → (block_len < 1) ⊎ (65536 < block_len) → ⊥) }
{
    block_len < 1 || 65536 < block_len
}

// Whether data of length d is not n blocks of length l; their product may be too large for a machine word.
fn uneven(d: usize, n: usize, l: usize) -> bool
    ensures { (result ≡ true → d ≡ n * l → ⊥) × (result ≡ false → d ≡ n * l) }
{
    n.checked_mul(l) != Some(d)
}

// What is told of a table of as many blocks as the work list has places, which are 0 after it. The passes that find the place run after a refusal alone.
fn ruling(table: &[u8], work: &mut [u32]) -> Result<Counts, Refusal>
    requires table_len { length table.now ≡ 8 * (length work.old + 1) }
    requires work_nonzero { (0 < length work.old) × (length work.old ≤ 1000000) }
    ensures { Ruled table.now (length work.old) result × (work.new ≡ replicate (length work.old) 0) }
{
    if let Some(counts) = fat_ends::run(table, work) {
        return Ok(counts);
    }
    let found = fat_fault::locate(table, work).unwrap_err();
    Err(Refusal::BrokenFat(found))
}

// The same of a table whose sizes fit, in the first places of the work list, one a block, which are 0 after it.
fn verdict(table: &[u8], work: &mut [u32]) -> Result<Counts, Refusal>
    requires misfit { Misfit table.now → ⊥ }
    requires outside { Outside table.now → ⊥ }
    requires table_in_bounds { blocks table.now ≤ length work.old }
    ensures { Ruled table.now (blocks table.now) result × (work.new ≡ cleared (blocks table.now) work.old) }
{
    let n = fat_node::blocks(table);
    ruling(table, &mut work[..n])
}

// The test of the block table. Ok: the table is sound, and these are its free blocks and the number of its other chains. BrokenFat says where it is not.
pub fn test(table: &[u8], work: &mut [u32]) -> Result<Counts, Refusal>
    ensures { TestPromise table.now work.old (tested_by result, work.new) }
{
    if fat_node::misfit(table) {
        return Err(Refusal::SizeMismatch);
    }
    if fat_node::outside(table) {
        return Err(Refusal::InvalidValue);
    }
    if work.len() < fat_node::blocks(table) {
        return Err(Refusal::WorkTooShort);
    }
    verdict(table, work)
}

// Whether volumes with blocks of this length are in use; others are read-only.
pub fn in_use(block_len: usize) -> bool
    ensures { Tells (InUse block_len) result }
{
    block_len == 512 || block_len == 4096
}

// The gate of a call with data of length data_len. Ok: the sizes fit and the table is sound, and the counts are the test's.
pub fn gate(
    table: &[u8],
    data_len: usize,
    block_len: usize,
    work: &mut [u32],
) -> Result<Counts, Refusal>
    ensures { GateOf table.now data_len block_len work.old work.new result }
{
    let n = fat_node::blocks(table);
    if fat_node::misfit(table) || uneven(data_len, n, block_len) {
        return Err(Refusal::SizeMismatch);
    }
    if fat_node::outside(table) || unfit(block_len) {
        return Err(Refusal::InvalidValue);
    }
    if work.len() < n {
        return Err(Refusal::WorkTooShort);
    }
    verdict(table, work)
}

// The gate of a call with data of length data_len that changes them or the table. Ok: the gate's is, and the block length is in use.
pub fn change_gate(
    table: &[u8],
    data_len: usize,
    block_len: usize,
    work: &mut [u32],
) -> Result<Counts, Refusal>
    ensures { ChangeGateOf table.now data_len block_len work.old work.new result }
{
    let counts = gate(table, data_len, block_len, work)?;
    if !in_use(block_len) {
        return Err(Refusal::ReadOnlyVolume);
    }
    Ok(counts)
}

// The gate of a call that changes the table and is lent no data: as with data that fit.
pub fn table_gate(table: &[u8], block_len: usize, work: &mut [u32]) -> Result<Counts, Refusal>
    ensures { TableGateOf table.now block_len work.old work.new result }
{
    if fat_node::misfit(table) {
        return Err(Refusal::SizeMismatch);
    }
    if fat_node::outside(table) || unfit(block_len) {
        return Err(Refusal::InvalidValue);
    }
    let n = fat_node::blocks(table);
    change_gate(table, n * block_len, block_len, work)
}
