// The gate that every call on both layers passes: sizes, work list, soundness of the block table, soundness of the entry tables.
#![tactic(auto)]

ghost use Rattle.std.specs.Prelude.{◌≡◌, ◌≤◌, length, replicate};
ghost use Rattle.order.specs.Gate.{cleared};
ghost use Rattle.fat_node.specs.Sizes.{blocks};
ghost use Rattle.tree_sound.specs.Tables.{tables, MisfitIn, OutsideIn, rooms_in};
ghost use Rattle.volume_gate.specs.Gate.{places, Uneven, Unfit, VolumeGateOf};
ghost use Rattle.volume_gate.specs.Inner.Sizes.{Sizes, Fit, SizedOf, SoundOf};

use order::Refusal;

// The widths of the two entry types.
const DIR: usize = tree_key::SaveExtDirEntry::WIDTH;

const FILE: usize = tree_key::SaveExtFileEntry::WIDTH;

// The row of sizes that the block table's gate gives, asked with no place of a work list: 1, 2, or 3 where the sizes fit.
fn block_sizes(table: &[u8], data_len: usize, block_len: usize, none: &mut [u32]) -> u32
    requires { length none.old ≡ 0 }
    ensures { Sizes (Uneven table.now data_len block_len) (Unfit table.now block_len) result }
{
    order::number(&fat_test::gate(table, data_len, block_len, none))
}

// The same of the entry tables' gate.
fn tree_sizes(
    dir_hash: &[u8],
    dir_table: &[u8],
    file_hash: &[u8],
    file_table: &[u8],
    none: &mut [u32],
) -> u32
    requires { length none.old ≡ 0 }
    ensures { Sizes (MisfitIn (tables dir_hash.now dir_table.now file_hash.now file_table.now))
        (OutsideIn (tables dir_hash.now dir_table.now file_hash.now file_table.now)) result }
{
    order::number(&tree_test::gate(dir_hash, dir_table, file_hash, file_table, none))
}

// Whether both layers are sound, in a work list of enough places; what stands in it afterwards is not said.
fn sound(
    table: &[u8],
    data_len: usize,
    block_len: usize,
    dir_hash: &[u8],
    dir_table: &[u8],
    file_hash: &[u8],
    file_table: &[u8],
    work: &mut [u32],
) -> Result<(), Refusal>
    requires fit { Fit table.now data_len block_len (tables dir_hash.now dir_table.now file_hash.now file_table.now) }
    requires file_table_in_bounds { places table.now (tables dir_hash.now dir_table.now file_hash.now file_table.now) ≤ length work.old }
    ensures { SoundOf table.now (tables dir_hash.now dir_table.now file_hash.now file_table.now) result }
{
    fat_test::gate(table, data_len, block_len, work)?;
    tree_test::gate(dir_hash, dir_table, file_hash, file_table, work)
}

// The rows of sizes over both layers: all of row 1 comes before any of row 2. The work list is not touched.
fn sizes(
    table: &[u8],
    data_len: usize,
    block_len: usize,
    dir_hash: &[u8],
    dir_table: &[u8],
    file_hash: &[u8],
    file_table: &[u8],
    work: &mut [u32],
) -> Result<(), Refusal>
    ensures sized { SizedOf table.now data_len block_len (tables dir_hash.now dir_table.now file_hash.now file_table.now) result }
    ensures same { work.new ≡ work.old }
{
    let blocks = block_sizes(table, data_len, block_len, &mut work[..0]);
    let tree = tree_sizes(dir_hash, dir_table, file_hash, file_table, &mut work[..0]);
    if blocks == 1 || tree == 1 {
        return Err(Refusal::SizeMismatch);
    }
    if blocks == 2 || tree == 2 {
        return Err(Refusal::InvalidValue);
    }
    Ok(())
}

// The same as `sound`, in a work list of exactly the named places, which are 0 after it.
fn verdict(
    table: &[u8],
    data_len: usize,
    block_len: usize,
    dir_hash: &[u8],
    dir_table: &[u8],
    file_hash: &[u8],
    file_table: &[u8],
    work: &mut [u32],
) -> Result<(), Refusal>
    requires fit { Fit table.now data_len block_len (tables dir_hash.now dir_table.now file_hash.now file_table.now) }
    requires file_table_in_bounds { places table.now (tables dir_hash.now dir_table.now file_hash.now file_table.now) ≤ length work.old }
    ensures sound { SoundOf table.now (tables dir_hash.now dir_table.now file_hash.now file_table.now) result }
    ensures clear { work.new ≡ replicate (length work.old) 0 }
{
    let told = sound(
        table, data_len, block_len, dir_hash, dir_table, file_hash, file_table, work,
    );
    order::clear(work);
    told
}

// The gate of a call on both layers, with data of length data_len. Open: the sizes fit and both layers are sound.
pub fn gate(
    table: &[u8],
    data_len: usize,
    block_len: usize,
    dir_hash: &[u8],
    dir_table: &[u8],
    file_hash: &[u8],
    file_table: &[u8],
    work: &mut [u32],
) -> Result<(), Refusal>
    ensures { VolumeGateOf table.now data_len block_len (tables dir_hash.now dir_table.now file_hash.now file_table.now) work.old work.new result }
{
    sizes(
        table, data_len, block_len, dir_hash, dir_table, file_hash, file_table, work,
    )?;
    let rooms = dir_table.len() / DIR + file_table.len() / FILE;
    let places = fat_node::blocks(table) + rooms;
    if work.len() < places {
        return Err(Refusal::WorkTooShort);
    }
    verdict(
        table,
        data_len,
        block_len,
        dir_hash,
        dir_table,
        file_hash,
        file_table,
        &mut work[..places],
    )
}
