// The public calls on the bytes that an entry carries.
ghost use Rattle.std.specs.Prelude.{replicate};
ghost use Rattle.std.specs.Result.{result_unwrap_or};
ghost use Rattle.order.specs.Answer.{answer_of};
ghost use Rattle.order.specs.Beside.{beside};
ghost use Rattle.tree_sound.specs.Tables.{Tables, tables};
ghost use Rattle.tree_promises.specs.Calls.{shown_gives, carry_gives};
ghost use Rattle.tree_promises.specs.Public.{CarriedDirPromise, CarriedFilePromise, SetCarriedDirPromise, SetCarriedFilePromise};

use order::Refusal;

// Reads the 4 bytes that directory `inode` carries for the caller. Done: the bytes.
pub fn carried_dir(
    dir_hash: &[u8],
    dir_table: &[u8],
    file_hash: &[u8],
    file_table: &[u8],
    work: &mut [u32],
    inode: u32,
) -> Result<[u8; 4], Refusal>
    ensures { (let s : Tables = tables dir_hash.now dir_table.now file_hash.now file_table.now in
        CarriedDirPromise s work.old inode (beside (shown_gives (answer_of result) (result_unwrap_or result (replicate 4 0))) work.new)) }
{
    tree_test::gate(dir_hash, dir_table, file_hash, file_table, work)?;
    tree_carry::carried_dir(dir_hash, dir_table, inode)
}

// Reads the 20 bytes that file `inode` carries for the caller. Done: the bytes.
pub fn carried_file(
    dir_hash: &[u8],
    dir_table: &[u8],
    file_hash: &[u8],
    file_table: &[u8],
    work: &mut [u32],
    inode: u32,
) -> Result<[u8; 20], Refusal>
    ensures { (let s : Tables = tables dir_hash.now dir_table.now file_hash.now file_table.now in
        CarriedFilePromise s work.old inode (beside (shown_gives (answer_of result) (result_unwrap_or result (replicate 20 0))) work.new)) }
{
    tree_test::gate(dir_hash, dir_table, file_hash, file_table, work)?;
    tree_carry::carried_file(file_hash, file_table, inode)
}

// Sets the 4 bytes that directory `inode` carries for the caller. Done: they stand in its entry, and nothing else has changed.
pub fn set_carried_dir(
    dir_hash: &[u8],
    dir_table: &mut [u8],
    file_hash: &[u8],
    file_table: &[u8],
    work: &mut [u32],
    inode: u32,
    padding: [u8; 4],
) -> Result<(), Refusal>
    ensures { (let s : Tables = tables dir_hash.now dir_table.old file_hash.now file_table.now in
        SetCarriedDirPromise s work.old inode padding
        (beside (carry_gives result (tables dir_hash.now dir_table.new file_hash.now file_table.now)) work.new)) }
{
    tree_test::gate(dir_hash, dir_table, file_hash, file_table, work)?;
    tree_carry::set_carried_dir(dir_hash, dir_table, inode, padding)
}

// Sets the 20 bytes that file `inode` carries for the caller. Done: they stand in its entry, and nothing else has changed.
pub fn set_carried_file(
    dir_hash: &[u8],
    dir_table: &[u8],
    file_hash: &[u8],
    file_table: &mut [u8],
    work: &mut [u32],
    inode: u32,
    carried: [u8; 20],
) -> Result<(), Refusal>
    ensures { (let s : Tables = tables dir_hash.now dir_table.now file_hash.now file_table.old in
        SetCarriedFilePromise s work.old inode carried
        (beside (carry_gives result (tables dir_hash.now dir_table.now file_hash.now file_table.new)) work.new)) }
{
    tree_test::gate(dir_hash, dir_table, file_hash, file_table, work)?;
    tree_carry::set_carried_file(file_hash, file_table, inode, carried)
}
