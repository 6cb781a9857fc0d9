// The public calls that change the entry tables: make, rename and delete. Every call takes all four tables, a work list and the packed list of its own table's
// open records with the number of records in it; it tests sizes and soundness, and then does its work by the call inside that requires soundness. What
// each promises on all inputs stands in tree_promises's specs/Packed.antt. A refusal gives its number and changes nothing but the work list.
ghost use Rattle.std.specs.Result.{result_unwrap_or};
ghost use Rattle.order.specs.Answer.{answer_of};
ghost use Rattle.order.specs.Beside.{beside};
ghost use Rattle.tree_sound.specs.Tables.{Tables, tables};
ghost use Rattle.tree_packed.specs.Opens.{opens};
ghost use Rattle.tree_promises.specs.declared.Kind.TheVariants.{Directory, File};
ghost use Rattle.tree_promises.specs.Packed.{gives, PackedMake, PackedRename, PackedDelete};

use order::Refusal;

// Makes a directory in a parent. Done: its inode; it is the first of its parent and of its bucket, has no children, carries the padding, and is held by its writer.
pub fn make_dir(
    dir_hash: &mut [u8],
    dir_table: &mut [u8],
    file_hash: &[u8],
    file_table: &[u8],
    work: &mut [u32],
    list: &mut [u32],
    opened: &mut usize,
    parent: u32,
    name: &[u8; 16],
    padding: &[u8; 4],
) -> Result<u32, Refusal>
    ensures { (let s : Tables = tables dir_hash.old dir_table.old file_hash.now file_table.now in
        PackedMake Directory s (opens opened.old list.old) work.old parent name.now padding.now
        (beside (gives (answer_of result) (result_unwrap_or result 0) (tables dir_hash.new dir_table.new file_hash.now file_table.now) (opens opened.new list.new)) work.new)) }
{
    tree_test::open_gate(
        dir_hash, dir_table, file_hash, file_table, list, *opened, work,
    )?;
    tree_make::make_dir(
        dir_hash, dir_table, file_hash, file_table, list, opened, parent, name, padding,
    )
}

// Makes a file in a directory. Done: its inode; it is the first of its parent and of its bucket, carries the bytes, and is held by its writer.
pub fn make_file(
    dir_hash: &[u8],
    dir_table: &mut [u8],
    file_hash: &mut [u8],
    file_table: &mut [u8],
    work: &mut [u32],
    list: &mut [u32],
    opened: &mut usize,
    parent: u32,
    name: &[u8; 16],
    carried: &[u8; 20],
) -> Result<u32, Refusal>
    ensures { (let s : Tables = tables dir_hash.now dir_table.old file_hash.old file_table.old in
        PackedMake File s (opens opened.old list.old) work.old parent name.now carried.now
        (beside (gives (answer_of result) (result_unwrap_or result 0) (tables dir_hash.now dir_table.new file_hash.new file_table.new) (opens opened.new list.new)) work.new)) }
{
    tree_test::open_gate(
        dir_hash, dir_table, file_hash, file_table, list, *opened, work,
    )?;
    tree_make::make_file(
        dir_hash, dir_table, file_hash, file_table, list, opened, parent, name, carried,
    )
}

// Gives a directory another parent and name. Done: it is the first of its new parent and bucket, and keeps inode, padding, children and opens.
pub fn rename_dir(
    dir_hash: &mut [u8],
    dir_table: &mut [u8],
    file_hash: &[u8],
    file_table: &[u8],
    work: &mut [u32],
    list: &[u32],
    opened: usize,
    inode: u32,
    parent: u32,
    name: &[u8; 16],
) -> Result<(), Refusal>
    ensures { (let s : Tables = tables dir_hash.old dir_table.old file_hash.now file_table.now in
        PackedRename Directory s (opens opened list.now) work.old inode parent name.now
        (beside (gives result 0 (tables dir_hash.new dir_table.new file_hash.now file_table.now) (opens opened list.now)) work.new)) }
{
    tree_test::open_gate(
        dir_hash, dir_table, file_hash, file_table, list, opened, work,
    )?;
    tree_change::rename_dir(
        dir_hash, dir_table, file_hash, file_table, list, opened, inode, parent, name,
    )
}

// Gives a file another parent and name. Done: it is the first of its new parent and bucket, and keeps inode, carried bytes and opens.
pub fn rename_file(
    dir_hash: &[u8],
    dir_table: &mut [u8],
    file_hash: &mut [u8],
    file_table: &mut [u8],
    work: &mut [u32],
    list: &[u32],
    opened: usize,
    inode: u32,
    parent: u32,
    name: &[u8; 16],
) -> Result<(), Refusal>
    ensures { (let s : Tables = tables dir_hash.now dir_table.old file_hash.old file_table.old in
        PackedRename File s (opens opened list.now) work.old inode parent name.now
        (beside (gives result 0 (tables dir_hash.now dir_table.new file_hash.new file_table.new) (opens opened list.now)) work.new)) }
{
    tree_test::open_gate(
        dir_hash, dir_table, file_hash, file_table, list, opened, work,
    )?;
    tree_change::rename_file(
        dir_hash, dir_table, file_hash, file_table, list, opened, inode, parent, name,
    )
}

// Deletes a directory that has no children, a writer and no readers. Done: its entry is the first removed one, and nothing of it is open.
pub fn delete_dir(
    dir_hash: &mut [u8],
    dir_table: &mut [u8],
    file_hash: &[u8],
    file_table: &[u8],
    work: &mut [u32],
    list: &mut [u32],
    opened: &mut usize,
    inode: u32,
) -> Result<(), Refusal>
    ensures { (let s : Tables = tables dir_hash.old dir_table.old file_hash.now file_table.now in
        PackedDelete Directory s (opens opened.old list.old) work.old inode
        (beside (gives result 0 (tables dir_hash.new dir_table.new file_hash.now file_table.now) (opens opened.new list.new)) work.new)) }
{
    tree_test::open_gate(
        dir_hash, dir_table, file_hash, file_table, list, *opened, work,
    )?;
    tree_change::delete_dir(
        dir_hash, dir_table, file_hash, file_table, list, opened, inode,
    )
}

// Deletes a file that has a writer and no readers. Done: its entry is the first removed one, and nothing of it is open.
pub fn delete_file(
    dir_hash: &[u8],
    dir_table: &mut [u8],
    file_hash: &mut [u8],
    file_table: &mut [u8],
    work: &mut [u32],
    list: &mut [u32],
    opened: &mut usize,
    inode: u32,
) -> Result<(), Refusal>
    ensures { (let s : Tables = tables dir_hash.now dir_table.old file_hash.old file_table.old in
        PackedDelete File s (opens opened.old list.old) work.old inode
        (beside (gives result 0 (tables dir_hash.now dir_table.new file_hash.new file_table.new) (opens opened.new list.new)) work.new)) }
{
    tree_test::open_gate(
        dir_hash, dir_table, file_hash, file_table, list, *opened, work,
    )?;
    tree_change::delete_file(
        dir_hash, dir_table, file_hash, file_table, list, opened, inode,
    )
}
