// The calls that change the entry tables: make, rename and delete.
ghost use Rattle.order.specs.Beside.{beside};
ghost use Rattle.tree_sound.specs.Tables.{tables};
ghost use Rattle.tree_packed.specs.Opens as packed;
ghost use Rattle.tree_promises.specs.declared.Kind.TheVariants.{Directory, File};
ghost use Rattle.tree_promises.specs.Packed.{gives, PackedMake, PackedRename, PackedDelete};
ghost use Rattle.mukthiban.specs.Export.{Exported};

use crate::{Made, Plain};

#[unsafe(no_mangle)]
pub extern "C" fn mukthiban_tree_make_dir(
    dir_hash: &mut [u8],
    dir_table: &mut [u8],
    file_hash: &[u8],
    file_table: &[u8],
    work: &mut [u32],
    opens: &mut [u32],
    opened: &mut usize,
    parent: u32,
    name: &[u8; 16],
    carried: &[u8; 4],
) -> Made
    ensures { Exported result.answer (λ a. PackedMake Directory (tables dir_hash.old dir_table.old file_hash.now file_table.now) (packed.opens opened.old opens.old) work.old parent name.now carried.now (beside (gives a result.inode (tables dir_hash.new dir_table.new file_hash.now file_table.now) (packed.opens opened.new opens.new)) work.new)) }
{
    tree::change::make_dir(
        dir_hash, dir_table, file_hash, file_table, work, opens, opened, parent, name, carried,
    )
    .into()
}

#[unsafe(no_mangle)]
pub extern "C" fn mukthiban_tree_make_file(
    dir_hash: &[u8],
    dir_table: &mut [u8],
    file_hash: &mut [u8],
    file_table: &mut [u8],
    work: &mut [u32],
    opens: &mut [u32],
    opened: &mut usize,
    parent: u32,
    name: &[u8; 16],
    carried: &[u8; 20],
) -> Made
    ensures { Exported result.answer (λ a. PackedMake File (tables dir_hash.now dir_table.old file_hash.old file_table.old) (packed.opens opened.old opens.old) work.old parent name.now carried.now (beside (gives a result.inode (tables dir_hash.now dir_table.new file_hash.new file_table.new) (packed.opens opened.new opens.new)) work.new)) }
{
    tree::change::make_file(
        dir_hash, dir_table, file_hash, file_table, work, opens, opened, parent, name, carried,
    )
    .into()
}

#[unsafe(no_mangle)]
pub extern "C" fn mukthiban_tree_rename_dir(
    dir_hash: &mut [u8],
    dir_table: &mut [u8],
    file_hash: &[u8],
    file_table: &[u8],
    work: &mut [u32],
    opens: &[u32],
    opened: &usize,
    inode: u32,
    parent: u32,
    name: &[u8; 16],
) -> Plain
    ensures { Exported result.answer (λ a. PackedRename Directory (tables dir_hash.old dir_table.old file_hash.now file_table.now) (packed.opens opened.now opens.now) work.old inode parent name.now (beside (gives a 0 (tables dir_hash.new dir_table.new file_hash.now file_table.now) (packed.opens opened.now opens.now)) work.new)) }
{
    tree::change::rename_dir(
        dir_hash, dir_table, file_hash, file_table, work, opens, *opened, inode, parent, name,
    )
    .into()
}

#[unsafe(no_mangle)]
pub extern "C" fn mukthiban_tree_rename_file(
    dir_hash: &[u8],
    dir_table: &mut [u8],
    file_hash: &mut [u8],
    file_table: &mut [u8],
    work: &mut [u32],
    opens: &[u32],
    opened: &usize,
    inode: u32,
    parent: u32,
    name: &[u8; 16],
) -> Plain
    ensures { Exported result.answer (λ a. PackedRename File (tables dir_hash.now dir_table.old file_hash.old file_table.old) (packed.opens opened.now opens.now) work.old inode parent name.now (beside (gives a 0 (tables dir_hash.now dir_table.new file_hash.new file_table.new) (packed.opens opened.now opens.now)) work.new)) }
{
    tree::change::rename_file(
        dir_hash, dir_table, file_hash, file_table, work, opens, *opened, inode, parent, name,
    )
    .into()
}

#[unsafe(no_mangle)]
pub extern "C" fn mukthiban_tree_delete_dir(
    dir_hash: &mut [u8],
    dir_table: &mut [u8],
    file_hash: &[u8],
    file_table: &[u8],
    work: &mut [u32],
    opens: &mut [u32],
    opened: &mut usize,
    inode: u32,
) -> Plain
    ensures { Exported result.answer (λ a. PackedDelete Directory (tables dir_hash.old dir_table.old file_hash.now file_table.now) (packed.opens opened.old opens.old) work.old inode (beside (gives a 0 (tables dir_hash.new dir_table.new file_hash.now file_table.now) (packed.opens opened.new opens.new)) work.new)) }
{
    tree::change::delete_dir(
        dir_hash, dir_table, file_hash, file_table, work, opens, opened, inode,
    )
    .into()
}

#[unsafe(no_mangle)]
pub extern "C" fn mukthiban_tree_delete_file(
    dir_hash: &[u8],
    dir_table: &mut [u8],
    file_hash: &mut [u8],
    file_table: &mut [u8],
    work: &mut [u32],
    opens: &mut [u32],
    opened: &mut usize,
    inode: u32,
) -> Plain
    ensures { Exported result.answer (λ a. PackedDelete File (tables dir_hash.now dir_table.old file_hash.old file_table.old) (packed.opens opened.old opens.old) work.old inode (beside (gives a 0 (tables dir_hash.now dir_table.new file_hash.new file_table.new) (packed.opens opened.new opens.new)) work.new)) }
{
    tree::change::delete_file(
        dir_hash, dir_table, file_hash, file_table, work, opens, opened, inode,
    )
    .into()
}
