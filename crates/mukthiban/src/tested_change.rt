// The inner calls that change the entry tables, for a side that has tested its tables once and keeps them sound. Each requires what the test tells, and
// tests nothing.
ghost use Rattle.tree_promises.specs.declared.Kind.TheVariants.{Directory, File};
ghost use Rattle.tree_promises.specs.Inner.Ready.{ReadyOpens};
ghost use Rattle.tree_sound.specs.Tables.{tables};
ghost use Rattle.tree_promises.specs.Packed.{gives, Inside, make_tests, make_done, delete_tests, delete_done, rename_tests, rename_done};
ghost use Rattle.tree_packed.specs.Opens as packed;
ghost use Rattle.mukthiban.specs.Export.{Exported};

use crate::{Made, Plain};

#[unsafe(no_mangle)]
pub extern "C" fn mukthiban_tested_tree_make_dir(
    dir_hash: &mut [u8],
    dir_table: &mut [u8],
    file_hash: &[u8],
    file_table: &[u8],
    opens: &mut [u32],
    opened: &mut usize,
    parent: u32,
    name: &[u8; 16],
    carried: &[u8; 4],
) -> Made
    requires { ReadyOpens (tables dir_hash.old dir_table.old file_hash.now file_table.now) (packed.opens opened.old opens.old) }
    ensures { Exported result.answer (λ a. Inside (tables dir_hash.old dir_table.old file_hash.now file_table.now) (packed.opens opened.old opens.old) (make_tests Directory (tables dir_hash.old dir_table.old file_hash.now file_table.now) (packed.opens opened.old opens.old) parent name.now) (make_done Directory (tables dir_hash.old dir_table.old file_hash.now file_table.now) (packed.opens opened.old opens.old) parent name.now carried.now) (gives a result.inode (tables dir_hash.new dir_table.new file_hash.now file_table.now) (packed.opens opened.new opens.new))) }
{
    tree_make::make_dir(
        dir_hash, dir_table, file_hash, file_table, opens, opened, parent, name, carried,
    )
    .into()
}

#[unsafe(no_mangle)]
pub extern "C" fn mukthiban_tested_tree_make_file(
    dir_hash: &[u8],
    dir_table: &mut [u8],
    file_hash: &mut [u8],
    file_table: &mut [u8],
    opens: &mut [u32],
    opened: &mut usize,
    parent: u32,
    name: &[u8; 16],
    carried: &[u8; 20],
) -> Made
    requires { ReadyOpens (tables dir_hash.now dir_table.old file_hash.old file_table.old) (packed.opens opened.old opens.old) }
    ensures { Exported result.answer (λ a. Inside (tables dir_hash.now dir_table.old file_hash.old file_table.old) (packed.opens opened.old opens.old) (make_tests File (tables dir_hash.now dir_table.old file_hash.old file_table.old) (packed.opens opened.old opens.old) parent name.now) (make_done File (tables dir_hash.now dir_table.old file_hash.old file_table.old) (packed.opens opened.old opens.old) parent name.now carried.now) (gives a result.inode (tables dir_hash.now dir_table.new file_hash.new file_table.new) (packed.opens opened.new opens.new))) }
{
    tree_make::make_file(
        dir_hash, dir_table, file_hash, file_table, opens, opened, parent, name, carried,
    )
    .into()
}

#[unsafe(no_mangle)]
pub extern "C" fn mukthiban_tested_tree_rename_dir(
    dir_hash: &mut [u8],
    dir_table: &mut [u8],
    file_hash: &[u8],
    file_table: &[u8],
    opens: &[u32],
    opened: &usize,
    inode: u32,
    parent: u32,
    name: &[u8; 16],
) -> Plain
    requires { ReadyOpens (tables dir_hash.old dir_table.old file_hash.now file_table.now) (packed.opens opened.now opens.now) }
    ensures { Exported result.answer (λ a. Inside (tables dir_hash.old dir_table.old file_hash.now file_table.now) (packed.opens opened.now opens.now) (rename_tests Directory (tables dir_hash.old dir_table.old file_hash.now file_table.now) (packed.opens opened.now opens.now) inode parent name.now) (rename_done Directory (tables dir_hash.old dir_table.old file_hash.now file_table.now) (packed.opens opened.now opens.now) inode parent name.now) (gives a 0 (tables dir_hash.new dir_table.new file_hash.now file_table.now) (packed.opens opened.now opens.now))) }
{
    tree_change::rename_dir(
        dir_hash, dir_table, file_hash, file_table, opens, *opened, inode, parent, name,
    )
    .into()
}

#[unsafe(no_mangle)]
pub extern "C" fn mukthiban_tested_tree_rename_file(
    dir_hash: &[u8],
    dir_table: &mut [u8],
    file_hash: &mut [u8],
    file_table: &mut [u8],
    opens: &[u32],
    opened: &usize,
    inode: u32,
    parent: u32,
    name: &[u8; 16],
) -> Plain
    requires { ReadyOpens (tables dir_hash.now dir_table.old file_hash.old file_table.old) (packed.opens opened.now opens.now) }
    ensures { Exported result.answer (λ a. Inside (tables dir_hash.now dir_table.old file_hash.old file_table.old) (packed.opens opened.now opens.now) (rename_tests File (tables dir_hash.now dir_table.old file_hash.old file_table.old) (packed.opens opened.now opens.now) inode parent name.now) (rename_done File (tables dir_hash.now dir_table.old file_hash.old file_table.old) (packed.opens opened.now opens.now) inode parent name.now) (gives a 0 (tables dir_hash.now dir_table.new file_hash.new file_table.new) (packed.opens opened.now opens.now))) }
{
    tree_change::rename_file(
        dir_hash, dir_table, file_hash, file_table, opens, *opened, inode, parent, name,
    )
    .into()
}

#[unsafe(no_mangle)]
pub extern "C" fn mukthiban_tested_tree_delete_dir(
    dir_hash: &mut [u8],
    dir_table: &mut [u8],
    file_hash: &[u8],
    file_table: &[u8],
    opens: &mut [u32],
    opened: &mut usize,
    inode: u32,
) -> Plain
    requires { ReadyOpens (tables dir_hash.old dir_table.old file_hash.now file_table.now) (packed.opens opened.old opens.old) }
    ensures { Exported result.answer (λ a. Inside (tables dir_hash.old dir_table.old file_hash.now file_table.now) (packed.opens opened.old opens.old) (delete_tests Directory (tables dir_hash.old dir_table.old file_hash.now file_table.now) (packed.opens opened.old opens.old) inode) (delete_done Directory (tables dir_hash.old dir_table.old file_hash.now file_table.now) (packed.opens opened.old opens.old) inode) (gives a 0 (tables dir_hash.new dir_table.new file_hash.now file_table.now) (packed.opens opened.new opens.new))) }
{
    tree_change::delete_dir(
        dir_hash, dir_table, file_hash, file_table, opens, opened, inode,
    )
    .into()
}

#[unsafe(no_mangle)]
pub extern "C" fn mukthiban_tested_tree_delete_file(
    dir_hash: &[u8],
    dir_table: &mut [u8],
    file_hash: &mut [u8],
    file_table: &mut [u8],
    opens: &mut [u32],
    opened: &mut usize,
    inode: u32,
) -> Plain
    requires { ReadyOpens (tables dir_hash.now dir_table.old file_hash.old file_table.old) (packed.opens opened.old opens.old) }
    ensures { Exported result.answer (λ a. Inside (tables dir_hash.now dir_table.old file_hash.old file_table.old) (packed.opens opened.old opens.old) (delete_tests File (tables dir_hash.now dir_table.old file_hash.old file_table.old) (packed.opens opened.old opens.old) inode) (delete_done File (tables dir_hash.now dir_table.old file_hash.old file_table.old) (packed.opens opened.old opens.old) inode) (gives a 0 (tables dir_hash.now dir_table.new file_hash.new file_table.new) (packed.opens opened.new opens.new))) }
{
    tree_change::delete_file(
        dir_hash, dir_table, file_hash, file_table, opens, opened, inode,
    )
    .into()
}
