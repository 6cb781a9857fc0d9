// The inner calls on carried bytes, for a side that has tested its tables once and keeps them sound.
ghost use Rattle.std.specs.Prelude.{replicate};
ghost use Rattle.order.specs.First.{First};
ghost use Rattle.tree_promises.specs.declared.Kind.TheVariants.{Directory, File};
ghost use Rattle.tree_promises.specs.Inner.Ready.{Ready};
ghost use Rattle.tree_sound.specs.Tables.{tables, dirs, files};
ghost use Rattle.tree_promises.specs.Calls.{shown_rows, shown_gives, carried_done, carry_rows, carry_gives, carry_done};
ghost use Rattle.mukthiban.specs.Export.{Exported};

use crate::Plain;

#[unsafe(no_mangle)]
pub extern "C" fn mukthiban_tested_tree_carried_dir(
    dir_hash: &[u8],
    dir_table: &[u8],
    file_hash: &[u8],
    file_table: &[u8],
    inode: u32,
    carried: &mut [u8; 4],
) -> Plain
    requires { Ready (tables dir_hash.now dir_table.now file_hash.now file_table.now) }
    ensures { Exported result.answer (λ a. First (shown_rows (dirs (tables dir_hash.now dir_table.now file_hash.now file_table.now)) inode (replicate 4 0)) (carried_done Directory (tables dir_hash.now dir_table.now file_hash.now file_table.now) inode) (shown_gives a carried.new)) }
{
    let r = tree_carry::carried_dir(dir_hash, dir_table, inode);
    *carried = r.unwrap_or([0; 4]);
    Plain {
        answer: order::number(&r),
    }
}

#[unsafe(no_mangle)]
pub extern "C" fn mukthiban_tested_tree_carried_file(
    dir_hash: &[u8],
    dir_table: &[u8],
    file_hash: &[u8],
    file_table: &[u8],
    inode: u32,
    carried: &mut [u8; 20],
) -> Plain
    requires { Ready (tables dir_hash.now dir_table.now file_hash.now file_table.now) }
    ensures { Exported result.answer (λ a. First (shown_rows (files (tables dir_hash.now dir_table.now file_hash.now file_table.now)) inode (replicate 20 0)) (carried_done File (tables dir_hash.now dir_table.now file_hash.now file_table.now) inode) (shown_gives a carried.new)) }
{
    let r = tree_carry::carried_file(file_hash, file_table, inode);
    *carried = r.unwrap_or([0; 20]);
    Plain {
        answer: order::number(&r),
    }
}

#[unsafe(no_mangle)]
pub extern "C" fn mukthiban_tested_tree_set_carried_dir(
    dir_hash: &[u8],
    dir_table: &mut [u8],
    file_hash: &[u8],
    file_table: &[u8],
    inode: u32,
    carried: &[u8; 4],
) -> Plain
    requires { Ready (tables dir_hash.now dir_table.old file_hash.now file_table.now) }
    ensures { Exported result.answer (λ a. First (carry_rows (tables dir_hash.now dir_table.old file_hash.now file_table.now) (dirs (tables dir_hash.now dir_table.old file_hash.now file_table.now)) inode) (carry_done Directory (tables dir_hash.now dir_table.old file_hash.now file_table.now) inode carried.now) (carry_gives a (tables dir_hash.now dir_table.new file_hash.now file_table.now))) }
{
    tree_carry::set_carried_dir(dir_hash, dir_table, inode, *carried).into()
}

#[unsafe(no_mangle)]
pub extern "C" fn mukthiban_tested_tree_set_carried_file(
    dir_hash: &[u8],
    dir_table: &[u8],
    file_hash: &[u8],
    file_table: &mut [u8],
    inode: u32,
    carried: &[u8; 20],
) -> Plain
    requires { Ready (tables dir_hash.now dir_table.now file_hash.now file_table.old) }
    ensures { Exported result.answer (λ a. First (carry_rows (tables dir_hash.now dir_table.now file_hash.now file_table.old) (files (tables dir_hash.now dir_table.now file_hash.now file_table.old)) inode) (carry_done File (tables dir_hash.now dir_table.now file_hash.now file_table.old) inode carried.now) (carry_gives a (tables dir_hash.now dir_table.now file_hash.now file_table.new))) }
{
    tree_carry::set_carried_file(file_hash, file_table, inode, *carried).into()
}
