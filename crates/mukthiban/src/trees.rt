// The calls on the entry tables.
ghost use Rattle.tree_test.specs.Promise.{tested, TestPromise};
ghost use Rattle.tree_sound.specs.Tables.{tables};
ghost use Rattle.tree_promises.specs.Calls.{carry_gives};
ghost use Rattle.tree_promises.specs.Format.{FormatPromise};
ghost use Rattle.order.specs.Beside.{beside};
ghost use Rattle.tree_aged.specs.Calls.{age_gives, AgedPromise};
ghost use Rattle.mukthiban.specs.Export.{Exported};

use crate::{Aged, Plain};

#[unsafe(no_mangle)]
pub extern "C" fn mukthiban_tree_format(
    dir_hash: &mut [u8],
    dir_table: &mut [u8],
    dir_max: usize,
    file_hash: &mut [u8],
    file_table: &mut [u8],
    file_max: usize,
) -> Plain
    ensures { Exported result.answer (λ a. FormatPromise (tables dir_hash.old dir_table.old file_hash.old file_table.old) dir_max file_max (carry_gives a (tables dir_hash.new dir_table.new file_hash.new file_table.new))) }
{
    tree::format::format(
        dir_hash, dir_table, dir_max, file_hash, file_table, file_max,
    )
    .into()
}

#[unsafe(no_mangle)]
pub extern "C" fn mukthiban_tree_test(
    dir_hash: &[u8],
    dir_table: &[u8],
    file_hash: &[u8],
    file_table: &[u8],
    work: &mut [u32],
) -> Plain
    ensures { Exported result.answer (λ a. TestPromise (tables dir_hash.now dir_table.now file_hash.now file_table.now) work.old (tested a work.new)) }
{
    tree_test::test(dir_hash, dir_table, file_hash, file_table, work).into()
}

#[unsafe(no_mangle)]
pub extern "C" fn mukthiban_tree_aged(
    dir_hash: &[u8],
    dir_table: &[u8],
    file_hash: &[u8],
    file_table: &[u8],
    work: &mut [u32],
) -> Aged
    ensures { Exported result.answer (λ a. AgedPromise (tables dir_hash.now dir_table.now file_hash.now file_table.now) work.old (beside (age_gives a result.table result.inode) work.new)) }
{
    tree_aged::aged(dir_hash, dir_table, file_hash, file_table, work).into()
}
