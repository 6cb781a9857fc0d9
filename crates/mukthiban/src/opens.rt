// Open and close. The kind is a number: 0 is a reader's open, 1 the writer's, another is refused with the sizes.
ghost use Rattle.std.specs.Prelude.{◌≡◌};
ghost use Rattle.order.specs.Beside.{beside};
ghost use Rattle.tree_sound.specs.Tables.{tables};
ghost use Rattle.tree_promises.specs.declared.Kind.TheVariants.{Directory, File};
ghost use Rattle.tree_packed.specs.Opens as packed;
ghost use Rattle.tree_promises.specs.Packed.{gives};
ghost use Rattle.mukthiban.specs.Opening.{want_of, OpenKindPromise, CloseKindPromise};
ghost use Rattle.mukthiban.specs.Export.{Exported};

use crate::Plain;
use crate::name::other_kind;
use tree_opens::Want;

// The open that a kind stands for.
pub fn want_of(kind: u32) -> Want
    ensures { result ≡ want_of kind }
{
    if kind == 0 {
        Want::Reader
    } else {
        Want::Writer
    }
}

#[unsafe(no_mangle)]
pub extern "C" fn mukthiban_tree_open_dir(
    dir_hash: &[u8],
    dir_table: &[u8],
    file_hash: &[u8],
    file_table: &[u8],
    work: &mut [u32],
    opens: &mut [u32],
    opened: &mut usize,
    inode: u32,
    kind: u32,
) -> Plain
    ensures { Exported result.answer (λ a. OpenKindPromise Directory (tables dir_hash.now dir_table.now file_hash.now file_table.now) (packed.opens opened.old opens.old) work.old inode kind (beside (gives a 0 (tables dir_hash.now dir_table.now file_hash.now file_table.now) (packed.opens opened.new opens.new)) work.new)) }
{
    if kind > 1 {
        return Plain::from(Err(other_kind(dir_hash, dir_table, file_hash, file_table)));
    }
    tree::opens::open_dir(
        dir_hash,
        dir_table,
        file_hash,
        file_table,
        work,
        opens,
        opened,
        inode,
        want_of(kind),
    )
    .into()
}

#[unsafe(no_mangle)]
pub extern "C" fn mukthiban_tree_open_file(
    dir_hash: &[u8],
    dir_table: &[u8],
    file_hash: &[u8],
    file_table: &[u8],
    work: &mut [u32],
    opens: &mut [u32],
    opened: &mut usize,
    inode: u32,
    kind: u32,
) -> Plain
    ensures { Exported result.answer (λ a. OpenKindPromise File (tables dir_hash.now dir_table.now file_hash.now file_table.now) (packed.opens opened.old opens.old) work.old inode kind (beside (gives a 0 (tables dir_hash.now dir_table.now file_hash.now file_table.now) (packed.opens opened.new opens.new)) work.new)) }
{
    if kind > 1 {
        return Plain::from(Err(other_kind(dir_hash, dir_table, file_hash, file_table)));
    }
    tree::opens::open_file(
        dir_hash,
        dir_table,
        file_hash,
        file_table,
        work,
        opens,
        opened,
        inode,
        want_of(kind),
    )
    .into()
}

#[unsafe(no_mangle)]
pub extern "C" fn mukthiban_tree_close_dir(
    dir_hash: &[u8],
    dir_table: &[u8],
    file_hash: &[u8],
    file_table: &[u8],
    work: &mut [u32],
    opens: &mut [u32],
    opened: &mut usize,
    inode: u32,
    kind: u32,
) -> Plain
    ensures { Exported result.answer (λ a. CloseKindPromise Directory (tables dir_hash.now dir_table.now file_hash.now file_table.now) (packed.opens opened.old opens.old) work.old inode kind (beside (gives a 0 (tables dir_hash.now dir_table.now file_hash.now file_table.now) (packed.opens opened.new opens.new)) work.new)) }
{
    if kind > 1 {
        return Plain::from(Err(other_kind(dir_hash, dir_table, file_hash, file_table)));
    }
    tree::opens::close_dir(
        dir_hash,
        dir_table,
        file_hash,
        file_table,
        work,
        opens,
        opened,
        inode,
        want_of(kind),
    )
    .into()
}

#[unsafe(no_mangle)]
pub extern "C" fn mukthiban_tree_close_file(
    dir_hash: &[u8],
    dir_table: &[u8],
    file_hash: &[u8],
    file_table: &[u8],
    work: &mut [u32],
    opens: &mut [u32],
    opened: &mut usize,
    inode: u32,
    kind: u32,
) -> Plain
    ensures { Exported result.answer (λ a. CloseKindPromise File (tables dir_hash.now dir_table.now file_hash.now file_table.now) (packed.opens opened.old opens.old) work.old inode kind (beside (gives a 0 (tables dir_hash.now dir_table.now file_hash.now file_table.now) (packed.opens opened.new opens.new)) work.new)) }
{
    if kind > 1 {
        return Plain::from(Err(other_kind(dir_hash, dir_table, file_hash, file_table)));
    }
    tree::opens::close_file(
        dir_hash,
        dir_table,
        file_hash,
        file_table,
        work,
        opens,
        opened,
        inode,
        want_of(kind),
    )
    .into()
}
