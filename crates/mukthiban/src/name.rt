// The name of an entry, answered as the place of its sixteen bytes in the table that the kind selects: 0 the directories, 1 the files.
ghost use Rattle.std.specs.Prelude.{[], ◌∷◌, ◌+◌, ◌*◌, ◌≤◌, Err};
ghost use Rattle.std.specs.Result.{result_unwrap_or};
ghost use Rattle.order.specs.Answer.{answer_of};
ghost use Rattle.order.specs.First.{First, row};
ghost use Rattle.order.specs.Beside.{beside};
ghost use Rattle.order.specs.Answer.{Done, NotFound, SizeMismatch, InvalidValue};
ghost use Rattle.tree_sound.specs.Sizes.{Misfit};
ghost use Rattle.tree_sound.specs.Tables.{tables};
ghost use Rattle.tree_promises.specs.Inner.Ready.{Ready, Single, LiveAt};
ghost use Rattle.mukthiban.specs.Name.{named_gives, name_rows, name_done, NamePromise};
ghost use Rattle.mukthiban.specs.Export.{Exported};

use crate::Named;
use order::Refusal;
use tree_key::{SaveExtDirEntry, SaveExtFileEntry};
use tree_promises::Kind;

// Where the name stands in an entry: behind the parent's four bytes.
const NAME: usize = 4;

// Why a kind that is neither is refused: whether the sizes fit.
pub fn other_kind(dir_hash: &[u8], dir_table: &[u8], file_hash: &[u8], file_table: &[u8]) -> Refusal
    ensures { First (row (Misfit dir_hash.now dir_table.now file_hash.now file_table.now) SizeMismatch ∷ []) InvalidValue (Err result) }
{
    if tree_test::misfit(dir_hash, dir_table, file_hash, file_table) {
        Refusal::SizeMismatch
    } else {
        Refusal::InvalidValue
    }
}

// Where the name begins in the table of its kind.
fn name(
    dir_hash: &[u8],
    dir_table: &[u8],
    file_hash: &[u8],
    file_table: &[u8],
    work: &mut [u32],
    kind: u32,
    inode: u32,
) -> Result<usize, Refusal>
    ensures { NamePromise (tables dir_hash.now dir_table.now file_hash.now file_table.now) work.old kind inode (beside (named_gives (answer_of result) (result_unwrap_or result 0)) work.new) }
{
    let (of, width) = match kind {
        0 => (Kind::Directory, SaveExtDirEntry::WIDTH),
        1 => (Kind::File, SaveExtFileEntry::WIDTH),
        _ => return Err(other_kind(dir_hash, dir_table, file_hash, file_table)),
    };
    tree::name::name_answer(dir_hash, dir_table, file_hash, file_table, work, of, inode)?;
    Ok(inode as usize * width + NAME)
}

#[unsafe(no_mangle)]
pub extern "C" fn mukthiban_tree_name(
    dir_hash: &[u8],
    dir_table: &[u8],
    file_hash: &[u8],
    file_table: &[u8],
    work: &mut [u32],
    kind: u32,
    inode: u32,
) -> Named
    ensures { Exported result.answer (λ a. NamePromise (tables dir_hash.now dir_table.now file_hash.now file_table.now) work.old kind inode (beside (named_gives a result.offset) work.new)) }
{
    name(
        dir_hash, dir_table, file_hash, file_table, work, kind, inode,
    )
    .into()
}

// Where the name of entry x of a sound table of width w begins.
fn name_in(hash: &[u8], table: &[u8], w: usize, x: u32) -> Result<usize, Refusal>
    requires { Single hash.now table.now w }
    ensures { First (row (LiveAt w table.now x → ⊥) (named_gives NotFound 0) ∷ []) (named_gives Done (x * w + 4)) (named_gives (answer_of result) (result_unwrap_or result 0)) }
{
    if !tree_look::live(hash, table, w, x) {
        return Err(Refusal::NotFound);
    }
    Ok(x as usize * w + NAME)
}

// The inner call, for a side that has tested its tables once and keeps them sound.
#[unsafe(no_mangle)]
pub extern "C" fn mukthiban_tested_tree_name(
    dir_hash: &[u8],
    dir_table: &[u8],
    file_hash: &[u8],
    file_table: &[u8],
    kind: u32,
    inode: u32,
) -> Named
    requires { Ready (tables dir_hash.now dir_table.now file_hash.now file_table.now) × (kind ≤ 1) }
    ensures { Exported result.answer (λ a. First (name_rows (tables dir_hash.now dir_table.now file_hash.now file_table.now) kind inode) (name_done kind inode) (named_gives a result.offset)) }
{
    if kind == 0 {
        name_in(dir_hash, dir_table, SaveExtDirEntry::WIDTH, inode).into()
    } else {
        name_in(file_hash, file_table, SaveExtFileEntry::WIDTH, inode).into()
    }
}
