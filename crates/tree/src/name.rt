// The name of an entry, shown as a part of the directory table or of the file table. Two calls, as the C interface has them: the number, and the bytes.
ghost use Rattle.std.specs.Prelude.{[]};
ghost use Rattle.order.specs.First.{First};
ghost use Rattle.order.specs.Giving.{giving};
ghost use Rattle.order.specs.Beside.{beside};
ghost use Rattle.order.specs.Answer.{Done};
ghost use Rattle.tree_sound.specs.Tables.{Tables, tables};
ghost use Rattle.tree_promises.specs.Calls.{live_tests, part};
ghost use Rattle.tree_promises.specs.Inner.Ready.{Single, alone};
ghost use Rattle.tree.specs.Name.{NameAnswerPromise, NamePromise};

use order::Refusal;
use tree_key::{SaveExtDirEntry, SaveExtFileEntry};
use tree_promises::Kind;

// Whether entry x of a sound table is there.
fn answer_in(hash: &[u8], table: &[u8], w: usize, x: u32) -> Result<(), Refusal>
    requires { Single hash.now table.now w }
    ensures { First (giving (λ a. a) (live_tests (alone w table.now) x)) Done result }
{
    if !tree_look::live(hash, table, w, x) {
        return Err(Refusal::NotFound);
    }
    Ok(())
}

// The name of entry x of a sound table; an empty part, if it is not there.
fn part_in<'a>(hash: &[u8], table: &'a [u8], w: usize, x: u32) -> &'a [u8]
    requires { Single hash.now table.now w }
    ensures { First (giving (λ a. []) (live_tests (alone w table.now) x)) (part w table.now x 4 16) result.now }
{
    if !tree_look::live(hash, table, w, x) {
        return &table[..0];
    }
    tree_carry::name_part(table, w, x)
}

// Whether there is a name to show. Done: entry `inode` of that kind is live.
pub fn name_answer(
    dir_hash: &[u8],
    dir_table: &[u8],
    file_hash: &[u8],
    file_table: &[u8],
    work: &mut [u32],
    kind: Kind,
    inode: u32,
) -> Result<(), Refusal>
    ensures { (let s : Tables = tables dir_hash.now dir_table.now file_hash.now file_table.now in
        NameAnswerPromise s work.old kind inode (beside result work.new)) }
{
    tree_test::gate(dir_hash, dir_table, file_hash, file_table, work)?;
    match kind {
        Kind::Directory => answer_in(dir_hash, dir_table, SaveExtDirEntry::WIDTH, inode),
        Kind::File => answer_in(file_hash, file_table, SaveExtFileEntry::WIDTH, inode),
    }
}

// The name of entry `inode` of that kind: its sixteen bytes, a part of its table. Refused: an empty part; name_answer gives the number.
pub fn name<'a>(
    dir_hash: &[u8],
    dir_table: &'a [u8],
    file_hash: &[u8],
    file_table: &'a [u8],
    work: &mut [u32],
    kind: Kind,
    inode: u32,
) -> &'a [u8]
    ensures { (let s : Tables = tables dir_hash.now dir_table.now file_hash.now file_table.now in
        NamePromise s work.old kind inode (beside result.now work.new)) }
{
    if tree_test::gate(dir_hash, dir_table, file_hash, file_table, work).is_err() {
        return match kind {
            Kind::Directory => &dir_table[..0],
            Kind::File => &file_table[..0],
        };
    }
    match kind {
        Kind::Directory => part_in(dir_hash, dir_table, SaveExtDirEntry::WIDTH, inode),
        Kind::File => part_in(file_hash, file_table, SaveExtFileEntry::WIDTH, inode),
    }
}
