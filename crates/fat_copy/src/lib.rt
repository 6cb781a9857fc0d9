// Read and write on sound tables: they follow a chain and leave the table as it is.
#![tactic(auto)]

ghost use Rattle.std.specs.Prelude.{◌≡◌, true, List, ℕ, ◌+◌, ◌*◌, ◌≤◌, ◌<◌, length};
ghost use Rattle.std.proofs.lemmas.List.Edits.{sets};
ghost use Rattle.fat_node.specs.Node.{Run};
ghost use Rattle.fat_table.specs.Sound.{File};
ghost use Rattle.fat_table.specs.Chain.{size_at};
ghost use Rattle.fat_promises.specs.Blocks.{blocks_of, bytes_at, written};
ghost use Rattle.fat_promises.specs.Calls.{carry_gives, ReadSound, WriteSound};
ghost use Rattle.fat_walk.specs.Volume.{Volume, Data};
ghost use Rattle.fat_walk.specs.Inner.Chains.{Standing};
ghost use Rattle.fat_judge.specs.Inner.Stretches.{StretchOf, Carries, CarriesAt};

use fat_judge::judge_carry;
use fat_walk::{is_file, size_at};
use order::Refusal;

// Copies one part over another of the same length. It is a loop over the bytes, since `copy_from_slice` calls memmove, which an archive for C would then need
// from outside. It compiles to a vector loop, 32 bytes a turn: look for movups in fat_copy::read_sound and fat_copy::write_sound in
// `objdump -d dist/x86_64-unknown-linux-gnu/libmukthiban.a`.
pub fn copy(dst: &mut [u8], src: &[u8])
    requires { length src.now ≡ length dst.old }
    ensures { dst.new ≡ src.now }
{
    for i in 0..src.len() {
        dst[i] = src[i];
    }
}

// Bytes of a file that lie in a row in the data: `len` of them from place `at` on; index `next` names the node after theirs.
#[derive(Clone, Copy)]
struct Stretch {
    at: usize,
    len: usize,
    next: usize,
}

// The bytes of the node at block b from its byte `from` on, no more than wanted.
fn stretch_at(
    table: &[u8],
    block_len: usize,
    n: usize,
    b: usize,
    from: usize,
    want: usize,
) -> Stretch
    requires standing { Standing n table.now b }
    requires block_len_bound { (block_len ≤ 65536) × (from ≤ size_at table.now b * block_len) }
    ensures { StretchOf table.now block_len b from want result.at result.len result.next }
{
    let size = size_at(table, n, b);
    let at = b * block_len + from;
    let len = want.min(size * block_len - from);
    let next = fat_node::next_of(table, b);
    Stretch { at, len, next }
}

// Reads bytes of a chain, from byte `from` of the node that index `index` names on: a copy for each node that they lie in.
fn fetch(
    table: &[u8],
    data: &[u8],
    block_len: usize,
    n: usize,
    index: usize,
    from: usize,
    buf: &mut [u8],
)
    requires carries { Carries n table.now block_len (length buf.old) index from }
    requires fact { Data n (length «data».now) block_len }
    ensures { (c : List Run) (pos : ℕ) → CarriesAt n table.now block_len c pos (length buf.old) index from → buf.new ≡ bytes_at (length buf.old) «data».now block_len (blocks_of c) pos }
{
    let len = buf.len();
    let mut i = index;
    let mut f = from;
    let mut done: usize = 0;
    while done < len {
        let s = stretch_at(table, block_len, n, i - 1, f, len - done);
        let end = done + s.len;
        copy(&mut buf[done..end], &data[s.at..s.at + s.len]);
        done = end;
        f = 0;
        i = s.next;
    }
}

// Writes bytes over a row of bytes of the data, from place at on: each block's share into that block's own part.
fn put_row(data: &mut [u8], block_len: usize, at: usize, buf: &[u8])
    requires { (1 ≤ block_len) × (at + length buf.now ≤ length «data».old) }
    ensures { «data».new ≡ sets «data».old at buf.now }
{
    let len = buf.len();
    let mut i: usize = 0;
    while i < len {
        let a = at + i;
        let share = (len - i).min(block_len - a % block_len);
        copy(&mut data[a..a + share], &buf[i..i + share]);
        i += share;
    }
}

// Writes bytes of a chain, from byte `from` of the node that index `index` names on, node by node.
fn store(
    table: &[u8],
    data: &mut [u8],
    block_len: usize,
    n: usize,
    index: usize,
    from: usize,
    buf: &[u8],
)
    requires carries { Carries n table.now block_len (length buf.now) index from }
    requires fact { Data n (length «data».old) block_len }
    ensures { (c : List Run) (pos : ℕ) → CarriesAt n table.now block_len c pos (length buf.now) index from → «data».new ≡ written buf.now «data».old block_len (blocks_of c) pos }
{
    let len = buf.len();
    let mut i = index;
    let mut f = from;
    let mut done: usize = 0;
    while done < len {
        let s = stretch_at(table, block_len, n, i - 1, f, len - done);
        let end = done + s.len;
        put_row(data, block_len, s.at, &buf[done..end]);
        done = end;
        f = 0;
        i = s.next;
    }
}

// Reads bytes of the file at a block, on a sound table. It is told whether the block begins a file.
pub fn read_told(
    table: &[u8],
    data: &[u8],
    block_len: usize,
    n: usize,
    first_block: usize,
    begins: bool,
    pos: usize,
    buf: &mut [u8],
) -> Result<(), Refusal>
    requires volume { Volume n table.now }
    requires file { (begins ≡ true → File table.now n first_block) × (File table.now n first_block → begins ≡ true) }
    requires fact { Data n (length «data».now) block_len }
    ensures { ReadSound n table.now «data».now block_len first_block pos buf.old (carry_gives result buf.new) }
{
    let first = judge_carry(table, n, block_len, first_block, pos, buf.len(), begins)?;
    fetch(table, data, block_len, n, first.index, first.from, buf);
    Ok(())
}

// The same where it is not told.
pub fn read_sound(
    table: &[u8],
    data: &[u8],
    block_len: usize,
    n: usize,
    first_block: usize,
    pos: usize,
    buf: &mut [u8],
) -> Result<(), Refusal>
    requires volume { Volume n table.now }
    requires fact { Data n (length «data».now) block_len }
    ensures { ReadSound n table.now «data».now block_len first_block pos buf.old (carry_gives result buf.new) }
{
    let begins = is_file(table, n, first_block);
    read_told(table, data, block_len, n, first_block, begins, pos, buf)
}

// Writes bytes of the file at a block, on a sound table. It is told whether the block begins a file.
pub fn write_told(
    table: &[u8],
    data: &mut [u8],
    block_len: usize,
    n: usize,
    first_block: usize,
    begins: bool,
    pos: usize,
    buf: &[u8],
) -> Result<(), Refusal>
    requires volume { Volume n table.now }
    requires file { (begins ≡ true → File table.now n first_block) × (File table.now n first_block → begins ≡ true) }
    requires fact { Data n (length «data».old) block_len }
    ensures { WriteSound n table.now «data».old block_len first_block pos buf.now (carry_gives result «data».new) }
{
    let first = judge_carry(table, n, block_len, first_block, pos, buf.len(), begins)?;
    store(table, data, block_len, n, first.index, first.from, buf);
    Ok(())
}

// The same where it is not told.
pub fn write_sound(
    table: &[u8],
    data: &mut [u8],
    block_len: usize,
    n: usize,
    first_block: usize,
    pos: usize,
    buf: &[u8],
) -> Result<(), Refusal>
    requires volume { Volume n table.now }
    requires fact { Data n (length «data».old) block_len }
    ensures { WriteSound n table.now «data».old block_len first_block pos buf.now (carry_gives result «data».new) }
{
    let begins = is_file(table, n, first_block);
    write_told(table, data, block_len, n, first_block, begins, pos, buf)
}
