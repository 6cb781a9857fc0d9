// Read and write by a file's block list, for a side that opened it once: what a call costs depends on the bytes that it carries, not on the file's length.
#![tactic(auto)]

ghost use Rattle.std.specs.Prelude.{◌≡◌, ◌+◌, ◌*◌, ◌/◌, ◌≤◌, ◌<◌, length};
ghost use Rattle.fat_walk.specs.Volume.{Data};
ghost use Rattle.fat_promises.specs.Calls.{carry_gives};
ghost use Rattle.fat_promises.specs.Blocks.{bytes_at, written};
ghost use Rattle.order.specs.Tells.{Tells};
ghost use Rattle.fat_listed.specs.Listed.{Uneven, Unfit, Foreign, listed_tests, write_tests, ReadBlocksPromise, WriteBlocksPromise};
ghost use Rattle.fat_listed.specs.Shares.{Domestic, ShareOf, Touched, JudgeSays};

use fat_copy::copy;
use order::Refusal;

// Whether the data are not a whole number of blocks.
fn uneven(data_len: usize, block_len: usize) -> bool
    ensures { Tells (Uneven data_len block_len) result }
{
    if block_len == 0 {
        return data_len != 0;
    }
    data_len % block_len != 0
}

// Whether the block length or the number of blocks is out of its bounds.
fn unfit(data_len: usize, block_len: usize) -> bool
    ensures { Tells (Unfit data_len block_len) result }
{
    if block_len < 1 || 65536 < block_len {
        return true;
    }
    let n = data_len / block_len;
    n < 1 || 1000000 < n
}

// Whether so many bytes from pos on pass the end of so many blocks. Nothing wraps, whatever the numbers.
fn passes(count: usize, block_len: usize, pos: usize, len: usize) -> bool
    requires { (1 ≤ block_len) × (block_len ≤ 65536) }
    ensures { Tells (count * block_len < pos + len) result }
{
    let before = pos / block_len;
    if count < before {
        return true;
    }
    let whole = len / block_len;
    if count - before < whole {
        return true;
    }
    let left = (count - before - whole).min(2);
    left * block_len < pos % block_len + len % block_len
}

// Into how many of two blocks their first `part` bytes reach: 0, 1 or 2, told without a division.
fn spanned(part: usize, block_len: usize) -> usize
    requires { (1 ≤ block_len) × (part ≤ 2 * block_len) }
    ensures { (part ≤ result * block_len) × (result * block_len < part + block_len) }
{
    if part == 0 {
        return 0;
    }
    if part <= block_len {
        return 1;
    }
    2
}

// The listed blocks that len bytes from pos on lie in.
fn touched(list: &[u32], block_len: usize, pos: usize, len: usize) -> &[u32]
    requires { (1 ≤ block_len) × (block_len ≤ 65536) × (pos + len ≤ length list.now * block_len) }
    ensures { Touched list.now block_len pos len result.now }
{
    let first = pos / block_len;
    if len == 0 {
        return &list[first..first];
    }
    let count = len / block_len + spanned(pos % block_len + len % block_len, block_len);
    &list[first..first + count]
}

// Whether a block that the bytes lie in is at or over n.
fn foreign(list: &[u32], n: usize, block_len: usize, pos: usize, len: usize) -> bool
    requires { (1 ≤ block_len) × (block_len ≤ 65536) × (pos + len ≤ length list.now * block_len) }
    ensures { Tells (Foreign n list.now block_len pos len) result }
{
    touched(list, block_len, pos, len)
        .iter()
        .any(|&b| n <= b as usize)
}

// The tests of read_blocks, in order: sizes, the end of the list, the blocks that the bytes lie in.
fn judge(
    data_len: usize,
    block_len: usize,
    list: &[u32],
    pos: usize,
    len: usize,
) -> Result<(), Refusal>
    ensures { JudgeSays (listed_tests data_len block_len list.now pos len) result }
{
    if uneven(data_len, block_len) {
        return Err(Refusal::SizeMismatch);
    }
    if unfit(data_len, block_len) {
        return Err(Refusal::InvalidValue);
    }
    if passes(list.len(), block_len, pos, len) {
        return Err(Refusal::OutOfBound);
    }
    let n = data_len / block_len;
    if foreign(list, n, block_len, pos, len) {
        return Err(Refusal::InvalidValue);
    }
    Ok(())
}

// The tests of write_blocks: the same, and after the sizes that the block length is in use.
fn judge_write(
    data_len: usize,
    block_len: usize,
    list: &[u32],
    pos: usize,
    len: usize,
) -> Result<(), Refusal>
    ensures { JudgeSays (write_tests data_len block_len list.now pos len) result }
{
    if fat_test::in_use(block_len) {
        return judge(data_len, block_len, list, pos, len);
    }
    if uneven(data_len, block_len) {
        return Err(Refusal::SizeMismatch);
    }
    if unfit(data_len, block_len) {
        return Err(Refusal::InvalidValue);
    }
    Err(Refusal::ReadOnlyVolume)
}

// Bytes of one block: len of them, from place at of the data on.
#[derive(Clone, Copy)]
struct Share {
    at: usize,
    len: usize,
}

// The share of block b, from its byte `from` on: as many bytes as wanted, or all that it has.
fn share_of(b: u32, block_len: usize, from: usize, want: usize) -> Share
    requires { (b ≤ 1000000) × (block_len ≤ 65536) × (from < block_len) }
    ensures { ShareOf block_len b from want result.at result.len }
{
    let at = b as usize * block_len + from;
    let len = want.min(block_len - from);
    Share { at, len }
}

// Reads bytes of the listed blocks, from byte pos on: a copy for each block that they lie in.
fn fetch(data: &[u8], n: usize, block_len: usize, list: &[u32], pos: usize, buf: &mut [u8])
    requires fact { Data n (length «data».now) block_len × (n ≤ 1000000) }
    requires domestic { Domestic n list.now block_len pos (length buf.old) }
    ensures { buf.new ≡ bytes_at (length buf.old) «data».now block_len list.now pos }
{
    let len = buf.len();
    let blocks = touched(list, block_len, pos, len);
    let mut from = pos % block_len;
    let mut done: usize = 0;
    for &b in blocks {
        let s = share_of(b, block_len, from, len - done);
        let end = done + s.len;
        copy(&mut buf[done..end], &data[s.at..s.at + s.len]);
        done = end;
        from = 0;
    }
}

// Writes bytes into the listed blocks, from byte pos on: each block's share into that block's own part, in the list's order.
fn store(data: &mut [u8], n: usize, block_len: usize, list: &[u32], pos: usize, buf: &[u8])
    requires fact { Data n (length «data».old) block_len × (n ≤ 1000000) }
    requires domestic { Domestic n list.now block_len pos (length buf.now) }
    ensures { «data».new ≡ written buf.now «data».old block_len list.now pos }
{
    let len = buf.len();
    let blocks = touched(list, block_len, pos, len);
    let mut from = pos % block_len;
    let mut done: usize = 0;
    for &b in blocks {
        let s = share_of(b, block_len, from, len - done);
        let upto = done + s.len;
        copy(&mut data[s.at..s.at + s.len], &buf[done..upto]);
        done = upto;
        from = 0;
    }
}

// Reads bytes of the listed blocks, from byte pos on, as many as the buffer has. Answers its number alone; SizeMismatch where the data are not a whole
// number of blocks, InvalidValue for sizes out of bounds, OutOfBound where the bytes pass the list's end, then InvalidValue for a block that the bytes
// lie in and the data do not have. Refused, the buffer stays as it was.
pub fn read_blocks(
    data: &[u8],
    block_len: usize,
    list: &[u32],
    pos: usize,
    buf: &mut [u8],
) -> Result<(), Refusal>
    ensures { ReadBlocksPromise «data».now block_len list.now pos buf.old (carry_gives result buf.new) }
{
    judge(data.len(), block_len, list, pos, buf.len())?;
    let n = data.len() / block_len;
    fetch(data, n, block_len, list, pos, buf);
    Ok(())
}

// Writes the buffer's bytes into the listed blocks, from byte pos on, byte after byte: where the list names a block twice, the later byte stays. Answers
// its number alone, refused as read_blocks is, and after the sizes with ReadOnlyVolume where the block length is not in use; then the data stay as they
// were.
pub fn write_blocks(
    data: &mut [u8],
    block_len: usize,
    list: &[u32],
    pos: usize,
    buf: &[u8],
) -> Result<(), Refusal>
    ensures { WriteBlocksPromise «data».old block_len list.now pos buf.now (carry_gives result «data».new) }
{
    judge_write(data.len(), block_len, list, pos, buf.len())?;
    let n = data.len() / block_len;
    store(data, n, block_len, list, pos, buf);
    Ok(())
}
