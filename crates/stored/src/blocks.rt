// Replays a block call: a record of 408 bytes, and behind it the data and the buffer of a read or a write.
ghost use Rattle.std.specs.Prelude.{◌≡◌, length};

use crate::read;
use ask_blocks::{Lent, Request, Said};

// Whether the stored answer is that one, with the entry and the rule that a broken table names.
fn answers(kept: &[u8], said: Said) -> bool
    requires { length kept.now ≡ 408 }
{
    if words::get_u32(kept, 52) != said.number {
        return false;
    }
    if read::number(kept, 56) != said.one {
        return false;
    }
    if read::number(kept, 64) != said.two {
        return false;
    }
    if read::number(kept, 72) != said.entry {
        return false;
    }
    words::get_u32(kept, 80) == said.rule
}

// Makes the call.
fn call(
    table: &mut [u8],
    data: &mut [u8],
    work: &mut [u32],
    list: &mut [u32],
    buf: &mut [u8],
    kept: &[u8],
) -> Said
    requires { length kept.now ≡ 408 }
{
    let request = Request {
        call: words::get_u32(kept, 0).into(),
        block_len: read::size(kept, 24),
        first: read::size(kept, 8),
        count: read::size(kept, 16),
    };
    let t = read::room(kept, 32).min(table.len());
    let d = read::room(kept, 36).min(data.len());
    let b = read::room(kept, 40).min(buf.len());
    let w = read::room(kept, 44).min(work.len());
    let l = read::room(kept, 48).min(list.len());
    let lent = Lent {
        table: &mut table[..t],
        data: &mut data[..d],
        work: &mut work[..w],
        list: &mut list[..l],
        buf: &mut buf[..b],
    };
    ask_blocks::ask(request, lent)
}

// Makes the call: whether its answer is the stored one.
fn ran(
    table: &mut [u8],
    data: &mut [u8],
    work: &mut [u32],
    list: &mut [u32],
    buf: &mut [u8],
    kept: &[u8],
) -> bool
    requires { length kept.now ≡ 408 }
{
    let said = call(table, data, work, list, buf, kept);
    answers(kept, said)
}

// Fills what is lent with what stood in it before the call.
fn fill(table: &mut [u8], work: &mut [u32], list: &mut [u32], kept: &[u8])
    requires { length kept.now ≡ 408 }
{
    read::fill(table, &kept[88..160]);
    read::fill_list(work, &kept[160..208]);
    read::fill_list(list, &kept[208..248]);
}

// A read or a write has the data before and after, then the buffer before and after, behind the record.
fn pieces(data: &mut [u8], data_after: &mut [u8], buf: &mut [u8], buf_after: &mut [u8], kept: &[u8])
    requires { length kept.now ≡ 408 }
{
    let which = words::get_u32(kept, 0);
    if which != 6 && which != 7 {
        return;
    }
    let d = read::room(kept, 36);
    let b = read::room(kept, 40);
    read::piece(data, d);
    read::piece(data_after, d);
    read::piece(buf, b);
    read::piece(buf_after, b);
}

// Whether all that was lent is what it was after the call.
fn after(table: &[u8], work: &[u32], list: &[u32], kept: &[u8]) -> bool
    requires { length kept.now ≡ 408 }
{
    if !read::holds(table, &kept[248..320]) {
        return false;
    }
    if !read::holds_list(work, &kept[320..368]) {
        return false;
    }
    read::holds_list(list, &kept[368..408])
}

// The same of the data and the buffer.
fn carried(data: &[u8], data_after: &[u8], buf: &[u8], buf_after: &[u8]) -> bool {
    if !read::holds(data, data_after) {
        return false;
    }
    read::holds(buf, buf_after)
}

// Whether the call of a record gives what is stored, on data and buffers that are filled.
fn on(
    data: &mut [u8],
    data_after: &[u8],
    buf: &mut [u8],
    buf_after: &[u8],
    table: &mut [u8],
    work: &mut [u32],
    list: &mut [u32],
    kept: &[u8],
) -> bool
    requires { length kept.now ≡ 408 }
{
    fill(table, work, list, kept);
    if !ran(table, data, work, list, buf, kept) {
        return false;
    }
    if !after(table, work, list, kept) {
        return false;
    }
    carried(data, data_after, buf, buf_after)
}

// The same on lists of its own.
fn replay(
    data: &mut [u8],
    data_after: &mut [u8],
    buf: &mut [u8],
    buf_after: &mut [u8],
    kept: &[u8],
) -> bool
    requires { length kept.now ≡ 408 }
{
    let mut table = [0u8; 72];
    let mut work = [0u32; 12];
    let mut list = [0u32; 10];
    pieces(data, data_after, buf, buf_after, kept);
    on(
        data, data_after, buf, buf_after, &mut table, &mut work, &mut list, kept,
    )
}

// Whether the call of a record gives what is stored.
fn whole(kept: &[u8]) -> bool {
    if kept.len() != 408 {
        return false;
    }
    let mut data = [0u8; 4096];
    let mut data_after = [0u8; 4096];
    let mut buf = [0u8; 2052];
    let mut buf_after = [0u8; 2052];
    replay(&mut data, &mut data_after, &mut buf, &mut buf_after, kept)
}

// Reads the next record, and says whether its call gives what is stored.
pub fn next() -> bool {
    let mut kept = [0u8; 408];
    let got = io::read_full(0, &mut kept);
    if got != 408 {
        return false;
    }
    whole(&kept)
}
