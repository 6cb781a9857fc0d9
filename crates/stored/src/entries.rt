// Replays a tree call: a record of 1,456 bytes.
ghost use Rattle.std.specs.Prelude.{◌≡◌, length};

use crate::read;
use ask_tree::{Lent, Request, Said};
use tree_promises::Kind;

fn kind(kept: &[u8]) -> Kind
    requires { length kept.now ≡ 1456 }
{
    if words::get_u32(kept, 8) == 0 {
        return Kind::Directory;
    }
    Kind::File
}

// The name that is handed over.
fn name(kept: &[u8]) -> [u8; 16]
    requires { length kept.now ≡ 1456 }
{
    let mut name = [0u8; 16];
    read::fill(&mut name, &kept[104..120]);
    name
}

// The carried bytes that are handed over; a directory takes the first four.
fn carried(kept: &[u8]) -> [u8; 20]
    requires { length kept.now ≡ 1456 }
{
    let mut bytes = [0u8; 20];
    read::fill(&mut bytes, &kept[120..140]);
    bytes
}

// Whether the stored fields are those of an answer.
fn fields(kept: &[u8], said: Said) -> bool
    requires { length kept.now ≡ 1456 }
{
    if read::number(kept, 72) != said.fields[0] {
        return false;
    }
    if read::number(kept, 80) != said.fields[1] {
        return false;
    }
    if read::number(kept, 88) != said.fields[2] {
        return false;
    }
    read::number(kept, 96) == said.fields[3]
}

// Whether the stored carried bytes are those of an answer.
fn carries(kept: &[u8], said: Said) -> bool
    requires { length kept.now ≡ 1456 }
{
    if read::number(kept, 140) != said.fields[0] {
        return false;
    }
    if read::number(kept, 148) != said.fields[1] {
        return false;
    }
    read::wide(words::get_u32(kept, 156)) == said.fields[2]
}

// Whether the sixteen bytes of a table at an offset are those of an answer.
fn named(table: &[u8], offset: usize, said: Said) -> bool {
    if said.fields[0] != 16 {
        return false;
    }
    if table.len() < 16 {
        return false;
    }
    if table.len() - 16 < offset {
        return false;
    }
    if read::number(table, offset) != said.fields[1] {
        return false;
    }
    read::number(table, offset + 8) == said.fields[2]
}

// Whether an answer shows the name that the record says: none where the call was refused, else the bytes of its table at the stored offset.
fn shows(d: &[u8], f: &[u8], kept: &[u8], said: Said) -> bool
    requires { length kept.now ≡ 1456 }
{
    if said.number != 0 {
        return said.fields[0] == 0;
    }
    let offset = read::size(kept, 72);
    if words::get_u32(kept, 8) == 0 {
        return named(d, offset, said);
    }
    named(f, offset, said)
}

// Whether the stored answer is that one.
fn answers(d: &[u8], f: &[u8], kept: &[u8], said: Said) -> bool
    requires { length kept.now ≡ 1456 }
{
    if words::get_u32(kept, 52) != said.number {
        return false;
    }
    let which = words::get_u32(kept, 0);
    match which {
        8 => shows(d, f, kept, said),
        10 => carries(kept, said),
        _ => fields(kept, said),
    }
}

// Makes the call.
fn call(
    dh: &mut [u8],
    d: &mut [u8],
    fh: &mut [u8],
    f: &mut [u8],
    work: &mut [u32],
    dir_opens: &mut [u32],
    file_opens: &mut [u32],
    list: &mut [u32],
    kept: &[u8],
) -> Said
    requires { length kept.now ≡ 1456 }
{
    let request = Request {
        call: words::get_u32(kept, 0).into(),
        kind: kind(kept),
        inode: words::get_u32(kept, 12),
        parent: words::get_u32(kept, 16),
        name: name(kept),
        carried: carried(kept),
        dir_max: read::size(kept, 56),
        file_max: read::size(kept, 64),
    };
    let a = read::room(kept, 20).min(dh.len());
    let b = read::room(kept, 24).min(d.len());
    let c = read::room(kept, 28).min(fh.len());
    let e = read::room(kept, 32).min(f.len());
    let w = read::room(kept, 36).min(work.len());
    let o = read::room(kept, 40).min(dir_opens.len());
    let p = read::room(kept, 44).min(file_opens.len());
    let l = read::room(kept, 48).min(list.len());
    let lent = Lent {
        dir_hash: &mut dh[..a],
        dir_table: &mut d[..b],
        file_hash: &mut fh[..c],
        file_table: &mut f[..e],
        work: &mut work[..w],
        dir_opens: &mut dir_opens[..o],
        file_opens: &mut file_opens[..p],
        list: &mut list[..l],
    };
    ask_tree::ask(&request, lent)
}

// Fills the tables with what stood in them before the call.
fn fill(dh: &mut [u8], d: &mut [u8], fh: &mut [u8], f: &mut [u8], kept: &[u8])
    requires { length kept.now ≡ 1456 }
{
    read::fill(dh, &kept[160..188]);
    read::fill(d, &kept[188..392]);
    read::fill(fh, &kept[392..420]);
    read::fill(f, &kept[420..664]);
}

// Fills the lists with what stood in them before the call.
fn fill_lists(
    work: &mut [u32],
    dir_opens: &mut [u32],
    file_opens: &mut [u32],
    list: &mut [u32],
    kept: &[u8],
)
    requires { length kept.now ≡ 1456 }
{
    read::fill_list(work, &kept[664..720]);
    read::fill_list(dir_opens, &kept[720..748]);
    read::fill_list(file_opens, &kept[748..776]);
    read::fill_list(list, &kept[776..808]);
}

// Whether the tables hold what stood in them after the call.
fn holds(dh: &[u8], d: &[u8], fh: &[u8], f: &[u8], kept: &[u8]) -> bool
    requires { length kept.now ≡ 1456 }
{
    if !read::holds(dh, &kept[808..836]) {
        return false;
    }
    if !read::holds(d, &kept[836..1040]) {
        return false;
    }
    if !read::holds(fh, &kept[1040..1068]) {
        return false;
    }
    read::holds(f, &kept[1068..1312])
}

// Whether the lists hold what stood in them after the call.
fn holds_lists(
    work: &[u32],
    dir_opens: &[u32],
    file_opens: &[u32],
    list: &[u32],
    kept: &[u8],
) -> bool
    requires { length kept.now ≡ 1456 }
{
    if !read::holds_list(work, &kept[1312..1368]) {
        return false;
    }
    if !read::holds_list(dir_opens, &kept[1368..1396]) {
        return false;
    }
    if !read::holds_list(file_opens, &kept[1396..1424]) {
        return false;
    }
    read::holds_list(list, &kept[1424..1456])
}

// Whether the answer and all that was lent are what is stored.
fn after(
    dh: &[u8],
    d: &[u8],
    fh: &[u8],
    f: &[u8],
    work: &[u32],
    dir_opens: &[u32],
    file_opens: &[u32],
    list: &[u32],
    kept: &[u8],
    said: Said,
) -> bool {
    if kept.len() != 1456 {
        return false;
    }
    if !answers(d, f, kept, said) {
        return false;
    }
    if !holds(dh, d, fh, f, kept) {
        return false;
    }
    holds_lists(work, dir_opens, file_opens, list, kept)
}

// Makes the call, and compares.
fn ran(
    dh: &mut [u8],
    d: &mut [u8],
    fh: &mut [u8],
    f: &mut [u8],
    work: &mut [u32],
    dir_opens: &mut [u32],
    file_opens: &mut [u32],
    list: &mut [u32],
    kept: &[u8],
) -> bool
    requires { length kept.now ≡ 1456 }
{
    let said = call(dh, d, fh, f, work, dir_opens, file_opens, list, kept);
    after(dh, d, fh, f, work, dir_opens, file_opens, list, kept, said)
}

// Fills the lists, makes the call, and compares.
fn on_lists(
    dh: &mut [u8],
    d: &mut [u8],
    fh: &mut [u8],
    f: &mut [u8],
    work: &mut [u32],
    dir_opens: &mut [u32],
    file_opens: &mut [u32],
    list: &mut [u32],
    kept: &[u8],
) -> bool
    requires { length kept.now ≡ 1456 }
{
    fill_lists(work, dir_opens, file_opens, list, kept);
    ran(dh, d, fh, f, work, dir_opens, file_opens, list, kept)
}

// Fills what is lent, makes the call, and compares.
fn on(
    dh: &mut [u8],
    d: &mut [u8],
    fh: &mut [u8],
    f: &mut [u8],
    work: &mut [u32],
    dir_opens: &mut [u32],
    file_opens: &mut [u32],
    list: &mut [u32],
    kept: &[u8],
) -> bool
    requires { length kept.now ≡ 1456 }
{
    fill(dh, d, fh, f, kept);
    on_lists(dh, d, fh, f, work, dir_opens, file_opens, list, kept)
}

// Whether the call of a record gives what is stored.
fn replay(kept: &[u8]) -> bool {
    if kept.len() != 1456 {
        return false;
    }
    let mut dh = [0u8; 28];
    let mut d = [0u8; 204];
    let mut fh = [0u8; 28];
    let mut f = [0u8; 244];
    let mut work = [0u32; 14];
    let mut dir_opens = [0u32; 7];
    let mut file_opens = [0u32; 7];
    let mut list = [0u32; 8];
    on(
        &mut dh,
        &mut d,
        &mut fh,
        &mut f,
        &mut work,
        &mut dir_opens,
        &mut file_opens,
        &mut list,
        kept,
    )
}

// Reads the next record, and says whether its call gives what is stored.
pub fn next() -> bool {
    let mut kept = [0u8; 1456];
    let got = io::read_full(0, &mut kept);
    if got != 1456 {
        return false;
    }
    replay(&kept)
}
