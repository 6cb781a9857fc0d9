// The tree calls that change no table.
use crate::said::fields_of;
use crate::{Look, Request, Said};
use tree_promises::Kind;

// The name with the answer beside it, which the call itself does not give: its length, and its sixteen bytes.
fn name(request: &Request, dh: &[u8], d: &[u8], fh: &[u8], f: &[u8], work: &mut [u32]) -> Said {
    let Request { kind, inode, .. } = *request;
    let answer = tree::name::name_answer(dh, d, fh, f, work, kind, inode);
    let name = tree::name::name(dh, d, fh, f, work, kind, inode);
    let [low, high, ..] = fields_of(name);
    Said::new(&answer, [name.len() as u64, low, high, 0])
}

// A call that changes no table.
pub fn ask(
    look: Look,
    request: &Request,
    dh: &[u8],
    d: &[u8],
    fh: &[u8],
    f: &[u8],
    work: &mut [u32],
    list: &mut [u32],
) -> Said {
    let Request {
        kind,
        inode,
        parent,
        ..
    } = *request;
    match (look, kind) {
        (Look::Test, _) => tree_test::test(dh, d, fh, f, work).into(),
        (Look::Lookup, Kind::Directory) => {
            tree::look::lookup_dir(dh, d, fh, f, work, parent, &request.name).into()
        }
        (Look::Lookup, Kind::File) => {
            tree::look::lookup_file(dh, d, fh, f, work, parent, &request.name).into()
        }
        (Look::List, Kind::Directory) => {
            tree::look::list_dirs(dh, d, fh, f, work, inode, list).into()
        }
        (Look::List, Kind::File) => {
            tree::look::list_files(dh, d, fh, f, work, inode, list).into()
        }
        (Look::Stat, _) => tree::look::stat(dh, d, fh, f, work).into(),
        (Look::Name, _) => name(request, dh, d, fh, f, work),
        (Look::NameAnswer, _) => { tree::name::name_answer(dh, d, fh, f, work, kind, inode).into() }
        (Look::Carried, Kind::Directory) => {
            tree::carry::carried_dir(dh, d, fh, f, work, inode).into()
        }
        (Look::Carried, Kind::File) => {
            tree::carry::carried_file(dh, d, fh, f, work, inode).into()
        }
        (Look::Aged, _) => tree_aged::aged(dh, d, fh, f, work).into(),
    }
}
