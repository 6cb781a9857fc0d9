// The tree calls that change tables or open records. The number of records stands in the last place of the open records; where there is no place nothing is
// asked.
use crate::{Change, Request, Said};

// A call on directories.
pub fn on_dirs(
    change: Change,
    request: &Request,
    dh: &mut [u8],
    d: &mut [u8],
    fh: &[u8],
    f: &[u8],
    work: &mut [u32],
    opens: &mut [u32],
) -> Said {
    let Request {
        inode,
        parent,
        name,
        ..
    } = *request;
    let Some((last, list)) = opens.split_last_mut() else {
        return Said::UNASKED;
    };
    let mut opened = *last as usize;
    let said = match change {
        Change::Make => tree::change::make_dir(
            dh,
            d,
            fh,
            f,
            work,
            list,
            &mut opened,
            parent,
            &name,
            &request.padding(),
        )
        .into(),
        Change::Rename => tree::change::rename_dir(
            dh, d, fh, f, work, list, opened, inode, parent, &name,
        ).into(),
        Change::Delete => {
            tree::change::delete_dir(dh, d, fh, f, work, list, &mut opened, inode).into()
        }
        Change::SetCarried => {
            tree::carry::set_carried_dir(dh, d, fh, f, work, inode, request.padding()).into()
        }
        Change::Open => tree::opens::open_dir(
            dh,
            d,
            fh,
            f,
            work,
            list,
            &mut opened,
            inode,
            request.want(),
        ).into(),
        Change::Close => tree::opens::close_dir(
            dh,
            d,
            fh,
            f,
            work,
            list,
            &mut opened,
            inode,
            request.want(),
        ).into(),
    };
    *last = u32::try_from(opened).unwrap_or(u32::MAX);
    said
}

// A call on files.
pub fn on_files(
    change: Change,
    request: &Request,
    dh: &[u8],
    d: &mut [u8],
    fh: &mut [u8],
    f: &mut [u8],
    work: &mut [u32],
    opens: &mut [u32],
) -> Said {
    let Request {
        inode,
        parent,
        name,
        carried,
        ..
    } = *request;
    let Some((last, list)) = opens.split_last_mut() else {
        return Said::UNASKED;
    };
    let mut opened = *last as usize;
    let said = match change {
        Change::Make => tree::change::make_file(
            dh,
            d,
            fh,
            f,
            work,
            list,
            &mut opened,
            parent,
            &name,
            &carried,
        )
        .into(),
        Change::Rename => tree::change::rename_file(
            dh, d, fh, f, work, list, opened, inode, parent, &name,
        ).into(),
        Change::Delete => {
            tree::change::delete_file(dh, d, fh, f, work, list, &mut opened, inode).into()
        }
        Change::SetCarried => {
            tree::carry::set_carried_file(dh, d, fh, f, work, inode, carried).into()
        }
        Change::Open => tree::opens::open_file(
            dh,
            d,
            fh,
            f,
            work,
            list,
            &mut opened,
            inode,
            request.want(),
        ).into(),
        Change::Close => tree::opens::close_file(
            dh,
            d,
            fh,
            f,
            work,
            list,
            &mut opened,
            inode,
            request.want(),
        ).into(),
    };
    *last = u32::try_from(opened).unwrap_or(u32::MAX);
    said
}
