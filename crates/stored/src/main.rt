// Replays the stored answers of block calls, then of tree calls, and writes how many came out as they are stored. oracle/stored/README.md says what the
// bytes mean.
#![tactic(auto)]

mod blocks;
mod entries;
mod read;

// The marks of a file's two headers, MUKB and MUKT.
const BLOCKS: u32 = 1112233293;

const ENTRIES: u32 = 1414223181;

// The third word of a header: how many records follow, none where the header is another.
fn third(head: &[u8], mark: u32, width: u32) -> u32 {
    if head.len() < 16 {
        return 0;
    }
    if words::get_u32(head, 0) != mark {
        return 0;
    }
    if words::get_u32(head, 4) != 2 {
        return 0;
    }
    if words::get_u32(head, 12) != width {
        return 0;
    }
    words::get_u32(head, 8)
}

// Reads a header, and says how many records follow.
fn records(mark: u32, width: u32) -> u32 {
    let mut head = [0u8; 16];
    let got = io::read_full(0, &mut head);
    if got != 16 {
        return 0;
    }
    third(&head, mark, width)
}

// Reads the next record of a mark, and says whether its call gives what is stored.
fn next(mark: u32) -> bool {
    if mark == BLOCKS {
        return blocks::next();
    }
    entries::next()
}

// One more where a record came out as it is stored.
fn one_more(count: u32, same: bool) -> u32 {
    if same {
        return std::num::wrapping_add_u32(count, 1);
    }
    count
}

// How many of so many records came out as they are stored.
fn count(mark: u32, records: u32) -> u32 {
    let mut left = records;
    let mut same: u32 = 0;
    while left > 0 {
        left -= 1;
        same = one_more(same, next(mark));
    }
    same
}

// Replays the records of a mark, and writes their number and how many came out.
fn replay(what: &[u8], mark: u32, width: u32) {
    let all = records(mark, width);
    let same = count(mark, all);
    io::print_decimal(1, all as u64);
    io::write_all(1, what);
    io::print_decimal(1, same as u64);
    io::write_all(1, b" came out as they are stored\n");
}

fn main() {
    replay(b" stored block calls\n", BLOCKS, 408);
    replay(b" stored tree calls\n", ENTRIES, 1456);
}
