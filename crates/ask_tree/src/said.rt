// What the calls answer.
use order::Refusal;
use tree_aged::Entry;
use tree_look::{Looked, MetaStat};

// What a call answers: the number of RULES 2.1, and the other fields. Bytes that a call answers with are fields of eight bytes, the low one first.
#[derive(Clone, Copy)]
pub struct Said {
    pub number: u32,
    pub fields: [u64; 4],
}

impl Said {
    // What is said where nothing is asked.
    pub const UNASKED: Said = Said {
        number: 255,
        fields: [0; 4],
    };

    pub fn new<T>(answer: &Result<T, Refusal>, fields: [u64; 4]) -> Said {
        Said {
            number: order::number(answer),
            fields,
        }
    }
}

// Bytes as fields.
pub fn fields_of(bytes: &[u8]) -> [u64; 4] {
    let mut fields = [0; 4];
    for (field, part) in fields.iter_mut().zip(bytes.chunks(8)) {
        *field = part
            .iter()
            .rev()
            .fold(0, |x, byte| x << 8 | u64::from(*byte));
    }
    fields
}

impl From<Result<(), Refusal>> for Said {
    ghost from_gives = { λ _ _. Unit {0} };

    fn from(r: Result<(), Refusal>) -> Said {
        Said::new(&r, [0; 4])
    }
}

// The inode of make.
impl From<Result<u32, Refusal>> for Said {
    ghost from_gives = { λ _ _. Unit {0} };

    fn from(r: Result<u32, Refusal>) -> Said {
        Said::new(&r, [u64::from(r.unwrap_or(0)), 0, 0, 0])
    }
}

// The count of list.
impl From<Result<usize, Refusal>> for Said {
    ghost from_gives = { λ _ _. Unit {0} };

    fn from(r: Result<usize, Refusal>) -> Said {
        Said::new(&r, [r.unwrap_or(0) as u64, 0, 0, 0])
    }
}

// Carried bytes.
impl<const N: usize> From<Result<[u8; N], Refusal>> for Said {
    ghost from_gives = { λ _ _. Unit {0} };

    fn from(r: Result<[u8; N], Refusal>) -> Said {
        let bytes = r.unwrap_or([0; N]);
        Said::new(&r, fields_of(&bytes))
    }
}

// The inode, and how many entries were compared.
impl From<Looked> for Said {
    ghost from_gives = { λ _ _. Unit {0} };

    fn from(l: Looked) -> Said {
        let inode = l.inode.unwrap_or(0);
        Said::new(&l.inode, [u64::from(inode), u64::from(l.compared), 0, 0])
    }
}

// The total and the free entries of directories, then of files.
impl From<Result<MetaStat, Refusal>> for Said {
    ghost from_gives = { λ _ _. Unit {0} };

    fn from(r: Result<MetaStat, Refusal>) -> Said {
        let fields = match r {
            Ok(stat) => [
                stat.dir_total as u64,
                stat.dir_free as u64,
                stat.file_total as u64,
                stat.file_free as u64,
            ],
            Err(_) => [0; 4],
        };
        Said::new(&r, fields)
    }
}

// The table and the inode.
impl From<Result<Option<Entry>, Refusal>> for Said {
    ghost from_gives = { λ _ _. Unit {0} };

    fn from(r: Result<Option<Entry>, Refusal>) -> Said {
        let fields = match r {
            Ok(Some(x)) => [
                u64::from(tree_aged::table_number(x.kind)),
                u64::from(x.inode),
                0,
                0,
            ],
            _ => [0; 4],
        };
        Said::new(&r, fields)
    }
}
