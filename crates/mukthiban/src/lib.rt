// The C interface: every call once, under the name that include/mukthiban.h declares. An export gives the call's own answer with its number in the
// place of its name, and promises what the call promises: there is an answer with that number and those fields of which the call's promise holds.
#![tactic(auto)]

mod blocks;
mod by_list;
mod change;
mod demo;
mod first;
mod look;
mod map;
mod merge;
mod name;
mod opens;
mod plan;
mod salvages;
mod tested_blocks;
mod tested_carried;
mod tested_change;
mod tested_look;
mod tested_opens;
mod tested_volume;
mod trees;
mod version;
mod volume;

use fat_test::Counts;
use order::{Fault, Refusal};
use salvage::Walked;
use tree_aged::Entry;
use tree_look::{Looked, MetaStat};

// The answer of both formats, of read and write by a list, and of a tree call that gives nothing else.
#[repr(C)]
#[derive(Clone, Copy)]
pub struct Plain {
    pub answer: u32,
}

impl From<Result<(), Refusal>> for Plain {
    ghost use Rattle.std.specs.Prelude.{◌≡◌};
    ghost use Rattle.order.specs.Answer.{number_of};

    ghost from_gives = { λ r p. p.answer ≡ number_of r };

    fn from(r: Result<(), Refusal>) -> Plain {
        Plain {
            answer: order::number(&r),
        }
    }
}

// The answer of a block call that gives nothing else. Here and in the next three, entry and rule say where the block table is broken (RULES 3.6), and are
// 0 with every other number than 4.
#[repr(C)]
#[derive(Clone, Copy)]
pub struct Answered {
    pub answer: u32,
    pub entry: usize,
    pub rule: u32,
}

impl From<Result<(), Refusal>> for Answered {
    ghost use Rattle.std.specs.Prelude.{◌≡◌};
    ghost use Rattle.order.specs.Answer.{fault, fault_in, number_of};

    ghost from_gives = { λ r a. (a.answer ≡ number_of r) × (fault a.entry a.rule ≡ fault_in r) };

    fn from(r: Result<(), Refusal>) -> Answered {
        let found = order::broken_at(&r);
        Answered {
            answer: order::number(&r),
            entry: found.entry,
            rule: found.rule,
        }
    }
}

// The free blocks of a block table, and its files.
#[repr(C)]
#[derive(Clone, Copy)]
pub struct Tested {
    pub answer: u32,
    pub free: usize,
    pub files: usize,
    pub entry: usize,
    pub rule: u32,
}

impl From<Result<Counts, Refusal>> for Tested {
    ghost use Rattle.std.specs.Prelude.{◌≡◌};
    ghost use Rattle.order.specs.Answer.{answer_of, fault, fault_in, number_of};
    ghost use Rattle.fat_test.specs.Promise.{tested, tested_by};

    ghost from_gives = { λ r t.
        (t.answer ≡ number_of (answer_of r))
        × (fault t.entry t.rule ≡ fault_in (answer_of r))
        × (tested (answer_of r) t.free t.files ≡ tested_by r) };

    fn from(r: Result<Counts, Refusal>) -> Tested {
        let found = order::broken_at(&r);
        let counts = r.unwrap_or(Counts { free: 0, files: 0 });
        Tested {
            answer: order::number(&r),
            free: counts.free,
            files: counts.files,
            entry: found.entry,
            rule: found.rule,
        }
    }
}

// The first block of the file that create made.
#[repr(C)]
#[derive(Clone, Copy)]
pub struct Created {
    pub answer: u32,
    pub first_block: usize,
    pub entry: usize,
    pub rule: u32,
}

impl From<Result<usize, Refusal>> for Created {
    ghost use Rattle.std.specs.Prelude.{◌≡◌};
    ghost use Rattle.std.specs.Result.{result_unwrap_or};
    ghost use Rattle.order.specs.Answer.{answer_of, fault, fault_in, number_of};

    ghost from_gives = { λ r c.
        (c.answer ≡ number_of (answer_of r))
        × (fault c.entry c.rule ≡ fault_in (answer_of r))
        × (c.first_block ≡ result_unwrap_or r 0) };

    fn from(r: Result<usize, Refusal>) -> Created {
        let found = order::broken_at(&r);
        Created {
            answer: order::number(&r),
            first_block: r.unwrap_or(0),
            entry: found.entry,
            rule: found.rule,
        }
    }
}

// The inode of the entry that make made.
#[repr(C)]
#[derive(Clone, Copy)]
pub struct Made {
    pub answer: u32,
    pub inode: u32,
}

impl From<Result<u32, Refusal>> for Made {
    ghost use Rattle.std.specs.Prelude.{◌≡◌};
    ghost use Rattle.std.specs.Result.{result_unwrap_or};
    ghost use Rattle.order.specs.Answer.{answer_of, number_of};

    ghost from_gives = { λ r m. (m.answer ≡ number_of (answer_of r)) × (m.inode ≡ result_unwrap_or r 0) };

    fn from(r: Result<u32, Refusal>) -> Made {
        Made {
            answer: order::number(&r),
            inode: r.unwrap_or(0),
        }
    }
}

// How many places of the lent list hold the file's blocks.
#[repr(C)]
#[derive(Clone, Copy)]
pub struct Opened {
    pub answer: u32,
    pub count: usize,
    pub entry: usize,
    pub rule: u32,
}

impl From<Result<usize, Refusal>> for Opened {
    ghost use Rattle.std.specs.Prelude.{◌≡◌};
    ghost use Rattle.std.specs.Result.{result_unwrap_or};
    ghost use Rattle.order.specs.Answer.{answer_of, fault, fault_in, number_of};

    ghost from_gives = { λ r o.
        (o.answer ≡ number_of (answer_of r))
        × (fault o.entry o.rule ≡ fault_in (answer_of r))
        × (o.count ≡ result_unwrap_or r 0) };

    fn from(r: Result<usize, Refusal>) -> Opened {
        let found = order::broken_at(&r);
        Opened {
            answer: order::number(&r),
            count: r.unwrap_or(0),
            entry: found.entry,
            rule: found.rule,
        }
    }
}

// How many places of the lent list hold the directory's children.
#[repr(C)]
#[derive(Clone, Copy)]
pub struct Listed {
    pub answer: u32,
    pub count: usize,
}

impl From<Result<usize, Refusal>> for Listed {
    ghost use Rattle.std.specs.Prelude.{◌≡◌};
    ghost use Rattle.std.specs.Result.{result_unwrap_or};
    ghost use Rattle.order.specs.Answer.{answer_of, number_of};

    ghost from_gives = { λ r l. (l.answer ≡ number_of (answer_of r)) × (l.count ≡ result_unwrap_or r 0) };

    fn from(r: Result<usize, Refusal>) -> Listed {
        Listed {
            answer: order::number(&r),
            count: r.unwrap_or(0),
        }
    }
}

// Entries in all and entries free, of the directories and of the files.
#[repr(C)]
#[derive(Clone, Copy)]
pub struct Stat {
    pub answer: u32,
    pub dir_total: usize,
    pub dir_free: usize,
    pub file_total: usize,
    pub file_free: usize,
}

impl From<Result<MetaStat, Refusal>> for Stat {
    ghost use Rattle.std.specs.Prelude.{◌≡◌};
    ghost use Rattle.order.specs.Answer.{answer_of, number_of};
    ghost use Rattle.tree_promises.specs.Calls.{stat_gives};
    ghost use Rattle.tree_look.specs.Stat.{stat_given};

    ghost from_gives = { λ r s.
        (s.answer ≡ number_of (answer_of r))
        × (stat_gives (answer_of r) s.dir_total s.dir_free s.file_total s.file_free ≡ stat_given r) };

    fn from(r: Result<MetaStat, Refusal>) -> Stat {
        let stat = r.unwrap_or(MetaStat {
            dir_total: 0,
            dir_free: 0,
            file_total: 0,
            file_free: 0,
        });
        Stat {
            answer: order::number(&r),
            dir_total: stat.dir_total,
            dir_free: stat.dir_free,
            file_total: stat.file_total,
            file_free: stat.file_free,
        }
    }
}

// The inode of an entry, and how many entries of its bucket were compared.
#[repr(C)]
#[derive(Clone, Copy)]
pub struct Found {
    pub answer: u32,
    pub inode: u32,
    pub compared: u32,
}

impl From<Looked> for Found {
    ghost use Rattle.std.specs.Prelude.{◌≡◌};
    ghost use Rattle.std.specs.Result.{result_unwrap_or};
    ghost use Rattle.order.specs.Answer.{answer_of, number_of};

    ghost from_gives = { λ l f.
        (f.answer ≡ number_of (answer_of l.inode))
        × (f.inode ≡ result_unwrap_or l.inode 0)
        × (f.compared ≡ l.compared) };

    fn from(l: Looked) -> Found {
        Found {
            answer: order::number(&l.inode),
            inode: l.inode.unwrap_or(0),
            compared: l.compared,
        }
    }
}

// A table (1 the directories, 2 the files) and an entry of it by which no honest writer can have left the tables; 0 and 0 where there is none.
#[repr(C)]
#[derive(Clone, Copy)]
pub struct Aged {
    pub answer: u32,
    pub table: u32,
    pub inode: u32,
}

impl From<Result<Option<Entry>, Refusal>> for Aged {
    ghost use Rattle.std.specs.Prelude.{◌≡◌};
    ghost use Rattle.order.specs.Answer.{answer_of, number_of};
    ghost use Rattle.tree_aged.specs.Calls.{age_gives, aged_says};

    ghost from_gives = { λ r a.
        (a.answer ≡ number_of (answer_of r)) × (age_gives (answer_of r) a.table a.inode ≡ aged_says r) };

    fn from(r: Result<Option<Entry>, Refusal>) -> Aged {
        let answer = order::number(&r);
        match r {
            Ok(Some(x)) => Aged {
                answer,
                table: tree_aged::table_number(x.kind),
                inode: x.inode,
            },
            _ => Aged {
                answer,
                table: 0,
                inode: 0,
            },
        }
    }
}

// Where the sixteen bytes of a name begin in the table that the kind selects.
#[repr(C)]
#[derive(Clone, Copy)]
pub struct Named {
    pub answer: u32,
    pub offset: usize,
}

impl From<Result<usize, Refusal>> for Named {
    ghost use Rattle.std.specs.Prelude.{◌≡◌};
    ghost use Rattle.std.specs.Result.{result_unwrap_or};
    ghost use Rattle.order.specs.Answer.{answer_of, number_of};

    ghost from_gives = { λ r n. (n.answer ≡ number_of (answer_of r)) × (n.offset ≡ result_unwrap_or r 0) };

    fn from(r: Result<usize, Refusal>) -> Named {
        Named {
            answer: order::number(&r),
            offset: r.unwrap_or(0),
        }
    }
}

// How many findings the audit has, two places of the lent list each.
#[repr(C)]
#[derive(Clone, Copy)]
pub struct Audited {
    pub answer: u32,
    pub count: usize,
    pub entry: usize,
    pub rule: u32,
}

impl From<Result<usize, Refusal>> for Audited {
    ghost use Rattle.std.specs.Prelude.{◌≡◌};
    ghost use Rattle.std.specs.Result.{result_unwrap_or};
    ghost use Rattle.order.specs.Answer.{answer_of, fault, fault_in, number_of};

    ghost from_gives = { λ r a.
        (a.answer ≡ number_of (answer_of r))
        × (fault a.entry a.rule ≡ fault_in (answer_of r))
        × (a.count ≡ result_unwrap_or r 0) };

    fn from(r: Result<usize, Refusal>) -> Audited {
        let found = order::broken_at(&r);
        Audited {
            answer: order::number(&r),
            count: r.unwrap_or(0),
            entry: found.entry,
            rule: found.rule,
        }
    }
}

// How many moves a plan has, two places of the lent list each.
#[repr(C)]
#[derive(Clone, Copy)]
pub struct Planned {
    pub answer: u32,
    pub count: usize,
    pub entry: usize,
    pub rule: u32,
}

impl From<Result<usize, Refusal>> for Planned {
    ghost use Rattle.std.specs.Prelude.{◌≡◌};
    ghost use Rattle.std.specs.Result.{result_unwrap_or};
    ghost use Rattle.order.specs.Answer.{answer_of, fault, fault_in, number_of};

    ghost from_gives = { λ r p.
        (p.answer ≡ number_of (answer_of r))
        × (fault p.entry p.rule ≡ fault_in (answer_of r))
        × (p.count ≡ result_unwrap_or r 0) };

    fn from(r: Result<usize, Refusal>) -> Planned {
        let found = order::broken_at(&r);
        Planned {
            answer: order::number(&r),
            count: r.unwrap_or(0),
            entry: found.entry,
            rule: found.rule,
        }
    }
}

// How many blocks of a chain were followed, and why there are no more: entry and rule are 0 where the chain is whole.
#[repr(C)]
#[derive(Clone, Copy)]
pub struct Salvaged {
    pub answer: u32,
    pub count: usize,
    pub entry: usize,
    pub rule: u32,
}

impl From<Result<Walked, Refusal>> for Salvaged {
    ghost use Rattle.std.specs.Prelude.{◌≡◌};
    ghost use Rattle.std.specs.Prelude.{List, ℕ};
    ghost use Rattle.order.specs.Answer.{answer_of, fault, number_of};
    ghost use Rattle.salvage.specs.Calls.{chain_gives, chain_says};

    ghost from_gives = { λ r s.
        (s.answer ≡ number_of (answer_of r))
        × ((list : List ℕ) → chain_gives (answer_of r) s.count (fault s.entry s.rule) list ≡ chain_says r list) };

    fn from(r: Result<Walked, Refusal>) -> Salvaged {
        let walked = r.unwrap_or(Walked {
            count: 0,
            why: Fault { entry: 0, rule: 0 },
        });
        Salvaged {
            answer: order::number(&r),
            count: walked.count,
            entry: walked.why.entry,
            rule: walked.why.rule,
        }
    }
}

// The first rule of the kiosk's profile that is broken, 0 where none is.
#[repr(C)]
#[derive(Clone, Copy)]
pub struct Profiled {
    pub answer: u32,
    pub broken: u32,
    pub entry: usize,
    pub rule: u32,
}

impl From<Result<u32, Refusal>> for Profiled {
    ghost use Rattle.std.specs.Prelude.{◌≡◌};
    ghost use Rattle.std.specs.Result.{result_unwrap_or};
    ghost use Rattle.order.specs.Answer.{answer_of, fault, fault_in, number_of};

    ghost from_gives = { λ r p.
        (p.answer ≡ number_of (answer_of r))
        × (fault p.entry p.rule ≡ fault_in (answer_of r))
        × (p.broken ≡ result_unwrap_or r 0) };

    fn from(r: Result<u32, Refusal>) -> Profiled {
        let found = order::broken_at(&r);
        Profiled {
            answer: order::number(&r),
            broken: r.unwrap_or(0),
            entry: found.entry,
            rule: found.rule,
        }
    }
}

// The set bits of a stretch of a map.
#[repr(C)]
#[derive(Clone, Copy)]
pub struct Counted {
    pub answer: u32,
    pub free: usize,
}

impl From<Result<usize, Refusal>> for Counted {
    ghost use Rattle.std.specs.Prelude.{◌≡◌};
    ghost use Rattle.std.specs.Result.{result_unwrap_or};
    ghost use Rattle.order.specs.Answer.{answer_of, number_of};

    ghost from_gives = { λ r c. (c.answer ≡ number_of (answer_of r)) × (c.free ≡ result_unwrap_or r 0) };

    fn from(r: Result<usize, Refusal>) -> Counted {
        Counted {
            answer: order::number(&r),
            free: r.unwrap_or(0),
        }
    }
}
