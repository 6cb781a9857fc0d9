// The kiosk's profile judged on sound tables: it requires soundness and tests nothing.
#![tactic(auto)]

ghost use Rattle.std.specs.Prelude.{◌≡◌, true, [], ℕ, ◌+◌, ◌*◌, ◌/◌, ◌≤◌, ◌<◌, length};
ghost use Rattle.fat_table.specs.Sound.{IsNode, File};
ghost use Rattle.fat_table.specs.Chain.{head_at};
ghost use Rattle.fat_walk.specs.Volume.{Volume};
ghost use Rattle.audit_inner.specs.Findings.{findings};
ghost use Rattle.audit_inner.specs.Volume.{count_of, is_live, subject};
ghost use Rattle.audit_inner.specs.Inner.Marks.{Files, Ready, Clear, Dead};
ghost use Rattle.kiosk_inner.specs.Profile.{OtherDirectory, live_files, Scattered, character, leading, zeros, simple, name_of, OddName, Broken};
ghost use Rattle.kiosk_inner.specs.Inner.Judge.{Rooted, ReadyProfile, Decides, GoesOn, OddAt, Counted, ProfileSays};

// The widths of the two entry types, and where a name stands in an entry.
const DIR: usize = tree_key::SaveExtDirEntry::WIDTH;

const FILE: usize = tree_key::SaveExtFileEntry::WIDTH;

const NAME: usize = 4;

// Whether there is a directory but the root: then the root's list has one.
fn has_directory(dir_table: &[u8]) -> bool
    requires { Rooted dir_table.now }
    ensures { Decides result (OtherDirectory dir_table.now) }
{
    let first = tree_table::link_of(dir_table, DIR, tree_key::SaveExtDirEntry::SUB_DIR, 1);
    first != 0
}

// The number of live files, by the marks of the removed ones.
fn count_live(file_table: &[u8], n: usize, work: &[u32]) -> usize
    requires files { Files file_table.now }
    requires dead { Dead n file_table.now work.now }
    requires n_bound { n ≤ 1000000 }
    ensures { result ≡ live_files file_table.now }
{
    let count = tree_table::link_of(file_table, FILE, tree_table::COUNT, 0);
    let mut live: usize = 0;
    for y in 1..count {
        if work[n + tree_table::index(y)] == 0 {
            live += 1;
        }
    }
    live
}

// Whether the node at block b is the first of a file chain that has another.
fn goes_on(table: &[u8], head: usize, b: usize) -> bool
    requires b_in_bounds { 8 * b + 16 ≤ length table.now }
    requires b_bound { b < 1000000 }
    ensures { GoesOn table.now head b result }
{
    fat_node::prev_of(table, b) == 0 && head != b + 1 && fat_node::next_of(table, b) != 0
}

// Whether a chain other than the free one is not a single node, hopping by node.
fn is_scattered(table: &[u8], n: usize) -> bool
    requires { Volume n table.now }
    ensures { Decides result (Scattered n table.now) }
{
    let head = fat_walk::head_of(table);
    let mut b: usize = 0;
    while b < n {
        if goes_on(table, head, b) {
            return true;
        }
        b += fat_walk::size_at(table, n, b);
    }
    false
}

// Whether a byte is 0 to 9 or A to Z.
fn is_character(c: u8) -> bool
    ensures { result ≡ character c }
{
    matches!(c, b'0'..=b'9' | b'A'..=b'Z')
}

// How many characters a name begins with.
fn lead(name: &[u8]) -> usize
    ensures { result ≡ leading name.now }
{
    name.iter().take_while(|&&c| is_character(c)).count()
}

// Whether bytes are zeros alone.
fn is_padding(bytes: &[u8]) -> bool
    ensures { result ≡ zeros bytes.now }
{
    bytes.iter().all(|&c| c == 0)
}

// Whether a name is one or more characters and then zeros.
fn is_simple(name: &[u8]) -> bool
    ensures { result ≡ simple name.now }
{
    let count = lead(name);
    count != 0 && is_padding(&name[count..])
}

// Whether inode y is a live file with another name; its mark is m.
fn is_odd(file_table: &[u8], y: u32, m: u32) -> bool
    requires { y * 48 + 48 ≤ length file_table.now }
    ensures { OddAt file_table.now y m result }
{
    let at = tree_table::index(y) * FILE + NAME;
    m == 0 && !is_simple(&file_table[at..at + 16])
}

// Whether a live file has another name, by the marks of the removed ones.
fn has_odd_name(file_table: &[u8], n: usize, work: &[u32]) -> bool
    requires files { Files file_table.now }
    requires dead { Dead n file_table.now work.now }
    requires n_bound { n ≤ 1000000 }
    ensures { Decides result (OddName file_table.now) }
{
    let count = tree_table::link_of(file_table, FILE, tree_table::COUNT, 0);
    for y in 1..count {
        if is_odd(file_table, y, work[n + tree_table::index(y)]) {
            return true;
        }
    }
    false
}

// The first rule that is broken, 0 where none is, once the findings are counted and the removed inodes marked.
fn judge(
    table: &[u8],
    n: usize,
    dir_table: &[u8],
    file_table: &[u8],
    found: usize,
    work: &[u32],
) -> u32
    requires volume { Volume n table.now }
    requires rooted { Rooted dir_table.now }
    requires files { Files file_table.now }
    requires dead { Dead n file_table.now work.now }
    ensures { (l : ℕ) → found ≡ length (findings (subject n table.now l file_table.now)) → Broken n table.now l dir_table.now file_table.now result }
{
    if found != 0 {
        return 1;
    }
    if 8191 < n {
        return 2;
    }
    if has_directory(dir_table) {
        return 3;
    }
    if 64 < count_live(file_table, n, work) {
        return 4;
    }
    if is_scattered(table, n) {
        return 5;
    }
    if has_odd_name(file_table, n, work) {
        return 6;
    }
    0
}

// Marks the removed inodes and counts what the audit finds, in no list at all.
fn count_findings(
    table: &[u8],
    n: usize,
    block_len: usize,
    file_table: &[u8],
    work: &mut [u32],
) -> usize
    requires ready { Ready n table.now block_len file_table.now }
    requires file_table_in_bounds { n + length file_table.now / 48 ≤ length work.old }
    requires clear { Clear 0 work.old }
    ensures { Counted n table.now block_len file_table.now work.new result }
{
    audit_inner::mark(table, n, file_table, work);
    let mut none = [0u32; 1];
    audit_inner::sweep(file_table, n, block_len, work, &mut none[..0])
}

// The first rule of the profile that a volume of sound tables breaks, 0 where it breaks none, with a work list of zeros.
pub fn broken_rule(
    table: &[u8],
    n: usize,
    block_len: usize,
    dir_table: &[u8],
    file_table: &[u8],
    work: &mut [u32],
) -> u32
    requires ready_profile { ReadyProfile n table.now block_len dir_table.now file_table.now }
    requires file_table_in_bounds { n + length file_table.now / 48 ≤ length work.old }
    requires clear { Clear 0 work.old }
    ensures { ProfileSays n table.now block_len dir_table.now file_table.now work.old work.new result }
{
    let found = count_findings(table, n, block_len, file_table, work);
    let rule = judge(table, n, dir_table, file_table, found, work);
    order::clear(work);
    rule
}
