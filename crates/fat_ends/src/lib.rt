// The table test by the ends of fragments: two passes over the nodes, with no chain followed.
#![tactic(auto)]

ghost use Rattle.std.specs.Prelude.{◌≡◌, true, false, ℕ, ◌+◌, ◌*◌, ◌/◌, ◌%◌, ◌<◌, ◌≤◌, length, get_or, replicate, ◌⊎◌};
ghost use Rattle.fat_node.specs.Entry.{v_at};
ghost use Rattle.fat_node.specs.Node.{prev_at, next_at, NodeAt};
ghost use Rattle.fat_table.specs.Sound.{Covered, IsNode, Along, Sound};
ghost use Rattle.fat_ends.specs.Inner.Marks.{HeadFits};
ghost use Rattle.fat_ends.specs.Inner.Ends.{span, Packed, State, Backs, TiedEnds, TiledAs, Linked, Joinable, Joined, JoinSays, LinkSays, AtNodes, LeftAs};
ghost use Rattle.fat_ends.specs.Promise.{Judged};

use fat_node::Counts;

// The low 20 bits of a word of the work list hold an index, the 12 above them a part of a sum.
const SPAN: u32 = 1048576;

// A word of the work list: an end in the low 20 bits, a part of a sum above.
fn pack(e: usize, p: u32) -> u32
    requires { (e < span) × (p < 4096) }
    ensures { (result % span ≡ e) × (result / span ≡ p) }
{
    e as u32 + p * SPAN
}

// The size of a single node, or 2048 for one of that size and more, which the table has.
fn part(s: usize) -> u32
    ensures { (s < 2048 → result ≡ s) × (2048 ≤ s → result ≡ 2048) × (result < 4096) }
{
    s.min(2048) as u32
}

// 1, if there is a previous node.
fn some(p: usize) -> u32
    ensures { ((p ≡ 0) × (result ≡ 0)) ⊎ ((0 < p) × (result ≡ 1)) }
{
    u32::from(p != 0)
}

// 1, if block b with the previous p starts a chain that is not the one of index h.
fn file(p: usize, h: usize, b: usize) -> u32
    requires { b ≤ 1000000 }
    ensures { ((p ≡ 0) × (h ≡ b + 1 → ⊥) × (result ≡ 1)) ⊎ ((p ≡ 0 → h ≡ b + 1) × (result ≡ 0)) }
{
    u32::from(p == 0 && h != b + 1)
}

// Nodes that cover the blocks end to end: how many start a chain other than the free one, and how many have a previous.
#[derive(Clone, Copy)]
pub struct Tiles {
    pub files: u32,
    pub backs: u32,
}

// The first pass: walks the nodes from block 0, hopping by size, and makes each a fragment of one. h is the head's index. None, where they don't cover the blocks.
fn tile(table: &[u8], work: &mut [u32], h: usize) -> Option<Tiles>
    requires table_len { length table.now ≡ 8 * (length work.old + 1) }
    requires work_nonzero { (0 < length work.old) × (length work.old ≤ 1000000) }
    requires work_value { work.old ≡ replicate (length work.old) 0 }
    requires h_value { h ≡ v_at table.now 0 }
    ensures { TiledAs table.now (length work.old) work.new result }
{
    let n = work.len();
    let mut b: usize = 0;
    let mut files: u32 = 0;
    let mut backs: u32 = 0;
    while b < n {
        let Ok(node) = fat_node::get_node(table, n, b) else {
            return None;
        };
        work[b] = pack(b + 1, part(node.size));
        backs += some(node.prev);
        files += file(node.prev, h, b);
        b += node.size;
    }
    Some(Tiles { files, backs })
}

// Whether the head's index h names none or a node with no previous.
fn head_fits(table: &[u8], work: &[u32], h: usize) -> bool
    requires table_len { length table.now ≡ 8 * (length work.now + 1) }
    requires work_len_bound { length work.now ≤ 1000000 }
    ensures { (result ≡ true → HeadFits table.now work.now h) × (HeadFits table.now work.now h → result ≡ true) }
{
    h == 0 || h <= work.len() && work[h - 1] != 0 && fat_node::prev_of(table, h - 1) == 0
}

// Whether no node begins a chain: so many files, none, and a head that names none. Then every node lies in a ring.
fn headless(files: u32, h: usize) -> bool
    ensures { result ≡ true → (files ≡ 0) × (h ≡ 0) }
{
    files == 0 && h == 0
}

// The sum of the sizes of the fragment from block h to block z.
fn sum_of(table: &[u8], work: &[u32], h: usize, z: usize) -> u32
    requires table_len { length table.now ≡ 8 * (length work.now + 1) }
    requires h_in_bounds { (h < length work.now) × (z < length work.now) × (length work.now ≤ 1000000) }
    requires by_index { (s : ℕ) × (Packed table.now (length work.now) h z (get_or work.now h 0 / span) (get_or work.now z 0 / span) s × (s ≤ 1000000)) }
    ensures { (s : ℕ) → Packed table.now (length work.now) h z (get_or work.now h 0 / span) (get_or work.now z 0 / span) s → result ≡ s }
{
    let q = work[z] / SPAN;
    if q < 2048 {
        return q;
    }
    if h == z {
        return fat_node::size_of(table, work.len(), h);
    }
    (work[h] / SPAN - 2048) * 2048 + (q - 2048)
}

// Names the ends h and z of a fragment to each other.
fn tie_ends(work: &mut [u32], h: usize, z: usize, p: u32, q: u32)
    requires h_in_bounds { (h < length work.old) × (z < length work.old) × (length work.old ≤ 1000000) }
    requires p_bound { (p < 4096) × (q < 4096) }
    ensures { TiedEnds work.old work.new h z p q }
{
    work[h] = pack(z + 1, p);
    work[z] = pack(h + 1, q);
}

// Whether a fragment from h to b with a low part p takes a small one, of sum q, with no carry: behind it, or in front of it.
fn grows(p: u32, q: u32, h: usize, b: usize) -> bool
    ensures { result ≡ true → (2048 ≤ p) × (q < 2048) × (p + q < 4096) × (h ≡ b → ⊥) }
{
    2048 <= p && q < 2048 && p < 4096 - q && h != b
}

// Joins the node at block b to its next, at block j: the fragments from h to b and from j to z become one.
fn merge(table: &[u8], work: &mut [u32], b: usize, j: usize, h: usize, z: usize)
    requires table_len { length table.now ≡ 8 * (length work.old + 1) }
    requires work_len_bound { length work.old ≤ 1000000 }
    requires joinable { Joinable table.now (length work.old) b work.old j h z }
    ensures { Joined table.now (length work.old) b work.old work.new }
{
    let p = work[b] / SPAN;
    let q = work[j] / SPAN;
    let s = p + q;
    if s < 2048 {
        tie_ends(work, h, z, s, s);
        return;
    }
    if grows(p, q, h, b) {
        let g = work[h] / SPAN;
        tie_ends(work, h, z, g, s);
        return;
    }
    let l = work[z] / SPAN;
    if grows(l, p, j, z) {
        tie_ends(work, h, z, q, l + p);
        return;
    }
    let m = sum_of(table, work, h, b) + sum_of(table, work, j, z);
    tie_ends(work, h, z, 2048 + m / 2048, 2048 + m % 2048);
}

// Joins the node at block b to its next, of index x, if they name each other and no ring closes.
fn join(table: &[u8], work: &mut [u32], b: usize, x: usize) -> bool
    requires table_len { length table.now ≡ 8 * (length work.old + 1) }
    requires b_in_bounds { (b < length work.old) × (length work.old ≤ 1000000) }
    requires node { IsNode table.now (length work.old) b × (next_at table.now b ≡ x) × (0 < x) }
    requires by_index { (k : ℕ) × State table.now (length work.old) b work.old k }
    ensures { JoinSays table.now (length work.old) b work.old work.new result }
{
    if x > work.len() {
        return false;
    }
    let j = x - 1;
    let v = work[j];
    if v == 0 || fat_node::prev_of(table, j) != b + 1 {
        return false;
    }
    let h = (work[b] % SPAN) as usize - 1;
    if h == j {
        return false;
    }
    let z = (v % SPAN) as usize - 1;
    merge(table, work, b, j, h, z);
    true
}

// Joins the node at block b to its next, if there is one: the number of joins. None, where the links are broken.
fn link(table: &[u8], work: &mut [u32], b: usize) -> Option<u32>
    requires table_len { length table.now ≡ 8 * (length work.old + 1) }
    requires b_in_bounds { (b < length work.old) × (length work.old ≤ 1000000) }
    requires node { IsNode table.now (length work.old) b }
    requires by_index { (k : ℕ) × State table.now (length work.old) b work.old k }
    ensures { LinkSays table.now (length work.old) b work.old work.new result }
{
    let x = fat_node::next_of(table, b);
    if x == 0 {
        return Some(0);
    }
    if join(table, work, b, x) {
        return Some(1);
    }
    None
}

// The second pass: joins every link. Where the joins are as many as the nodes that have a previous, every previous is answered.
fn links(table: &[u8], work: &mut [u32], backs: u32) -> bool
    requires table_len { length table.now ≡ 8 * (length work.old + 1) }
    requires work_len_bound { length work.old ≤ 1000000 }
    requires covered { Covered table.now (length work.old) × State table.now (length work.old) 0 work.old 0 }
    requires backs { Backs table.now (length work.old) (length work.old) backs }
    ensures { (result ≡ true → Linked table.now (length work.old) work.new) × (Sound table.now (length work.old) → result ≡ true) }
{
    let n = work.len();
    let mut b: usize = 0;
    let mut joins: u32 = 0;
    while b < n {
        // The hop is worked out before the join: after it, LLVM takes the previous index that was just read for b + 1, and the loop waits for memory.
        let end = b + fat_node::size_of(table, n, b) as usize;
        let Some(k) = link(table, work, b) else {
            return false;
        };
        joins += k;
        b = end;
    }
    joins == backs
}

// The free blocks: those along the chain from the head's index h.
fn free_of(table: &[u8], work: &[u32], h: usize) -> u32
    requires table_len { length table.now ≡ 8 * (length work.now + 1) }
    requires work_len_bound { length work.now ≤ 1000000 }
    requires by_index { (k : ℕ) × State table.now (length work.now) (length work.now) work.now k }
    requires by_index_2 { (j : ℕ) → h ≡ j + 1 → IsNode table.now (length work.now) j × (prev_at table.now j ≡ 0) }
    ensures { Along table.now (length work.now) h result × (result ≤ length work.now) }
{
    if h == 0 {
        return 0;
    }
    let f = h - 1;
    let z = (work[f] % SPAN) as usize - 1;
    sum_of(table, work, f, z)
}

// The verdict, with a work list that is 0 before it: head, first pass, second pass, free count. Where no chain begins, the second pass is not needed. On a
// sound table only the places where nodes start are not 0 after it.
fn judge(table: &[u8], work: &mut [u32]) -> Option<Counts>
    requires table_len { length table.now ≡ 8 * (length work.old + 1) }
    requires work_nonzero { (0 < length work.old) × (length work.old ≤ 1000000) }
    requires work_value { work.old ≡ replicate (length work.old) 0 }
    ensures { Judged table.now (length work.old) result × LeftAs table.now (length work.old) work.new result }
{
    let h = fat_node::get_head(table)?;
    let tiles = tile(table, work, h)?;
    if headless(tiles.files, h) || !head_fits(table, work, h) || !links(table, work, tiles.backs) {
        return None;
    }
    Some(Counts {
        free: free_of(table, work, h) as usize,
        files: tiles.files as usize,
    })
}

// So many places of the work list may be cleared node by node before the rest is cleared place by place, which on many nodes is quicker.
const FEW: usize = 32;

// Clears a work list of which only the places where nodes start are not 0: node by node where they are few.
fn wipe(table: &[u8], work: &mut [u32])
    requires table_len { length table.now ≡ 8 * (length work.old + 1) }
    requires work_len_bound { length work.old ≤ 1000000 }
    requires covered { Covered table.now (length work.old) × AtNodes table.now (length work.old) work.old }
    ensures { work.new ≡ replicate (length work.old) 0 }
{
    let n = work.len();
    let mut b: usize = 0;
    let mut left: usize = n / FEW;
    while b < n {
        if left == 0 {
            order::clear(&mut work[b..]);
            return;
        }
        let end = b + fat_node::size_of(table, n, b) as usize;
        work[b] = 0;
        left -= 1;
        b = end;
    }
}

// The verdict on a table, with any work list of as many places as blocks, which is 0 after it: the counts of a sound table, or none.
pub fn run(table: &[u8], work: &mut [u32]) -> Option<Counts>
    requires table_len { length table.now ≡ 8 * (length work.old + 1) }
    requires work_nonzero { (0 < length work.old) × (length work.old ≤ 1000000) }
    ensures { Judged table.now (length work.old) result × (work.new ≡ replicate (length work.old) 0) }
{
    order::clear(work);
    let judged = judge(table, work);
    if judged.is_some() {
        wipe(table, work);
    } else {
        order::clear(work);
    }
    judged
}
