// Going along chains of a sound table: nodes, files, and where a block of a chain lies.
#![tactic(auto)]

ghost use Rattle.std.specs.Prelude.{◌≡◌, true, List, ℕ, ◌+◌, ◌≤◌, ◌<◌, length};
ghost use Rattle.fat_node.specs.Node.{Run, prev_at, next_at};
ghost use Rattle.fat_table.specs.Sound.{IsNode, File};
ghost use Rattle.fat_table.specs.Chain.{size_at, head_at, chain_at};
ghost use Rattle.fat_walk.specs.Volume.{Volume};
ghost use Rattle.fat_walk.specs.Inner.Chains.{Standing, Chain, ChainFrom, Inside, SeekSays, Seeking, Underway, Amid, LastAt};

use fat_node::Node;

// The size of the node that stands at block b.
pub fn size_at(table: &[u8], n: usize, b: usize) -> usize
    requires { Standing n table.now b }
    ensures { result ≡ size_at table.now b }
{
    fat_node::size_of(table, n, b) as usize
}

// The node that stands at block b.
pub fn node_at(table: &[u8], n: usize, b: usize) -> Node
    requires { Standing n table.now b }
    ensures { (result.size ≡ size_at table.now b) × (result.prev ≡ prev_at table.now b) × (result.next ≡ next_at table.now b) }
{
    let size = size_at(table, n, b);
    let prev = fat_node::prev_of(table, b);
    let next = fat_node::next_of(table, b);
    Node { size, prev, next }
}

// Where a block of a chain lies: the part-th of the node at block `node`; or part blocks past the end of the chain, whose last node index `last` names.
#[derive(Clone, Copy)]
pub enum Sought {
    Within { node: usize, part: usize },
    Past { last: usize, part: usize },
}

// Goes on along a chain and seeks the count-th block from there, hopping by node: index next names the next node, index last the one passed last.
pub fn seek_on(table: &[u8], n: usize, next: usize, last: usize, count: usize) -> Sought
    requires { Underway n table.now next last count }
    ensures { (l : List Run) (k : ℕ) → Chain n table.now l → Seeking l k next last count → SeekSays l k result }
{
    let mut i = next;
    let mut passed = last;
    let mut k = count;
    while i != 0 {
        let b = i - 1;
        let size = size_at(table, n, b);
        if k <= size {
            return Sought::Within { node: b, part: k };
        }
        k -= size;
        passed = i;
        i = fat_node::next_of(table, b);
    }
    Sought::Past {
        last: passed,
        part: k,
    }
}

// Seeks the count-th block of the chain that index first starts.
pub fn seek(table: &[u8], n: usize, first: usize, count: usize) -> Sought
    requires chain_from { ChainFrom n table.now first }
    requires le_count { 1 ≤ count }
    ensures { SeekSays (chain_at table.now n first) count result }
{
    seek_on(table, n, first, 0, count)
}

// Whether a node starts at block b, hopping by node from block 0.
fn starts_at(table: &[u8], n: usize, b: usize) -> bool
    requires volume { Volume n table.now }
    requires b_lt_n { b < n }
    ensures { (result ≡ true → IsNode table.now n b) × (IsNode table.now n b → result ≡ true) }
{
    let mut c: usize = 0;
    while c < b {
        c += size_at(table, n, c);
    }
    c == b
}

// The index of the first free node.
pub fn head_of(table: &[u8]) -> usize
    requires { 8 ≤ length table.now }
    ensures { result ≡ head_at table.now }
{
    fat_node::v_of(table, 0) as usize
}

// Whether block b is the first block of a chain other than the free one.
pub fn is_file(table: &[u8], n: usize, b: usize) -> bool
    requires { Volume n table.now }
    ensures { (result ≡ true → File table.now n b) × (File table.now n b → result ≡ true) }
{
    b < n && starts_at(table, n, b) && fat_node::prev_of(table, b) == 0 && head_of(table) != b + 1
}

// The last node of the chain that index first starts.
pub fn last_of(table: &[u8], n: usize, first: usize) -> usize
    requires chain_from { ChainFrom n table.now first }
    requires fact { first ≡ 0 → ⊥ }
    ensures { LastAt (chain_at table.now n first) result }
{
    match seek(table, n, first, n + 1) {
        Sought::Within { node, .. } => node,
        Sought::Past { last, .. } => last - 1,
    }
}

// The last node of the chain that the node at block b is in.
pub fn last_from(table: &[u8], n: usize, b: usize) -> usize
    requires { Amid n table.now b }
    ensures { (l : List Run) (k m : ℕ) → Chain n table.now l → Inside l k b m → LastAt l result }
{
    let next = fat_node::next_of(table, b);
    match seek_on(table, n, next, b + 1, n + 1) {
        Sought::Within { node, .. } => node,
        Sought::Past { last, .. } => last - 1,
    }
}

// Whether part blocks of the node at block b are all of it, and it is the last of its chain.
pub fn is_end(table: &[u8], n: usize, b: usize, part: usize) -> bool
    requires { Standing n table.now b }
    ensures { result ≡ true → (part ≡ size_at table.now b) × (next_at table.now b ≡ 0) }
{
    let node = node_at(table, n, b);
    part == node.size && node.next == 0
}
