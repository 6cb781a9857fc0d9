// A window of the free chain laid as a file of one node.
#![tactic(auto)]

ghost use Rattle.std.specs.Prelude.{◌≡◌, [], ℕ, suc, ◌+◌, ◌-◌, ◌*◌, ◌≤◌, length};
ghost use Rattle.fat_node.specs.Node.{run};
ghost use Rattle.fat_table.specs.Chain.{free_at};
ghost use Rattle.fat_table.specs.Steps.{lay};
ghost use Rattle.fat_walk.specs.Volume.{Volume};
ghost use Rattle.fat_carve.specs.Carve.{Window};
ghost use Rattle.fat_place.specs.Place.{placed};
ghost use Rattle.fat_place.specs.Inner.Carving.{node_of, first_of, Waits, PutSays, PartsSay, CarvedBy};

use fat_node::Node;
use fat_walk::{head_of, size_at};

// A node that is to be written when the next is known: none where its size is 0. Index `prev` stands before it, `first` names the first of its chain.
#[derive(Clone, Copy)]
struct Waiting {
    size: usize,
    start: usize,
    prev: usize,
    first: usize,
}

// Puts a node of size blocks, if that is any, behind the waiting one.
fn put(table: &mut [u8], n: usize, w: Waiting, size: usize, start: usize) -> Waiting
    requires n_bound { (n ≤ 1000000) × (length table.old ≡ 8 * (n + 1)) }
    requires waits { Waits n w.size w.start w.prev }
    requires size_bound { start + size ≤ n }
    ensures { PutSays n table.old w.size w.start w.prev w.first size start table.new result.size result.start result.prev result.first }
{
    if size == 0 {
        return w;
    }
    let next = start + 1;
    if w.size == 0 {
        return Waiting {
            size,
            start,
            prev: 0,
            first: next,
        };
    }
    fat_node::set_node(
        table,
        n,
        w.start,
        Node {
            size: w.size,
            prev: w.prev,
            next,
        },
    );
    Waiting {
        size,
        start,
        prev: w.start + 1,
        first: w.first,
    }
}

// The index of the first node of a chain of which a node of size blocks waits, with index first: 0 where none does.
fn first_of(size: usize, first: usize) -> usize
    ensures { result ≡ first_of size «first» [] }
{
    if size == 0 { 0 } else { first }
}

// Writes the waiting node, if one waits, as the last of its chain.
fn put_last(table: &mut [u8], n: usize, w: Waiting)
    requires n_bound { (n ≤ 1000000) × (length table.old ≡ 8 * (n + 1)) }
    requires waits { Waits n w.size w.start w.prev }
    ensures { table.new ≡ lay (node_of w.size w.start) w.prev table.old }
{
    if w.size == 0 {
        return;
    }
    fat_node::set_node(
        table,
        n,
        w.start,
        Node {
            size: w.size,
            prev: w.prev,
            next: 0,
        },
    );
}

// Puts what the window, the blocks from m up to end, leaves of a node of size blocks from b on: the part before it, then the part behind it.
fn put_parts(
    table: &mut [u8],
    n: usize,
    w: Waiting,
    b: usize,
    size: usize,
    m: usize,
    end: usize,
) -> Waiting
    requires n_bound { (n ≤ 1000000) × (length table.old ≡ 8 * (n + 1)) }
    requires waits { Waits n w.size w.start w.prev }
    requires le_size { (1 ≤ size) × (b + size ≤ n) × (m ≤ end) }
    ensures { PartsSay n table.old w.size w.start w.prev w.first (run b size) m end table.new result.size result.start result.prev result.first }
{
    let before = size.min(m.saturating_sub(b));
    let past = size.min(end.saturating_sub(b));
    let v = put(table, n, w, before, b);
    put(table, n, v, size - past, b + past)
}

// Lays the free chain without the blocks from m up to end: what is left of each node stands in its place, the part before before the part behind. Answers
// the index of its first node.
fn carve(table: &mut [u8], n: usize, m: usize, end: usize) -> usize
    requires volume { Volume n table.old }
    requires m_le_end { m ≤ end }
    ensures { CarvedBy n table.old m end table.new result }
{
    let mut i = head_of(table);
    let mut w = Waiting {
        size: 0,
        start: 0,
        prev: 0,
        first: 0,
    };
    while i != 0 {
        let b = i - 1;
        let size = size_at(table, n, b);
        i = fat_node::next_of(table, b);
        w = put_parts(table, n, w, b, size, m, end);
    }
    let first = first_of(w.size, w.first);
    put_last(table, n, w);
    first
}

// Takes the k free blocks from m on out of the free chain and makes them a file of one node.
pub fn place_step(table: &mut [u8], n: usize, m: usize, k: usize)
    requires volume { Volume n table.old }
    requires window { Window m k (free_at n table.old) }
    requires k_bound { m + k ≤ n }
    ensures { table.new ≡ placed n table.old m k }
{
    let first = carve(table, n, m, m + k);
    fat_node::set_node(
        table,
        n,
        m,
        Node {
            size: k,
            prev: 0,
            next: 0,
        },
    );
    fat_node::set_head(table, first);
}
