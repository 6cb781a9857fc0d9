// Sets of blocks as u32 words, one bit a block: a stretch of blocks is put in, taken out or counted, whole words at a time.
#![tactic(auto)]

ghost use Rattle.std.specs.Prelude.{◌≡◌, Bool, true, false, cond, not, ℕ, ◌+◌, ◌-◌, ◌*◌, ◌/◌, ◌%◌, ◌^◌, ◌≤◌, ◌<◌, length};
ghost use Rattle.order.specs.Tells.{Tells};
ghost use Rattle.map_bits.specs.Bits.{words_from, bit, sum_from, counted_in};
ghost use Rattle.map_bits.specs.Inner.Counts.{CountOf};
ghost use Rattle.map_bits.specs.Inner.Turns.{Turn, Turnable};

// The number whose bits from lo up to and without hi are set.
fn mask(lo: usize, hi: usize) -> u32
    requires lo_le_hi { lo ≤ hi }
    requires hi_bound { hi ≤ 32 }
    ensures { result + 2 ^ lo ≡ 2 ^ hi }
{
    ((1_usize << hi) - (1_usize << lo)) as u32
}

// A word with the bits of a mask put in, none of which it has, or taken out, all of which it has.
fn turned(word: u32, bits: u32, on: bool) -> u32
    requires bits_bound { on ≡ true → word + bits < 4294967296 }
    requires bits_le_word { on ≡ false → bits ≤ word }
    ensures { result ≡ cond on (word + bits) (word - bits) }
{
    if on { word + bits } else { word - bits }
}

// Puts in or takes out the blocks of word i from its bit lo up to and without its bit hi.
fn turn_part(map: &mut [u32], i: usize, lo: usize, hi: usize, on: bool)
    requires hi_bound { hi ≤ 32 }
    requires turnable { Turnable on map.old (32 * i + lo) (32 * i + hi) }
    ensures { (c d : ℕ → ℕ) → Turn on map.old c d (32 * i + lo) (32 * i + hi) → map.new ≡ words_from (length map.old) 0 d }
{
    if lo < hi {
        let bits = mask(lo, hi);
        let word = map[i];
        map[i] = turned(word, bits, on);
    }
}

// The word whose blocks are all in, or all out.
fn whole(on: bool) -> u32
    ensures { result ≡ cond on 4294967295 0 }
{
    if on { u32::MAX } else { 0 }
}

// Puts in or takes out all blocks of the words from i up to and without j.
fn turn_whole(map: &mut [u32], i: usize, j: usize, on: bool)
    requires { Turnable on map.old (32 * i) (32 * j) }
    ensures { (c d : ℕ → ℕ) → Turn on map.old c d (32 * i) (32 * j) → map.new ≡ words_from (length map.old) 0 d }
{
    map[i..j].fill(whole(on));
}

// Puts in the blocks from lo up to and without hi, none of which is in, or takes them out, all of which are: the first word and the last are cut.
pub fn turn(map: &mut [u32], lo: usize, hi: usize, on: bool)
    requires { Turnable on map.old lo hi }
    ensures { (c d : ℕ → ℕ) → Turn on map.old c d lo hi → map.new ≡ words_from (length map.old) 0 d }
{
    let i = lo / 32;
    let j = hi / 32;
    if i == j {
        turn_part(map, i, lo % 32, hi % 32, on);
        return;
    }
    turn_part(map, i, lo % 32, 32, on);
    turn_whole(map, i + 1, j, on);
    turn_part(map, j, 0, hi % 32, on);
}

// Puts in one block, which is not in, or takes it out, which is.
pub fn turn_one(map: &mut [u32], x: usize, on: bool)
    requires { Turnable on map.old x (x + 1) }
    ensures { (c d : ℕ → ℕ) → Turn on map.old c d x (x + 1) → map.new ≡ words_from (length map.old) 0 d }
{
    let lo = x % 32;
    turn_part(map, x / 32, lo, lo + 1, on);
}

// Whether bit k of a word is set.
fn is_set(word: u32, k: usize) -> bool
    requires { k < 32 }
    ensures { Tells (word / 2 ^ k % 2 ≡ 1) result }
{
    (word as usize >> k) % 2 == 1
}

// Whether a block is in.
pub fn has(map: &[u32], x: usize) -> bool
    requires { x < 32 * length map.now }
    ensures { Tells (bit map.now x ≡ 1) result }
{
    is_set(map[x / 32], x % 32)
}

// The set bits of a word, from bit lo up to and without bit hi: the word is cut, and its ones are counted.
fn ones_in(word: u32, lo: usize, hi: usize) -> u32
    requires lo_le_hi { lo ≤ hi }
    requires hi_bound { hi ≤ 32 }
    ensures { result ≡ sum_from (hi - lo) lo (λ (k : ℕ). word / 2 ^ k % 2) }
{
    let cut = (word as usize >> lo) % (1_usize << (hi - lo));
    (cut as u32).count_ones()
}

// The same of word i of a map.
fn count_part(map: &[u32], i: usize, lo: usize, hi: usize) -> u32
    requires lo_le_hi { lo ≤ hi }
    requires hi_bound { hi ≤ 32 }
    requires hi_bound_2 { 32 * i + hi ≤ 32 * length map.now }
    ensures { CountOf map.now (32 * i + lo) (32 * i + hi) 32 result }
{
    if lo < hi { ones_in(map[i], lo, hi) } else { 0 }
}

// The set bits of the words from i up to and without j.
fn count_whole(map: &[u32], i: usize, j: usize) -> u32
    requires i_le_j { i ≤ j }
    requires j_in_bounds { (j ≤ length map.now) × (j ≤ 1000000) }
    ensures { CountOf map.now (32 * i) (32 * j) (32 * (j - i)) result }
{
    let mut sum: u32 = 0;
    for word in &map[i..j] {
        sum += word.count_ones();
    }
    sum
}

// The set bits of the blocks from a up to and without b: the first word and the last are cut.
pub fn count(map: &[u32], a: usize, b: usize) -> usize
    requires a_le_b { a ≤ b }
    requires b_bound { (b ≤ 32 * length map.now) × (b ≤ 1000000) }
    ensures { result ≡ counted_in map.now a b }
{
    let i = a / 32;
    let j = b / 32;
    if i == j {
        return count_part(map, i, a % 32, b % 32) as usize;
    }
    let first = count_part(map, i, a % 32, 32);
    let middle = count_whole(map, i + 1, j);
    let last = count_part(map, j, 0, b % 32);
    (first + middle + last) as usize
}

// Whether two maps of as many words differ.
pub fn differ(a: &[u32], b: &[u32]) -> bool
    requires { length a.now ≡ length b.now }
    ensures { Tells (a.now ≡ b.now) (not result) }
{
    a != b
}
