// Runs every refusal of every call once, with the calls beside it that are due Done: those that its input, the file `stdin`, names, a line for each. The first
// line of its two halves, of block calls and of tree calls, has the names of what can be asked, in the order of their numbers.
#![tactic(auto)]

mod blocks;
mod entries;
mod line;
mod tell;

ghost use Rattle.std.specs.Prelude.{◌≤◌, length};

// Where the second half begins: behind the first line that has a `=`.
fn half(script: &[u8]) -> usize
    ensures { result ≤ length script.now }
{
    let mark = line::find(script, 0, b'=');
    let end = line::find(script, mark, b'\n');
    line::after(script, end)
}

// The names in the first line of a half, and the lines behind it.
fn blocks_half(script: &[u8]) {
    let end = line::find(script, 0, b'\n');
    let begin = line::after(script, end);
    blocks::all(&script[0..end], &script[begin..]);
}

fn entries_half(script: &[u8]) {
    let end = line::find(script, 0, b'\n');
    let begin = line::after(script, end);
    entries::all(&script[0..end], &script[begin..]);
}

fn halves(script: &[u8]) {
    let at = half(script);
    blocks_half(&script[0..at]);
    entries_half(&script[at..]);
}

fn main() {
    let mut script = [0u8; 65536];
    let got = io::read_full(0, &mut script);
    halves(&script[..got]);
}
