// The bench program: an input read from standard input, and its output written.
#![tactic(auto)]

use text::output_on;
use writing::Page;

// What is read of an input: one byte more than it may have, so that more is seen.
#[derive(Clone, Copy)]
struct Input;

impl Input {
    const BYTES: usize = 65537;
}

fn main() {
    let mut input = [0u8; Input::BYTES];
    let n = io::read_full(0, &mut input);
    let mut page = [0u8; Page::BYTES];
    let m = output_on(&input[..n], &mut page);
    io::write_all(1, &page[..m]);
}
