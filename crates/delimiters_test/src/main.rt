// Compares the search for the next tab or newline with a loop over bytes, on every list of a kind: up to 24 bytes, two
// neighbours of a tab and a newline by turns, with a tab or a newline at one place or at none; from every start up to the end
// and past it.
#![tactic(auto)]

ghost use Rattle.std.specs.Prelude.{◌≡◌, ◌≤◌, length};

use delimiters::next_delimiter;

// The descriptor of standard output.
const STDOUT: i32 = 1;

// How many searches were compared, and how many of them differ.
#[derive(Clone, Copy)]
struct Tally {
    compared: u64,
    differ: u64,
}

#[derive(Clone, Copy)]
struct Case;

impl Case {
    // The most bytes of a list.
    const BYTES: usize = 24;

    // Bytes that are near a tab or a newline in value, or in seven of their bits, and the least and the greatest.
    const NEAR: [u8; 8] = [0, 8, 9, 10, 11, 137, 138, 255];
}

// The search as document 02 has it, one place after the other.
fn by_places(s: &[u8], start: usize) -> usize {
    let mut found = s.len();
    for p in (start..s.len()).rev() {
        if s[p] == b'\t' || s[p] == b'\n' {
            found = p;
        }
    }
    found
}

fn try_start(s: &[u8], start: usize, tally: &mut Tally) {
    tally.compared = tally.compared.wrapping_add(1);
    if next_delimiter(s, start) != by_places(s, start) {
        tally.differ = tally.differ.wrapping_add(1);
    }
}

fn try_starts(s: &[u8], tally: &mut Tally) {
    for start in 0..34 {
        try_start(s, start, tally);
    }
    try_start(s, 1 << 63, tally);
    try_start(s, usize::MAX - 7, tally);
    try_start(s, usize::MAX, tally);
}

// Two bytes by turns.
fn filled(even: u8, odd: u8) -> [u8; Case::BYTES] {
    std::array::from_fn(|p| if p % 2 == 0 { even } else { odd })
}

// A byte at each place of the first `len`, one after the other.
fn try_places(even: u8, odd: u8, b: u8, len: usize, tally: &mut Tally)
    requires { len ≤ 24 }
{
    for p in 0..len {
        let mut list = filled(even, odd);
        list[p] = b;
        try_starts(&list[..len], tally);
    }
}

fn try_lengths(even: u8, odd: u8, tally: &mut Tally) {
    for len in 0..=Case::BYTES {
        let list = filled(even, odd);
        try_starts(&list[..len], tally);
        try_places(even, odd, b'\t', len, tally);
        try_places(even, odd, b'\n', len, tally);
    }
}

fn try_odd(even: u8, tally: &mut Tally) {
    for odd in Case::NEAR {
        try_lengths(even, odd, tally);
    }
}

// What the search finds from a start on, behind a blank.
fn show(s: &[u8], start: usize) {
    io::write_all(STDOUT, b" ");
    io::print_decimal(STDOUT, next_delimiter(s, start) as u64);
}

fn show_some() {
    io::write_all(STDOUT, b"W\\t2\\nN from 0, 2, 4, 5, 9:");
    for start in [0, 2, 4, 5, 9] {
        show(b"W\t2\nN", start);
    }
    io::write_all(STDOUT, b"\n");
}

fn main() {
    show_some();
    let mut tally = Tally {
        compared: 0,
        differ: 0,
    };
    for even in Case::NEAR {
        try_odd(even, &mut tally);
    }
    io::print_decimal(STDOUT, tally.compared);
    io::write_all(STDOUT, b" compared, ");
    io::print_decimal(STDOUT, tally.differ);
    io::write_all(STDOUT, b" differ\n");
}
