// Checks tables that standard input lists, and writes a line for each.
//
// Input: `T` with a name up to the line's end; `N` and words of nodes; `V` and pool words; `.` ends the table. Words may be
// given in several lines.
//
// Output: the name, then `refused`, number and node; or `passed`, how many particles, boxes and new names node 0 unfolds to, how
// many names are in force at the last node, and `used` where name 20 is free as a channel, tag or box name in the table, `free`
// where not: what refusal 15 asks where that name is bound to a tuple.
#![tactic(auto)]

ghost use Rattle.tables.specs.Nodes.{table};
ghost use Rattle.tables.specs.Checks.{Passes};

use scopes::free_uses::clear;
use scopes::names::names_in_force;
use scopes::unfolded::unfolded_at;
use tables::checks::check;
use tables::name_set::NameSet;
use test_output::{number, write};

// What the bytes belong to.
#[derive(Clone, Copy)]
enum Mode {
    Nothing,
    Nodes,
    Pool,
    Name,
}

// What is being read: where words go, the number whose digits come, and how many words there are of nodes and of the pool.
#[derive(Clone, Copy)]
struct Reading {
    mode: Mode,
    number: Option<u32>,
    nodes: usize,
    pool: usize,
}

// One word more, where there is room.
fn push(words: &mut [u32], n: usize, w: u32) -> usize {
    if n < words.len() {
        words[n] = w;
        n + 1
    } else {
        n
    }
}

// A digit more.
fn digit(v: u32, b: u8) -> u32 {
    let d = (b % 48 % 10) as u32;
    (v % 429496729) * 10 + d
}

// Name 20 alone.
fn twenty() -> NameSet {
    NameSet::none().put(20, true)
}

// What a table that has passed the checks says of its nodes.
fn write_scopes(nodes: &[u32], pool: &[u32])
    requires { Passes (table nodes.now pool.now) }
{
    let u = unfolded_at(nodes, pool, 0);
    number(u.particles);
    number(u.boxes);
    number(u.names);
    let c = nodes.len() / 5;
    if 0 < c {
        let top = names_in_force(nodes, pool, c - 1).top;
        if top <= 8 {
            number(8 - top);
        }
    }
    let free = clear(nodes, pool, 0, twenty());
    write(if free { b" free\n" } else { b" used\n" });
}

fn report(nodes: &[u32], pool: &[u32]) {
    match check(nodes, pool) {
        Ok(()) => {
            write(b": passed");
            write_scopes(nodes, pool);
        }
        Err(f) => {
            write(b": refused");
            number(f.cause.number());
            number(f.node);
            write(b"\n");
        }
    }
}

// The first n words of nodes and p of the pool.
fn report_parts(nodes: &[u32], pool: &[u32], n: usize, p: usize) {
    if n <= nodes.len() && p <= pool.len() {
        report(&nodes[..n], &pool[..p]);
    }
}

// A number that ends goes to the nodes or to the pool.
fn end_number(mut r: Reading, nodes: &mut [u32], pool: &mut [u32]) -> Reading {
    if let Some(w) = r.number {
        match r.mode {
            Mode::Nodes => r.nodes = push(nodes, r.nodes, w),
            Mode::Pool => r.pool = push(pool, r.pool, w),
            Mode::Nothing | Mode::Name => {},
        }
        r.number = None;
    }
    r
}

// A letter.
fn letter(mut r: Reading, b: u8, nodes: &[u32], pool: &[u32]) -> Reading {
    match b {
        b'T' => {
            r.mode = Mode::Name;
            r.nodes = 0;
            r.pool = 0;
        },
        b'N' => r.mode = Mode::Nodes,
        b'V' => r.mode = Mode::Pool,
        b'.' => {
            r.mode = Mode::Nothing;
            report_parts(nodes, pool, r.nodes, r.pool);
        },
        _ => {},
    }
    r
}

// A byte of the input.
fn step(mut r: Reading, b: u8, nodes: &mut [u32], pool: &mut [u32]) -> Reading {
    match (r.mode, b) {
        (Mode::Name, b'\n') => r.mode = Mode::Nothing,
        (Mode::Name, _) => write(&[b]),
        (_, b'0'..=b'9') => r.number = Some(digit(r.number.unwrap_or(0), b)),
        _ => r = letter(end_number(r, nodes, pool), b, nodes, pool),
    }
    r
}

fn main() {
    let mut input = io::large_buffer();
    let n = io::read_full(0, &mut input);
    let mut nodes = [0u32; 1300];
    let mut pool = [0u32; 1100];
    let mut r = Reading {
        mode: Mode::Nothing,
        number: None,
        nodes: 0,
        pool: 0,
    };
    for &b in &input[..n] {
        r = step(r, b, &mut nodes, &mut pool);
    }
}
