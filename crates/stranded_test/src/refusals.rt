// A refused step gives the side as asked, length 0, and the state before.
use crate::calls::{ENTER, begin, start, stepped};
use crate::changes::with_minted;
use sides::State;
use steps::Said;
use test_output::{number, same_state, word, write, write_said};

// What an answer holds, and whether the state after it is the one before.
fn answer(said: Said, side: u32, len: usize, kept: bool) {
    write_said(said);
    word(side);
    write(b" length");
    number(len);
    write(if kept { b" kept\n" } else { b" changed\n" });
}

// A line: a side is asked to let the pool enter, the name 20.
fn line<'a>(
    name: &[u8],
    wrapper: u32,
    nodes1: &'a [u32],
    nodes2: &'a [u32],
    pool: &[u32],
    s: State,
    side: u32,
) {
    begin(b"enter", name, wrapper, side);
    let r = stepped(wrapper, nodes1, nodes2, pool, s, ENTER, side, 0);
    let said = r.said;
    let v = r.value;
    let t = r.state;
    answer(said, r.side, v.len, same_state(s, t));
}

// The filter has side 1.
fn filtered(nodes: &[u32], pool: &[u32]) {
    let none = &nodes[..0];
    let s = start(1, nodes, none, pool);
    line(b"loaded", 1, nodes, none, pool, s, 1);
    line(b"loaded", 1, nodes, none, pool, s, 0);
    line(b"loaded", 1, nodes, none, pool, s, 2);
    line(b"loaded", 1, nodes, none, pool, s, 3);
    line(b"loaded", 1, nodes, none, pool, s, 4294967295);
}

// The pipeline has sides 1 and 2.
fn piped(nodes: &[u32], pool: &[u32], s: State) {
    line(b"loaded", 2, nodes, nodes, pool, s, 1);
    line(b"loaded", 2, nodes, nodes, pool, s, 2);
    line(b"loaded", 2, nodes, nodes, pool, s, 0);
    line(b"loaded", 2, nodes, nodes, pool, s, 3);
    line(b"loaded", 2, nodes, nodes, pool, s, 4294967295);
}

// The logging wrapper has side 1, and no state of the pipeline.
fn logged(nodes: &[u32], pool: &[u32]) {
    let none = &nodes[..0];
    let s = start(3, nodes, none, pool);
    line(b"loaded", 3, nodes, none, pool, s, 1);
    line(b"loaded", 3, nodes, none, pool, s, 0);
    line(b"loaded", 3, nodes, none, pool, s, 2);
    line(b"loaded with a side 2", 3, nodes, nodes, pool, s, 1);
}

// A state that is not well formed, tables that load refuses, and no wrapper: a side that is there, and one that is not.
fn unready<'a>(nodes: &'a [u32], pool: &[u32], unknown: &'a [u32], s: State) {
    let t = with_minted(s, 1, 257);
    line(b"257 names minted on side 2", 2, nodes, nodes, pool, t, 1);
    line(b"257 names minted on side 2", 2, nodes, nodes, pool, t, 7);
    line(b"unknown kind on side 2", 2, nodes, unknown, pool, s, 1);
    line(b"unknown kind on side 2", 2, nodes, unknown, pool, s, 7);
    line(b"no wrapper", 4, nodes, nodes, pool, s, 1);
    line(b"no wrapper", 4, nodes, nodes, pool, s, 7);
}

// Sides that the wrappers have and lack, then states and tables that no step is made with.
pub fn lines<'a>(nodes: &'a [u32], pool: &[u32], unknown: &'a [u32]) {
    let s = start(2, nodes, nodes, pool);
    filtered(nodes, pool);
    piped(nodes, pool, s);
    logged(nodes, pool);
    unready(nodes, pool, unknown, s);
}
