// What is stranded in lobbies that load and steps give: only what arrived on another channel than `out`, and only on a side that is there.
use crate::calls::{ENTER, PASS, UP, after, line, start};
use sides::State;

// A line: a side makes a step, and is asked.
fn ask<'a>(
    name: &[u8],
    wrapper: u32,
    nodes1: &'a [u32],
    nodes2: &'a [u32],
    pool: &[u32],
    s: State,
    kind: u32,
    side: u32,
    i: usize,
) {
    let t = after(wrapper, nodes1, nodes2, pool, s, kind, side, i);
    line(name, wrapper, nodes1, nodes2, pool, t, side, 4);
}

// One message: it goes up on `out`, `in`, `mid` or a new name, or enters. Side 1's on `mid` goes to the shelf under the pipeline.
fn one<'a>(wrapper: u32, nodes1: &'a [u32], nodes2: &'a [u32], pool: &[u32], s: State, side: u32) {
    ask(b"up on out", wrapper, nodes1, nodes2, pool, s, UP, side, 0);
    ask(b"up on in", wrapper, nodes1, nodes2, pool, s, UP, side, 1);
    ask(b"up on mid", wrapper, nodes1, nodes2, pool, s, UP, side, 2);
    ask(b"up on new", wrapper, nodes1, nodes2, pool, s, UP, side, 3);
    ask(b"enter", wrapper, nodes1, nodes2, pool, s, ENTER, side, 0);
}

// One that arrived on `out`, and another behind it; then the one leaving.
fn two<'a>(wrapper: u32, nodes1: &'a [u32], nodes2: &'a [u32], pool: &[u32], s: State, side: u32) {
    let t = after(wrapper, nodes1, nodes2, pool, s, UP, side, 0);
    ask(b"out, in", wrapper, nodes1, nodes2, pool, t, UP, side, 0);
    ask(
        b"out, pass",
        wrapper,
        nodes1,
        nodes2,
        pool,
        t,
        PASS,
        side,
        0,
    );
}

// A side's lobbies.
fn one_side<'a>(wrapper: u32, nodes1: &'a [u32], nodes2: &'a [u32], pool: &[u32], side: u32) {
    let s = start(wrapper, nodes1, nodes2, pool);
    one(wrapper, nodes1, nodes2, pool, s, side);
    two(wrapper, nodes1, nodes2, pool, s, side);
}

// The filter's side 1 has a stranded message; side 2 is not there.
fn absent_filtered(nodes: &[u32], pool: &[u32]) {
    let none = &nodes[..0];
    let s = stranded_on_1(1, nodes, none, pool);
    line(b"one on side 1", 1, nodes, none, pool, s, 1, 4);
    line(b"one on side 1", 1, nodes, none, pool, s, 2, 4);
    line(b"one on side 1", 1, nodes, none, pool, s, 0, 4);
    line(b"one on side 1", 1, nodes, none, pool, s, 3, 4);
    line(b"one on side 1", 1, nodes, none, pool, s, 4294967295, 4);
}

// Both sides of the pipeline have one.
fn absent_piped(nodes: &[u32], pool: &[u32]) {
    let s = stranded_on_both(nodes, pool);
    line(b"one on both sides", 2, nodes, nodes, pool, s, 1, 4);
    line(b"one on both sides", 2, nodes, nodes, pool, s, 2, 4);
    line(b"one on both sides", 2, nodes, nodes, pool, s, 0, 4);
    line(b"one on both sides", 2, nodes, nodes, pool, s, 3, 4);
    line(
        b"one on both sides",
        2,
        nodes,
        nodes,
        pool,
        s,
        4294967295,
        4,
    );
}

// So has the logging wrapper's side 1: a message that leaves as a copy is not stranded.
fn absent_logged(nodes: &[u32], pool: &[u32]) {
    let none = &nodes[..0];
    let s = stranded_on_1(3, nodes, none, pool);
    line(b"one on side 1", 3, nodes, none, pool, s, 1, 4);
    line(b"one on side 1", 3, nodes, none, pool, s, 2, 4);
    let t = after(3, nodes, none, pool, s, ENTER, 1, 0);
    line(b"one on side 1, enter", 3, nodes, none, pool, t, 1, 4);
}

// Side 1's message on `in` is up.
pub fn stranded_on_1<'a>(
    wrapper: u32,
    nodes1: &'a [u32],
    nodes2: &'a [u32],
    pool: &[u32],
) -> State {
    let s = start(wrapper, nodes1, nodes2, pool);
    after(wrapper, nodes1, nodes2, pool, s, UP, 1, 1)
}

// Under the pipeline, both sides' messages on `in` are up.
pub fn stranded_on_both(nodes: &[u32], pool: &[u32]) -> State {
    let s = stranded_on_1(2, nodes, nodes, pool);
    after(2, nodes, nodes, pool, s, UP, 2, 1)
}

// The sides that are there, then those that are not.
pub fn lines(nodes: &[u32], pool: &[u32]) {
    let none = &nodes[..0];
    one_side(1, nodes, none, pool, 1);
    one_side(2, nodes, nodes, pool, 1);
    one_side(2, nodes, nodes, pool, 2);
    absent_filtered(nodes, pool);
    absent_piped(nodes, pool);
    one_side(3, nodes, none, pool, 1);
    absent_logged(nodes, pool);
}
