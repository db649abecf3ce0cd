// Lent lists that are too short, exactly long enough and longer, for no stranded message, for one, for some and for sixteen.
use crate::calls::{ENTER, UP, after, line, start};
use crate::changes::with_all_arrived;
use sides::State;

// A line: side 1 of the filter is asked, with so many words.
fn asked(name: &[u8], nodes: &[u32], pool: &[u32], s: State, room: usize) {
    let none = &nodes[..0];
    line(name, 1, nodes, none, pool, s, 1, room);
}

// Nothing is stranded: the list may be empty.
fn none_stranded(nodes: &[u32], pool: &[u32], s: State) {
    asked(b"none, no word lent", nodes, pool, s, 0);
    asked(b"none, 1 word lent", nodes, pool, s, 1);
}

// One, on `in` behind one that arrived on `out`.
fn one_stranded(nodes: &[u32], pool: &[u32], s: State) {
    asked(b"one, no word lent", nodes, pool, s, 0);
    asked(b"one, 1 word lent", nodes, pool, s, 1);
    asked(b"one, 2 words lent", nodes, pool, s, 2);
}

// Three, on `in`, `mid` and a minted name, with one that is down before the last.
fn three_stranded(nodes: &[u32], pool: &[u32], s: State) {
    asked(b"three, 2 words lent", nodes, pool, s, 2);
    asked(b"three, 3 words lent", nodes, pool, s, 3);
    asked(b"three, 4 words lent", nodes, pool, s, 4);
}

// Every message of a full lobby, on 5; and none of them, on `out`.
fn sixteen_stranded(nodes: &[u32], pool: &[u32], s: State) {
    let all = with_all_arrived(s, 0, 5);
    asked(b"sixteen, 15 words lent", nodes, pool, all, 15);
    asked(b"sixteen, 16 words lent", nodes, pool, all, 16);
    asked(b"sixteen, 17 words lent", nodes, pool, all, 17);
    asked(b"sixteen, 1 word lent", nodes, pool, all, 1);
    let out = with_all_arrived(s, 0, 1);
    asked(b"sixteen on out, no word lent", nodes, pool, out, 0);
}

// The state after a step of side 1 of the filter.
fn then(nodes: &[u32], pool: &[u32], s: State, kind: u32) -> State {
    let none = &nodes[..0];
    after(1, nodes, none, pool, s, kind, 1, 0)
}

// The handler's messages go up one after another: on `out`, `in`, `mid` and the minted name; before the last one enters.
pub fn lines(nodes: &[u32], pool: &[u32]) {
    let none = &nodes[..0];
    let s = start(1, nodes, none, pool);
    let out = then(nodes, pool, s, UP);
    none_stranded(nodes, pool, out);
    let one = then(nodes, pool, out, UP);
    one_stranded(nodes, pool, one);
    let two = then(nodes, pool, one, UP);
    let entered = then(nodes, pool, two, ENTER);
    let three = then(nodes, pool, entered, UP);
    three_stranded(nodes, pool, three);
    sixteen_stranded(nodes, pool, s);
}
