// Nothing is stranded where load refuses the tables or the state is not well formed for them, whatever stands in a lobby.
use crate::calls::line;
use crate::changes::{with_arrived, with_last_taken, with_messages, with_minted};
use crate::lobbies::{stranded_on_1, stranded_on_both};
use sides::State;

// Two lines: both sides of the pipeline are asked.
fn both<'a>(name: &[u8], nodes1: &'a [u32], nodes2: &'a [u32], pool: &[u32], s: State) {
    line(name, 2, nodes1, nodes2, pool, s, 1, 4);
    line(name, 2, nodes1, nodes2, pool, s, 2, 4);
}

// A state with a stranded message on both sides, with tables that are not its own: any that load takes suit it, as no input waits in it.
fn tables<'a>(nodes: &'a [u32], pool: &[u32], nil: &'a [u32], unknown: &'a [u32], s: State) {
    let none = &nodes[..0];
    both(b"other tables", nil, nil, pool, s);
    both(b"unknown kind on side 1", unknown, nodes, pool, s);
    both(b"unknown kind on side 2", nodes, unknown, pool, s);
    line(b"no nodes on side 2", 2, nodes, none, pool, s, 1, 4);
}

// The same with wrappers that are none, and states under the other wrapper.
fn wrappers(nodes: &[u32], pool: &[u32], s: State) {
    let none = &nodes[..0];
    let f = stranded_on_1(1, nodes, none, pool);
    line(b"no wrapper", 0, nodes, nodes, pool, s, 1, 4);
    line(b"no wrapper", 4, nodes, nodes, pool, s, 2, 4);
    line(b"tables for side 2", 1, nodes, nodes, pool, f, 1, 4);
    line(b"state of the pipeline", 1, nodes, none, pool, s, 1, 4);
    line(b"state of the filter", 2, nodes, nodes, pool, f, 1, 4);
}

// States of the pipeline that are broken elsewhere than in a lobby.
fn elsewhere(nodes: &[u32], pool: &[u32], s: State) {
    let minted = with_minted(s, 0, 257);
    let taken = with_last_taken(s, 0);
    both(b"257 names minted on side 1", nodes, nodes, pool, minted);
    both(b"taken mark on side 1", nodes, nodes, pool, taken);
}

// A line: a side of the pipeline is asked.
fn piped(name: &[u8], nodes: &[u32], pool: &[u32], s: State, side: u32) {
    line(name, 2, nodes, nodes, pool, s, side, 4);
}

// The stranded message itself: on `mid`, which side 1's lobby may not have, on the last public name, and on a number that is no name.
fn channels(nodes: &[u32], pool: &[u32], s: State) {
    piped(b"arrived on mid", nodes, pool, with_arrived(s, 0, 2), 1);
    piped(b"arrived on mid", nodes, pool, with_arrived(s, 1, 2), 2);
    piped(b"arrived on 63", nodes, pool, with_arrived(s, 0, 63), 1);
    piped(b"arrived on 64", nodes, pool, with_arrived(s, 0, 64), 1);
    piped(b"arrived on 64", nodes, pool, with_arrived(s, 1, 64), 2);
}

// The first of 16 messages, the first of 17, and one of the filter's side 2.
fn counts(nodes: &[u32], pool: &[u32], s: State) {
    let none = &nodes[..0];
    let f = stranded_on_1(1, nodes, none, pool);
    let second = with_messages(f, 1, 1);
    piped(b"first of 16", nodes, pool, with_messages(s, 1, 16), 2);
    piped(b"first of 17", nodes, pool, with_messages(s, 1, 17), 2);
    line(b"message on side 2", 1, nodes, none, pool, second, 1, 4);
    line(b"message on side 2", 1, nodes, none, pool, second, 2, 4);
}

// Tables and wrappers, then states of the pipeline put anew.
pub fn lines<'a>(nodes: &'a [u32], pool: &[u32], nil: &'a [u32], unknown: &'a [u32]) {
    let s = stranded_on_both(nodes, pool);
    tables(nodes, pool, nil, unknown, s);
    wrappers(nodes, pool, s);
    elsewhere(nodes, pool, s);
    channels(nodes, pool, s);
    counts(nodes, pool, s);
}
