// The trials that are not starred: the shelf's 33rd message, 256 nodes and 8 names.
use crate::rounds::{takes, threes, two};
use test_schedules::lists::{inputs, nested, node};
use test_schedules::named_steps::{take, up};
use test_schedules::tried::{filtered_lists, loaded, piped_lists};

// !in^parent y. (mid^parent y | (mid^parent y | mid^parent y))
fn three_mids(nodes: &mut [u32; 4400]) {
    node(nodes, 0, 6, 0, 1, 0, 1);
    node(nodes, 1, 1, 2, 3, 0, 0);
    node(nodes, 2, 4, 2, 1, 0, 0);
    node(nodes, 3, 1, 4, 5, 0, 0);
    node(nodes, 4, 4, 2, 1, 0, 0);
    node(nodes, 5, 4, 2, 1, 0, 0);
}

// 32 messages reach the shelf and are taken; then one more goes up.
fn shelved(list: &mut [u32; 4400]) -> usize {
    let at = threes(list, 0, 10);
    let at = two(list, at);
    let at = takes(list, at, 32);
    let at = up(list, at, 1, 1);
    take(list, at, 2, 0)
}

// The 33rd `mid` finds no room though all are taken; and none is taken twice.
fn shelf() {
    // side 2: 0
    let mut nodes = [0u32; 4400];
    three_mids(&mut nodes);
    let pool = [10u32];
    let nil = [0u32; 5];
    let mut list = [0u32; 4400];
    let at = shelved(&mut list);
    piped_lists(b"mid", &nodes, 30, &pool, &nil, &pool, &list, at);
}

// A list of n words as nodes, with no step.
fn loaded_list(name: &[u8], nodes: &[u32; 4400], n: usize, pool: &[u32]) {
    filtered_lists(name, nodes, n, pool, nodes, 0);
}

// 256 nodes load, 257 do not.
fn nodes() {
    // in^parent y. in^parent y. .. 0, with a wildcard for y
    let mut list = [0u32; 4400];
    let pool = [4999999u32];
    inputs(&mut list, 5, 0, 255);
    loaded_list(b"256 nodes", &list, 1280, &pool);
    inputs(&mut list, 5, 0, 256);
    loaded_list(b"257 nodes", &list, 1285, &pool);
}

// 8 bound names load, 9 do not: those of `new`, all of one number.
fn new_names() {
    // new n. new n. .. 0
    let mut list = [0u32; 4400];
    let pool = [10u32];
    nested(&mut list, 3, 0, 8);
    loaded_list(b"8 new", &list, 45, &pool);
    nested(&mut list, 3, 0, 9);
    loaded_list(b"9 new", &list, 50, &pool);
}

// The same in a pattern.
fn pattern_names() {
    // in^parent (y1 .. y8). 0
    let nodes = [5u32, 0, 1, 0, 1, 0, 0, 0, 0, 0];
    let eight = [4000008u32, 10, 11, 12, 13, 14, 15, 16, 17];
    loaded(b"8 names", &nodes, &eight);
    // in^parent (y1 .. y9). 0
    let nine = [4000009u32, 10, 11, 12, 13, 14, 15, 16, 17, 18];
    loaded(b"9 names", &nodes, &nine);
}

pub fn trials() {
    shelf();
    nodes();
    new_names();
    pattern_names();
}
