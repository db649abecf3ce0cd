// A root !in^parent y, or !in^parent _, over a body that unfolds to its last node at a meeting.
use crate::nodes::{news, output, outputs, spine, tree};
use crate::rounds::rounds;
use crate::tried::{ends, tried};
use test_schedules::lists::{inputs, nested, node};
use test_schedules::named_steps::{arrive, depart, enter, land, leave, meet, pass, send, up};

// !in^parent y. (0 | (0 | .. y^parent y)), or the same to the left: the last node decides on 15.
fn parallels(name: &[u8], left: bool) {
    let mut nodes = [0u32; 4400];
    tree(&mut nodes, 6, left);
    node(&mut nodes, 255, 4, 10, 1, 1, 0);
    let mut list = [0u32; 4400];
    let at = arrive(&mut list, 0, 1, 4000000, 1, 0);
    let at = arrive(&mut list, at, 1, 1, 2, 0);
    let at = depart(&mut list, at, 1, 2);
    tried(name, &nodes, &list, at);
}

// !in^parent _. new n1. .. new n8. (0 | (0 | .. out^parent (n1 .. n8))): 32 meetings mint all 256 names.
fn eight_news() {
    let mut nodes = [0u32; 4400];
    inputs(&mut nodes, 6, 0, 1);
    news(&mut nodes);
    spine(&mut nodes, 9, 123, false);
    output(&mut nodes, 255, 6);
    let mut list = [0u32; 4400];
    let at = rounds(&mut list, 0, 32);
    let at = arrive(&mut list, at, 1, 20, 1, 0);
    ends(b"8 new", &nodes, &list, at, 6, 191);
}

// !in^parent y. with 128 outputs of (y y), which are too many, and too long for a value of 8 words.
fn all_outputs() {
    let mut nodes = [0u32; 4400];
    tree(&mut nodes, 6, false);
    outputs(&mut nodes, 2, 127, 2);
    output(&mut nodes, 255, 2);
    let mut list = [0u32; 4400];
    let at = arrive(&mut list, 0, 1, 20, 1, 0);
    let at = enter(&mut list, at, 1, &[4000007, 20, 21, 22, 23, 24, 25, 26]);
    let at = land(&mut list, at, 1, 2, 0);
    tried(b"128 outputs", &nodes, &list, at);
}

// The steps of the next.
fn full(list: &mut [u32; 4400]) -> usize {
    let at = enter(list, 0, 1, &[4000006, 20, 21, 22, 23, 24, 25]);
    let at = land(list, at, 1, 1, 0);
    let at = send(list, at, 1, 21);
    let at = up(list, at, 1, 31);
    let at = pass(list, at, 1, 1);
    let at = leave(list, at, 1, 1);
    land(list, at, 1, 31, 0)
}

// !in^parent y. with 31 outputs of (y y) at the end: 32 particles.
fn last_31() {
    let mut nodes = [0u32; 4400];
    tree(&mut nodes, 6, false);
    outputs(&mut nodes, 196, 30, 2);
    output(&mut nodes, 255, 2);
    let mut list = [0u32; 4400];
    let at = full(&mut list);
    tried(b"31 outputs", &nodes, &list, at);
}

// A root that stays (6) or goes (5), over 32 outputs of (y y): 33 or 32 particles.
fn last_32(name: &[u8], kind: u32) {
    let mut nodes = [0u32; 4400];
    tree(&mut nodes, kind, true);
    outputs(&mut nodes, 194, 31, 2);
    output(&mut nodes, 255, 2);
    let mut list = [0u32; 4400];
    let at = arrive(&mut list, 0, 1, 20, 1, 0);
    let at = up(&mut list, at, 1, 31);
    tried(name, &nodes, &list, at);
}

// The nodes of the next: a `new` under the boxes.
fn boxes_over_new(nodes: &mut [u32; 4400]) {
    node(nodes, 0, 6, 0, 1, 1, 1);
    nested(nodes, 2, 1, 16);
    node(nodes, 16, 3, 11, 17, 0, 0);
    spine(nodes, 17, 119, false);
    output(nodes, 255, 1);
}

// !in^parent y. y[y[ .. new n. (0 | (0 | .. out^parent y))]] with 15 boxes: one meeting fills the boxes.
fn fifteen_boxes() {
    let mut nodes = [0u32; 4400];
    boxes_over_new(&mut nodes);
    let mut list = [0u32; 4400];
    let at = arrive(&mut list, 0, 1, 4000000, 1, 0);
    let at = arrive(&mut list, at, 1, 20, 2, 0);
    let at = up(&mut list, at, 1, 2);
    let at = up(&mut list, at, 1, 2);
    let at = arrive(&mut list, at, 1, 20, 3, 0);
    tried(b"15 boxes", &nodes, &list, at);
}

// The same with 16 boxes, which are too many.
fn sixteen_boxes() {
    let mut nodes = [0u32; 4400];
    node(&mut nodes, 0, 6, 0, 1, 1, 1);
    nested(&mut nodes, 2, 1, 17);
    spine(&mut nodes, 17, 119, false);
    output(&mut nodes, 255, 1);
    let mut list = [0u32; 4400];
    let at = arrive(&mut list, 0, 1, 20, 1, 0);
    tried(b"16 boxes in a body", &nodes, &list, at);
}

// The nodes of the next.
fn deepest_nodes(nodes: &mut [u32; 4400], left: bool) {
    inputs(nodes, 6, 0, 1);
    news(nodes);
    nested(nodes, 2, 9, 24);
    spine(nodes, 24, 115, left);
    inputs(nodes, 5, 254, 255);
}

// !in^parent _. with 8 `new`, 15 boxes, 115 parallels and at the end in^parent _. 0: the deepest unfolding.
fn deepest(name: &[u8], left: bool) {
    let mut nodes = [0u32; 4400];
    deepest_nodes(&mut nodes, left);
    let mut list = [0u32; 4400];
    let at = arrive(&mut list, 0, 1, 20, 1, 0);
    let at = arrive(&mut list, at, 1, 20, 2, 0);
    let at = meet(&mut list, at, 1, 2, 1);
    tried(name, &nodes, &list, at);
}

pub fn shapes() {
    parallels(b"right body", false);
    parallels(b"left body", true);
    eight_news();
    all_outputs();
    last_31();
    last_32(b"32 outputs and the input", 6);
    last_32(b"32 outputs", 5);
    fifteen_boxes();
    sixteen_boxes();
    deepest(b"deepest right", false);
    deepest(b"deepest left", true);
}
