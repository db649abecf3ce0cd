// Tables that unfold to their last node at the start.
use crate::nodes::{output, spine};
use crate::tried::tried;
use test_schedules::lists::{inputs, nested, node};
use test_schedules::named_steps::{depart, descend, enter_word, send, up};

// new n. (0 | (0 | .. out^parent n)), or the same to the left.
fn parallels(name: &[u8], left: bool) {
    let mut nodes = [0u32; 4400];
    node(&mut nodes, 0, 3, 10, 1, 0, 0);
    spine(&mut nodes, 1, 127, left);
    output(&mut nodes, 255, 1);
    let mut list = [0u32; 4400];
    let at = depart(&mut list, 0, 1, 0);
    let at = send(&mut list, at, 1, 65536);
    tried(name, &nodes, &list, at);
}

// 15 boxes one in another: 10[10[ .. (0 | (0 | .. out^parent 20))]]
fn fifteen_boxes(name: &[u8], left: bool) {
    let mut nodes = [0u32; 4400];
    nested(&mut nodes, 2, 0, 15);
    spine(&mut nodes, 15, 120, left);
    output(&mut nodes, 255, 5);
    let mut list = [0u32; 4400];
    let at = up(&mut list, 0, 1, 0);
    let at = up(&mut list, at, 1, 0);
    let at = send(&mut list, at, 1, 20);
    let at = descend(&mut list, at, 1, 1, 1);
    tried(name, &nodes, &list, at);
}

// 16 boxes one in another, and an input over the rest.
fn sixteen_boxes() {
    let mut nodes = [0u32; 4400];
    nested(&mut nodes, 2, 0, 16);
    inputs(&mut nodes, 5, 16, 17);
    spine(&mut nodes, 17, 119, false);
    let mut list = [0u32; 4400];
    let at = enter_word(&mut list, 0, 1, 20);
    tried(b"16 boxes", &nodes, &list, at);
}

pub fn shapes() {
    parallels(b"right", false);
    parallels(b"left", true);
    fifteen_boxes(b"15 boxes right", false);
    fifteen_boxes(b"15 boxes left", true);
    sixteen_boxes();
}
