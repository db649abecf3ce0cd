// Inputs one in another. The first binds y, the others take anything, and the last node is y^parent y.
use crate::rounds::meetings;
use crate::tried::ends;
use test_schedules::lists::{inputs, node, repeat};
use test_schedules::named_steps::{arrive, depart, meet, send};

// The nodes, all inputs of one kind.
fn chain(nodes: &mut [u32; 4400], kind: u32) {
    node(nodes, 0, kind, 0, 1, 1, 1);
    inputs(nodes, kind, 1, 255);
    node(nodes, 255, 4, 10, 1, 1, 0);
}

// 253 times: a message enters, goes down and meets.
fn remaining(list: &mut [u32; 4400], at: usize) -> usize {
    repeat(
        list,
        at,
        &[1, 1, 0, 0, 1, 20, 2, 1, 0, 0, 0, 5, 1, 1, 0, 0],
        253,
    )
}

// in^parent y. in^parent _. .. y^parent y: each input meets, and y leaves.
fn plain() {
    let mut nodes = [0u32; 4400];
    chain(&mut nodes, 5);
    let mut list = [0u32; 4400];
    let at = arrive(&mut list, 0, 1, 4000000, 1, 0);
    let at = arrive(&mut list, at, 1, 1, 2, 0);
    let at = meet(&mut list, at, 1, 0, 1);
    let at = remaining(&mut list, at);
    let at = depart(&mut list, at, 1, 0);
    ends(b"inputs", &nodes, &list, at, 7, 763);
}

// The same with replicated inputs, which stay: the 32nd leaves no room.
fn replicated() {
    let mut nodes = [0u32; 4400];
    chain(&mut nodes, 6);
    let mut list = [0u32; 4400];
    let at = arrive(&mut list, 0, 1, 4000000, 1, 0);
    let at = arrive(&mut list, at, 1, 20, 2, 0);
    let at = meet(&mut list, at, 1, 1, 2);
    let at = meetings(&mut list, at, 2, 31);
    let at = send(&mut list, at, 1, 20);
    ends(b"replicated", &nodes, &list, at, 7, 91);
}

pub fn shapes() {
    plain();
    replicated();
}
