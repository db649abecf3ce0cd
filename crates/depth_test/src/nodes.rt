// Nodes of tables.
use test_schedules::lists::{narrow, node};

// The nodes 1 to 4: `new`, one in another.
fn first_news(nodes: &mut [u32; 4400]) {
    node(nodes, 1, 3, 10, 2, 0, 0);
    node(nodes, 2, 3, 11, 3, 0, 0);
    node(nodes, 3, 3, 12, 4, 0, 0);
    node(nodes, 4, 3, 13, 5, 0, 0);
}

// The nodes 1 to 8: `new`, one in another.
pub fn news(nodes: &mut [u32; 4400]) {
    first_news(nodes);
    node(nodes, 5, 3, 14, 6, 0, 0);
    node(nodes, 6, 3, 15, 7, 0, 0);
    node(nodes, 7, 3, 16, 8, 0, 0);
    node(nodes, 8, 3, 17, 9, 0, 0);
}

// A parallel whose children are the next two nodes, the second of them on the left or on the right.
fn parallel(nodes: &mut [u32; 4400], k: usize, left: bool) {
    let next = narrow(k.wrapping_add(1));
    let second = narrow(k.wrapping_add(2));
    if left {
        node(nodes, k, 1, second, next, 0, 0);
    } else {
        node(nodes, k, 1, next, second, 0, 0);
    }
}

// What is put at n nodes: a and each second one after it.
fn every_second<F: Fn(&mut [u32; 4400], usize)>(nodes: &mut [u32; 4400], a: usize, n: usize, put: F)
    requires { F.IsAlwaysCallable put }
{
    let mut at = a;
    for _ in 0..n {
        put(nodes, at);
        at = at.wrapping_add(2);
    }
}

// A spine of n parallels from node a on, each with one child that is nil.
pub fn spine(nodes: &mut [u32; 4400], a: usize, n: usize, left: bool) {
    every_second(nodes, a, n, |nodes, k| parallel(nodes, k, left));
}

// An output on `out` to the parent.
pub fn output(nodes: &mut [u32; 4400], k: usize, place: u32) {
    node(nodes, k, 4, 1, 1, place, 0);
}

// Outputs at n nodes: a and each second one after it.
pub fn outputs(nodes: &mut [u32; 4400], a: usize, n: usize, place: u32) {
    every_second(nodes, a, n, |nodes, k| output(nodes, k, place));
}

// A root (6 stays, 5 goes) that binds y, over 127 parallels.
pub fn tree(nodes: &mut [u32; 4400], kind: u32, left: bool) {
    node(nodes, 0, kind, 0, 1, 1, 1);
    spine(nodes, 1, 127, left);
}
