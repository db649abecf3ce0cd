// A run with the lines of its answers.
use crate::shown::{lines, outcome, written};
use running::run;
use test_output::write;

// A run under a wrapper, with lines for the answers before one index and from another on.
fn wrapped<'n, 'p>(
    name: &[u8],
    wrapper: u32,
    nodes1: &'n [u32],
    pool1: &'p [u32],
    nodes2: &'n [u32],
    pool2: &'p [u32],
    steps: &[u32],
    first: usize,
    second: usize,
) {
    let mut out = [0u32; 15400];
    let r = run(wrapper, [nodes1, nodes2], [pool1, pool2], steps, &mut out);
    write(name);
    outcome(r);
    write(b"\n");
    lines(name, &out, written(r), first, second);
}

// Under a wrapper of side 1 alone.
fn alone(
    name: &[u8],
    wrapper: u32,
    nodes: &[u32],
    pool: &[u32],
    steps: &[u32],
    first: usize,
    second: usize,
) {
    wrapped(name, wrapper, nodes, pool, &[], &[], steps, first, second);
}

// Under the filter.
fn filtered(name: &[u8], nodes: &[u32], pool: &[u32], steps: &[u32], first: usize, second: usize) {
    alone(name, 1, nodes, pool, steps, first, second);
}

// Under the logging wrapper, with the first n words of a list as steps.
pub fn logged_list(name: &[u8], nodes: &[u32], pool: &[u32], list: &[u32], n: usize) {
    if n <= list.len() {
        alone(name, 3, nodes, pool, &list[..n], 1000, 1000);
    }
}

// Under the filter, with no step.
pub fn loaded(name: &[u8], nodes: &[u32], pool: &[u32]) {
    filtered(name, nodes, pool, &[], 1000, 1000);
}

// Under the filter, with the first n words of a list as steps.
pub fn filtered_list(name: &[u8], nodes: &[u32], pool: &[u32], list: &[u32], n: usize) {
    filtered_lists(name, nodes, nodes.len(), pool, list, n);
}

// Under the filter, with the first m words of a list as nodes and the first n of another as steps.
pub fn filtered_lists(name: &[u8], nodes: &[u32], m: usize, pool: &[u32], list: &[u32], n: usize) {
    filtered_ends(name, nodes, m, pool, list, n, 1000, 1000);
}

// The same with lines for the answers before one index and from another on, and how many are refused between.
pub fn filtered_ends(
    name: &[u8],
    nodes: &[u32],
    m: usize,
    pool: &[u32],
    list: &[u32],
    n: usize,
    first: usize,
    second: usize,
) {
    if m <= nodes.len() && n <= list.len() {
        filtered(name, &nodes[..m], pool, &list[..n], first, second);
    }
}

// Under the pipeline, with the first n words of a list as steps.
pub fn piped_list<'n, 'p>(
    name: &[u8],
    nodes1: &'n [u32],
    pool1: &'p [u32],
    nodes2: &'n [u32],
    pool2: &'p [u32],
    list: &[u32],
    n: usize,
) {
    piped_lists(name, nodes1, nodes1.len(), pool1, nodes2, pool2, list, n);
}

// Under the pipeline, with the first m words of a list as side 1's nodes and the first n of another as steps.
pub fn piped_lists<'n, 'p>(
    name: &[u8],
    nodes1: &'n [u32],
    m: usize,
    pool1: &'p [u32],
    nodes2: &'n [u32],
    pool2: &'p [u32],
    list: &[u32],
    n: usize,
) {
    if m <= nodes1.len() && n <= list.len() {
        let part = &nodes1[..m];
        wrapped(name, 2, part, pool1, nodes2, pool2, &list[..n], 1000, 1000);
    }
}
