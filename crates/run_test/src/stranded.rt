// Trial B by words: side 2 sends `mid` up, it can go nowhere, and its position is asked for.
use stranding::{AfterError, stranded_after};
use test_output::{number, write, write_words};

// How many positions, load's refusal, that the steps break off, or 22.
fn told(a: Result<usize, AfterError>) {
    match a {
        Ok(n) => number(n),
        Err(AfterError::Unloaded(f)) => {
            write(b" refused");
            number(f.cause.number());
            number(f.side as usize);
            number(f.node);
        },
        Err(AfterError::BrokenOff) => write(b" broken off"),
        Err(AfterError::TooShort) => write(b" too short (22)"),
    }
}

// A line: what is told of a side after the steps, and the words of the lent list after it.
fn lent_line<'a>(
    name: &[u8],
    wrapper: u32,
    nil: &'a [u32],
    nodes: &'a [u32],
    pool: &'a [u32],
    steps: &[u32],
    side: u32,
    list: &mut [u32],
) {
    write(b"B ");
    write(name);
    write(b":");
    told(stranded_after(wrapper, [nil, nodes], [pool, pool], steps, side, list));
    write(b",");
    write_words(list);
    write(b"\n");
}

// The same with a list of so many words, at most 2, all of them 7 before.
fn line<'a>(
    name: &[u8],
    wrapper: u32,
    nil: &'a [u32],
    nodes: &'a [u32],
    pool: &'a [u32],
    steps: &[u32],
    side: u32,
    room: usize,
) {
    let mut list = [7u32; 2];
    if room <= 2 {
        lent_line(
            name,
            wrapper,
            nil,
            nodes,
            pool,
            steps,
            side,
            &mut list[0..room],
        );
    }
}

// Sides, and lists that are long enough and too short.
fn asked<'a>(nil: &'a [u32], nodes: &'a [u32], pool: &'a [u32], steps: &[u32]) {
    line(
        b"side 2 before any step",
        2,
        nil,
        nodes,
        pool,
        &steps[..0],
        2,
        2,
    );
    line(b"side 2", 2, nil, nodes, pool, steps, 2, 2);
    line(b"side 2, 1 word lent", 2, nil, nodes, pool, steps, 2, 1);
    line(b"side 2, no word lent", 2, nil, nodes, pool, steps, 2, 0);
    line(b"side 1", 2, nil, nodes, pool, steps, 1, 2);
    line(b"side 1, no word lent", 2, nil, nodes, pool, steps, 1, 0);
    line(b"side 3", 2, nil, nodes, pool, steps, 3, 2);
    line(b"side 0, no word lent", 2, nil, nodes, pool, steps, 0, 0);
}

// Tables that load refuses, and steps that break off: load's refusal comes first, and 22 last.
fn unasked<'a>(nil: &'a [u32], nodes: &'a [u32], pool: &'a [u32], steps: &[u32], cut: &[u32]) {
    line(b"steps cut", 2, nil, nodes, pool, cut, 2, 2);
    line(b"steps cut, no word lent", 2, nil, nodes, pool, cut, 2, 0);
    line(b"unknown wrapper", 4, nil, nodes, pool, steps, 2, 2);
    line(
        b"unknown wrapper, steps cut",
        4,
        nil,
        nodes,
        pool,
        cut,
        2,
        0,
    );
    line(b"no value", 2, nil, nodes, &pool[..0], steps, 2, 2);
}

pub fn trial() {
    // side 1: 0; side 2: mid^parent 20
    let nil = [0u32; 5];
    let nodes = [4u32, 2, 1, 0, 0];
    let pool = [20u32];
    // up; pass, which is refused; enter 20; and the same without the last word
    let steps = [3u32, 2, 0, 0, 0, 6, 2, 0, 0, 0, 1, 2, 0, 0, 1, 20];
    let cut = [3u32, 2, 0, 0, 0, 6, 2, 0, 0, 0, 1, 2, 0, 0, 1];
    asked(&nil, &nodes, &pool, &steps);
    unasked(&nil, &nodes, &pool, &steps, &cut);
}
