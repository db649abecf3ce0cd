// A claim and its line. A step is words: kind, side, i, j, how many value words, value words. A label is words: channel (0 `in`,
// 1 `out`, 3 `log`), side, how many value words, value words.
use checking::{TraceError, check_trace};
use test_output::{number, write};
use test_schedules::lists::append;

// The verdict in words.
fn verdict(c: Result<(), TraceError>) {
    match c {
        Ok(()) => write(b" accepted"),
        Err(TraceError::Unloaded(f)) => {
            write(b" refused");
            number(f.cause.number());
            number(f.side as usize);
            number(f.node);
        },
        Err(TraceError::StepAt(k)) => {
            write(b" 20 at");
            number(k);
        },
        Err(TraceError::LabelAt(k)) => {
            write(b" 21 at");
            number(k);
        },
    }
}

// What stands behind a name in its line: the verdict on a claim.
pub fn wrapped<'n, 'p>(
    wrapper: u32,
    nodes1: &'n [u32],
    pool1: &'p [u32],
    nodes2: &'n [u32],
    pool2: &'p [u32],
    steps: &[u32],
    labels: &[u32],
) {
    write(b":");
    verdict(check_trace(wrapper, [nodes1, nodes2], [pool1, pool2], steps, labels));
    write(b"\n");
}

// The same with no table on side 2.
pub fn alone(wrapper: u32, nodes: &[u32], pool: &[u32], steps: &[u32], labels: &[u32]) {
    wrapped(wrapper, nodes, pool, &[], &[], steps, labels);
}

// The same of the copier: !in^parent y. out^parent (y y)
pub fn copier(wrapper: u32, steps: &[u32], labels: &[u32]) {
    alone(
        wrapper,
        &[6, 0, 1, 0, 1, 4, 1, 1, 1, 0],
        &[10, 4000002, 10, 10],
        steps,
        labels,
    );
}

// The line of a claim about the copier under the filter.
pub fn copied(name: &[u8], steps: &[u32], labels: &[u32]) {
    write(name);
    copier(1, steps, labels);
}

// The words of a list from place a to below b; all of it where it has no such part.
pub fn part(list: &[u32], a: usize, b: usize) -> &[u32] {
    list.get(a..b).unwrap_or(list)
}

// The first n words of a list.
pub fn first(list: &[u32; 4400], n: usize) -> &[u32] {
    part(list, 0, n)
}

// Listing A, 31 words: 20 enters, goes down and meets; its copy goes up, passes and leaves.
pub fn listing(list: &mut [u32; 4400]) -> usize {
    let at = append(list, 0, &[1, 1, 0, 0, 1, 20, 2, 1, 0, 0, 0, 5, 1, 1, 0, 0]);
    append(list, at, &[3, 1, 1, 0, 0, 6, 1, 0, 0, 0, 7, 1, 0, 0, 0])
}
