// What a step of a state answers.
use super::handler::own_entered;
use super::starts::{started, wrapper_of};
use crate::Start;
use test_changes::{Change, entered};
use test_output::write;

// How a line ends: the answer to `enter` with the name 20 by each side that the wrapper has, with two things put anew.
pub(crate) fn ask(start: Start, a: Change, b: Change) {
    let wrapper = wrapper_of(start);
    let s = started(start);
    write(b":");
    own_entered(wrapper, s, 1, a, b);
    if wrapper == 2 {
        write(b",");
        own_entered(wrapper, s, 2, a, b);
    }
    write(b"\n");
}

// The answer of side 1 to `enter` with the name 20 by a state to start from, with tables that may be others than its own.
pub fn start_answered<'n, 'p>(
    start: Start,
    wrapper: u32,
    nodes1: &'n [u32],
    pool1: &'p [u32],
    nodes2: &'n [u32],
    pool2: &'p [u32],
) {
    entered(wrapper, nodes1, pool1, nodes2, pool2, started(start), 1);
}
