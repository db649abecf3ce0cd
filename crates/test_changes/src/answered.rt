// A line's part about a step of a state: what it answers, and whether it leaves the state as it was.
use super::puts::put;
use crate::Change;
use interpreter::{Stepped, step};
use sides::State;
use test_output::{same_state, write, write_said};

// The kind of step that is made.
const ENTER: u32 = 1;

// What a step says, and whether the state that comes back is the one that was passed.
fn answer(s: State, r: Stepped) {
    let said = r.said;
    let t = r.state;
    write_said(said);
    write(if same_state(s, t) {
        b" kept"
    } else {
        b" changed"
    });
}

// The answer of a side to `enter` with the name 20, with tables that may be others than those of the state.
pub fn entered<'n, 'p>(
    wrapper: u32,
    nodes1: &'n [u32],
    pool1: &'p [u32],
    nodes2: &'n [u32],
    pool2: &'p [u32],
    s: State,
    side: u32,
) {
    let r = step(
        wrapper,
        [nodes1, nodes2],
        [pool1, pool2],
        s,
        ENTER,
        side,
        0,
        0,
        &[20],
    );
    answer(s, r);
}

// The same with two things put anew in the state, one after the other.
pub fn entered_changed<'n, 'p>(
    wrapper: u32,
    nodes1: &'n [u32],
    pool1: &'p [u32],
    nodes2: &'n [u32],
    pool2: &'p [u32],
    s: State,
    side: u32,
    a: Change,
    b: Change,
) {
    let t = put(put(s, a), b);
    entered(wrapper, nodes1, pool1, nodes2, pool2, t, side);
}

// Whether a state with one thing put anew is the same as with another.
pub fn compared(s: State, a: Change, b: Change) {
    let same = same_state(put(s, a), put(s, b));
    write(if same { b": same\n" } else { b": different\n" });
}
