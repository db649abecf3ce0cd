// Lines. Each starts from a state that is made for it.
use super::asking::ask;
use super::changes::{base, nothing, thing, valued, waiting};
use super::starts::{started, wrapper_of};
use crate::Start;
use test_changes::compared;
use test_output::{label, number, word, write, write_value};
use values::Value;

// How a line begins: whether the state is allowed, the wrapper and the side.
fn head(good: bool, start: Start, side: u32) {
    write(if good { b"allowed" } else { b"broken" });
    match wrapper_of(start) {
        1 => write(b" filter"),
        2 => write(b" pipeline"),
        _ => write(b" logging"),
    }
    word(side);
}

// The state as it came from load and steps.
pub fn untouched(start: Start) {
    head(true, start, 1);
    write(b" nothing");
    ask(start, base(start), nothing());
}

// One thing put anew on a side. It has no number after it where it is fields that are not read, 33 and 34.
pub fn case(good: bool, start: Start, side: u32, what: usize, n: usize) {
    head(good, start, side);
    label(what);
    if what < 33 {
        number(n);
    }
    ask(start, base(start), thing(side, what, n));
}

// A place marked as taken, with so many on side 1's shelf.
pub fn taken_case(good: bool, start: Start, side: u32, place: usize, n: usize) {
    head(good, start, side);
    label(32);
    number(place);
    write(b" of");
    number(n);
    ask(start, thing(1, 7, n), thing(side, 32, place));
}

// An input that waits in a box, at a node, with n values, each the same word.
pub fn input_case(good: bool, start: Start, side: u32, at: usize, node: usize, n: usize, w: usize) {
    head(good, start, side);
    write(b" input in box");
    number(at);
    write(b" node");
    number(node);
    write(b" values");
    number(n);
    write(b" of");
    number(w);
    ask(start, base(start), waiting(side, at, node, n, w));
}

// A value at a place that holds one, 15 to 18.
pub fn value_case(good: bool, start: Start, side: u32, place: usize, v: Value) {
    head(good, start, side);
    label(place);
    write_value(v);
    ask(start, base(start), valued(side, place, v));
}

// Whether it is seen that two states of the pipeline differ, of which each has one thing put anew on a side.
pub fn compare(name: &[u8], side: u32, what: usize, n: usize, other: usize, m: usize) {
    write(b"compared");
    word(side);
    write(name);
    compared(
        started(Start::Pipeline),
        thing(side, what, n),
        thing(side, other, m),
    );
}
