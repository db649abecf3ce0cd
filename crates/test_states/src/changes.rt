// What is put anew on a side, by its number in the crate test_changes.
use crate::Start;
use test_changes::{Change, Held};
use values::Value;

// So much, or that one; at a place that holds a value, that name.
pub(crate) fn thing(side: u32, what: usize, n: usize) -> Change {
    Change {
        side,
        what,
        n,
        at: 0,
        node: 0,
        held: Held::Name(n),
    }
}

// A value at a place that holds one, 15 to 18.
pub(crate) fn valued(side: u32, what: usize, value: Value) -> Change {
    Change {
        side,
        what,
        n: 0,
        at: 0,
        node: 0,
        held: Held::Words(value),
    }
}

// Particle 0: an input in a box that waits at a node, with n values, each the same word.
pub(crate) fn waiting(side: u32, at: usize, node: usize, n: usize, w: usize) -> Change {
    Change {
        side,
        what: 38,
        n,
        at,
        node,
        held: Held::Name(w),
    }
}

// Nothing.
pub(crate) fn nothing() -> Change {
    thing(1, 40, 0)
}

// What makes the state to start from out of that of its wrapper.
pub(crate) fn base(start: Start) -> Change {
    match start {
        Start::AllMinted => thing(1, 39, 0),
        Start::Pipeline | Start::Filter | Start::Logging => nothing(),
    }
}
