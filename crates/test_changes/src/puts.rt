// A state with one thing put anew on a side.
use super::changes::minted;
use super::in_rest::{changed_rest, mark};
use super::in_words::put_words;
use crate::Change;
use sides::{Side, State};

fn changed(mut o: Side, c: Change) -> Side {
    put_words(&mut o.words, c);
    if c.what == 31 {
        mark(&mut o.left, c.n);
    }
    o.rest = changed_rest(o.rest, c);
    o
}

// A state is as it was where the side is none.
fn put_on(mut s: State, c: Change) -> State {
    if 0 < c.side {
        if let Some(side) = s.sides.get_mut((c.side - 1) as usize) {
            *side = changed(*side, c);
        }
    }
    s
}

pub(crate) fn put(s: State, c: Change) -> State {
    match c.what {
        39 => put_on(put_on(s, minted(1)), minted(2)),
        _ => put_on(s, c),
    }
}
