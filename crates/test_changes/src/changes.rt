// What is put anew on a side. It has a number, and another says how much or which.
//
//   0 to 9    counts: particles, an output's words, an input's values, an input's words, boxes, messages, a message's words, shelf,
//             a shelf's words, minted names
//   10 to 18  names: channel, to child, from child, box name, message's channel, an output's, an input's, a message's and a
//             shelf's value
//   19        an output in a box
//   20        the eighth value of an input
//   21, 22    the parent of box 1; of box 0, named 64
//   23        no particles, and so many boxes
//   24 to 27  so many particles, boxes, messages, values on the shelf, of which the last possible is broken
//   28 to 30  a message down, arrived and leaving on a channel
//   31, 32    a place marked as left, as taken
//   33, 34    an output with an input's fields, an input with an output's
//   35        whether a particle is an output
//   36        an input at a node
//   37        the last word past the length of a shelf's value
//   38        an input in a box, at a node, with so many values, each the same
//   39        256 names minted on each side
//   40        nothing
//
// A number that is to be a word, and is none, is put as the largest word.
//
// Stays a number: the programs write it in rows of numbers, and go over parts of this list by number (names_test, counts.rt and names.rt).
use super::places::as_word;
use crate::{Change, Held};
use values::Value;

// The value that is put.
pub(crate) fn value_of(c: Change) -> Value {
    match c.held {
        Held::Name(name) => Value::name(as_word(name)),
        Held::Words(value) => value,
    }
}

// Names minted on a side.
pub(crate) fn minted(side: u32) -> Change {
    Change {
        side,
        what: 9,
        n: 256,
        at: 0,
        node: 0,
        held: Held::Name(0),
    }
}
