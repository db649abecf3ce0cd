// What is put anew in the words of a side, by its number (changes.rt): particles, boxes, values on the shelf. How many there are of each
// is no word. Particle 0 is a waiting input in the states to break, particle 1 an output.
use super::changes::value_of;
use super::lists::{name_past, put_boxes, put_outputs, put_shelf, words_of};
use super::places::{as_word, put_box, put_output, put_place, put_row, put_shelved, put_waiting};
use crate::Change;
use sides::{Rows, Tag};
use values::Value;

// A value at a place that holds one, 15 to 18; a message's is no word.
fn put_valued(words: &mut [u32; Rows::WORDS], what: usize, v: Value) {
    match what {
        15 => put_output(words, 1, 0, 10, Tag::Within, v),
        16 => put_waiting(words, 0, 41, 1, v),
        18 => put_shelved(words, 0, v),
        _ => {},
    }
}

// 0 to 9.
fn put_counted(words: &mut [u32; Rows::WORDS], what: usize, n: usize) {
    match what {
        0 => put_outputs(words, 0),
        1 => put_valued(words, 15, words_of(n)),
        2 => put_waiting(words, 0, 18, n, Value::name(20)),
        3 => put_valued(words, 16, words_of(n)),
        4 => put_boxes(words, 0),
        7 => put_shelf(words, 20),
        8 => put_valued(words, 18, words_of(n)),
        _ => {},
    }
}

// 10 to 18.
fn put_named(words: &mut [u32; Rows::WORDS], what: usize, w: u32, v: Value) {
    let name = Value::name(20);
    match what {
        10 => put_output(words, 1, 0, w, Tag::Within, name),
        11 => put_output(words, 1, 0, 10, Tag::ToChild(w), name),
        12 => put_output(words, 1, 0, 10, Tag::FromChild(w), name),
        13 => put_box(words, 1, w, 0),
        _ => put_valued(words, what, v),
    }
}

// An input that waits at node 18 under eight names, with the last value another.
fn put_eighth(words: &mut [u32; Rows::WORDS], w: u32) {
    put_waiting(words, 0, 18, 8, Value::name(20));
    put_place(words, 0, 7, Value::name(w));
}

// 19 to 27.
fn put_rowed(words: &mut [u32; Rows::WORDS], what: usize, n: usize) {
    match what {
        19 => put_output(words, 1, n, 10, Tag::Within, Value::name(20)),
        20 => put_eighth(words, as_word(n)),
        21 => put_box(words, 1, 30, n),
        22 => put_box(words, 0, 64, n),
        23 => {
            put_outputs(words, 0);
            put_boxes(words, 0);
        },
        24 => put_outputs(words, 2),
        25 => put_boxes(words, 15),
        27 => put_shelf(words, 64),
        _ => {},
    }
}

// An output with an input's fields, which are broken: node 99, 99 values, of which all but the first are 64.
fn put_output_with_more(words: &mut [u32; Rows::WORDS]) {
    put_row(words, 1, [1, 0, 10, 0, 0, 99, 99, 0], Value::name(64), 8);
    put_place(words, 1, 0, Value::name(20));
}

// An input at node 15 with an output's fields, which are broken: channel, child and value 64.
fn put_input_with_more(words: &mut [u32; Rows::WORDS]) {
    put_row(words, 0, [0, 0, 64, 3, 64, 15, 0, 0], Value::name(64), 1);
}

// An output, or what is an input but for that.
fn put_output_if(words: &mut [u32; Rows::WORDS], w: u32) {
    put_row(words, 1, [w, 0, 10, 0, 0, 0, 0, 0], Value::name(20), 1);
}

// 33 to 38.
fn put_fields(words: &mut [u32; Rows::WORDS], c: Change) {
    let n = c.n;
    match c.what {
        33 => put_output_with_more(words),
        34 => put_input_with_more(words),
        35 => put_output_if(words, as_word(n)),
        36 => put_waiting(words, 0, n, 1, Value::name(20)),
        37 => put_shelved(words, 0, name_past(as_word(n))),
        38 => put_waiting(words, c.at, c.node, n, value_of(c)),
        _ => {},
    }
}

// Stays beside `changed_rest`: of each part of the list it puts other things; one function for both would be given all eight.
pub(crate) fn put_words(words: &mut [u32; Rows::WORDS], c: Change) {
    match c.what {
        0..=9 => put_counted(words, c.what, c.n),
        10..=18 => put_named(words, c.what, as_word(c.n), value_of(c)),
        19..=27 => put_rowed(words, c.what, c.n),
        _ => put_fields(words, c),
    }
}
