// Names and values, at every place that holds one.
ghost use Rattle.std.specs.Prelude.{◌<◌, ◌≤◌};

use test_states::{Start, case, value_case, wrapper_of};
use values::Value;
use wrappers::has_shelf;

// Whether a side has a place: no shelf but where it may have one.
fn is_place(place: usize, start: Start, side: u32) -> bool {
    place != 18 || has_shelf(wrapper_of(start), side)
}

// Each of the words as a name, or as a value of one word, at a place.
fn names_at(good: bool, start: Start, side: u32, place: usize, words: &[u32]) {
    for &w in words {
        case(good, start, side, place, w as usize);
    }
}

// At each of the places 10 to 18 from one on to another; 18 is the shelf.
pub fn names(good: bool, start: Start, side: u32, from: usize, to: usize, words: &[u32]) {
    for place in from..to {
        if is_place(place, start, side) {
            names_at(good, start, side, place, words);
        }
    }
}

// Length, four words, the word in the other places.
const VALUES: [[u32; 6]; 17] = [
    [0, 0, 0, 0, 0, 0], // 0: no value: no words, the wildcard, no tuple word, words left over, parts missing
    [1, 4999999, 0, 0, 0, 0],
    [1, 4000016, 0, 0, 0, 0],
    [1, 3999999, 0, 0, 0, 0],
    [2, 20, 20, 0, 0, 0],
    [2, 4000002, 20, 0, 0, 0],
    [3, 4000001, 20, 20, 0, 0],
    [3, 4000002, 20, 4999999, 0, 0],
    [1, 4000000, 0, 0, 0, 0], // 8: allowed: the empty tuple, 16 words, tuples in a tuple, a name with other words past the length
    [16, 4000015, 20, 20, 20, 20],
    [4, 4000002, 4000001, 65536, 63, 0],
    [1, 20, 4999999, 4999999, 4999999, 4999999],
    [17, 4000015, 4000001, 20, 20, 20], // 12: a word over 16, and 16 with a part missing
    [16, 4000015, 4000001, 20, 20, 20],
    [3, 4000002, 20, 65537, 0, 0], // 14: in a tuple a name that is not minted under the pipeline, one under the filter, and no name
    [3, 4000002, 20, 131072, 0, 0],
    [3, 4000001, 4000001, 64, 0, 0],
];

fn value_of(row: [u32; 6]) -> Value {
    let [len, a, b, c, d, rest] = row;
    let mut words = [rest; 16];
    words[..4].copy_from_slice(&[a, b, c, d]);
    Value {
        words,
        len: len as usize,
    }
}

// A value of the list at each place that holds one.
pub fn value(good: bool, start: Start, side: u32, at: usize)
    requires { at < 17 }
{
    let v = value_of(VALUES[at]);
    for place in 15..19 {
        if is_place(place, start, side) {
            value_case(good, start, side, place, v);
        }
    }
}

// A part of the list.
pub fn values(good: bool, start: Start, side: u32, from: usize, to: usize)
    requires { to ≤ 17 }
{
    for at in from..to {
        value(good, start, side, at);
    }
}
