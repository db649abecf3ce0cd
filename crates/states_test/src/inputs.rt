// Waiting inputs, as a list of rows, each a line.
use test_states::{Start, input_case};

// Whether it is allowed; the box; the node; the number of values; the word that each is. The first three are words on a side: the
// largest number is put as the largest word.
const INPUTS: [[usize; 5]; 27] = [
    [1, 1, 6, 1, 20], // the box: there are boxes 0 and 1
    [0, 2, 6, 1, 20],
    [0, 18446744073709551615, 6, 1, 20],
    [0, 0, 45, 0, 20], // the node: past the table, and of each other kind, with as many values as names are in force there
    [0, 0, 18446744073709551615, 0, 20],
    [0, 0, 21, 8, 20],
    [0, 0, 17, 1, 20],
    [0, 0, 4, 0, 20],
    [0, 0, 11, 2, 20],
    [0, 0, 44, 1, 20],
    [1, 0, 41, 1, 20],
    [1, 0, 15, 0, 20], // the number of values: no name is in force at node 15, one at 6, eight at 18
    [0, 0, 15, 1, 20],
    [0, 0, 6, 0, 20],
    [0, 0, 6, 2, 20],
    [0, 0, 18, 7, 20],
    [1, 0, 18, 8, 20],
    [0, 0, 26, 1, 4000000], // a tuple for a name that is free as channel or tag of the input itself, as box name, tag or channel in its body
    [0, 0, 27, 1, 4000000],
    [0, 0, 28, 1, 4000000],
    [0, 0, 29, 1, 4000000],
    [0, 0, 25, 1, 4000000],
    [0, 0, 6, 1, 4000000],
    [1, 0, 26, 1, 20],
    [1, 0, 30, 1, 4000000], // a tuple for a name that a pattern or a new one hides, or that stands only in a value
    [1, 0, 40, 1, 4000000],
    [1, 0, 41, 1, 4000000],
];

// The lines of the list.
pub fn inputs(start: Start, side: u32) {
    for &[good, at, node, n, w] in &INPUTS {
        input_case(good == 1, start, side, at, node, n, w);
    }
}
