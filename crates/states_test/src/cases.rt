// States with one thing put anew, as a list of rows, each a line.
ghost use Rattle.std.specs.Prelude.{◌≤◌};

use test_states::{Start, case, wrapper_of};
use wrappers::has_shelf;

// Where: 0 on every side, 1 where the side may have a shelf, 2 where it may not. Whether it is allowed. What is put, by its number in
// the crate `test_states` (changes.rt); how much or which.
const ROWS: [[usize; 4]; 55] = [
    [0, 1, 19, 1], // 0: an output in a box: there are boxes 0 and 1
    [0, 0, 19, 2],
    [0, 1, 20, 63], // 2: the last of eight values; fields that are not read
    [0, 0, 20, 64],
    [0, 1, 33, 0],
    [0, 1, 34, 0],
    [0, 1, 21, 0], // 6: parents; no box
    [0, 0, 21, 1],
    [0, 1, 22, 9],
    [0, 1, 23, 1],
    [0, 0, 23, 0],
    [0, 1, 24, 31], // 11: the last row of a full list; one row less, and it is not read
    [0, 0, 24, 32],
    [0, 1, 25, 15],
    [0, 0, 25, 16],
    [0, 1, 26, 15],
    [0, 0, 26, 16],
    [1, 1, 27, 31],
    [1, 0, 27, 32],
    [0, 1, 28, 0], // 19: each status on channels that it may have, and on others
    [0, 0, 28, 1],
    [0, 1, 28, 2],
    [0, 0, 28, 65536],
    [0, 1, 29, 1],
    [0, 1, 29, 65536],
    [0, 1, 30, 1],
    [0, 0, 30, 2],
    [0, 0, 30, 65536],
    [1, 0, 29, 2], // 28: arrived on mid, and values on the shelf: where what goes up on mid goes to the shelf, and where not
    [1, 1, 7, 1],
    [2, 1, 29, 2],
    [2, 0, 7, 1],
    [0, 1, 31, 0], // 32: names that have left, under the pipeline
    [0, 0, 31, 1],
    [0, 1, 31, 257],
    [0, 0, 31, 258],
    [0, 1, 31, 255], // 36: with 256 names minted on each side
    [0, 1, 31, 511],
    [0, 1, 31, 1], // 38: under the filter
    [0, 0, 31, 2],
    [0, 0, 31, 256],
    [0, 0, 0, 1], // 41: side 2 of the filter and of the logging wrapper
    [0, 0, 4, 1],
    [0, 0, 5, 1],
    [0, 0, 7, 1],
    [0, 0, 9, 1],
    [0, 0, 31, 0],
    [0, 0, 30, 3], // 47: leaving on log under the filter and the pipeline
    [0, 1, 30, 1], // 48: under the logging wrapper: leaving on out and on log, and on no other; log is no other status's
    [0, 1, 30, 3],
    [0, 0, 30, 0],
    [0, 0, 30, 2],
    [0, 0, 30, 4],
    [0, 1, 29, 3],
    [0, 0, 28, 3],
];

// Whether a row is for a side.
fn is_for(at: usize, start: Start, side: u32) -> bool {
    at == 0 || (at == 1) == has_shelf(wrapper_of(start), side)
}

// The lines of a part of the list.
pub fn cases(start: Start, side: u32, from: usize, to: usize)
    requires { to ≤ 55 }
{
    for k in from..to {
        let [at, good, what, n] = ROWS[k];
        if is_for(at, start, side) {
            case(good == 1, start, side, what, n);
        }
    }
}
