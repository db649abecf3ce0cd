// States that no load and no step gives: each breaks one clause of well-formedness, and a step answers 10 and keeps the state.
//
// A line has `broken`, or `allowed` for a state beside a broken one; the wrapper; the side that is changed; what is put there;
// after the colon the answer of each side to `enter` with the name 20, and `kept` where the state that came back is the one that
// was passed, field by field. That the comparison tells two states apart that differ in one field is shown by the program
// `compared_test`.
//
// The clauses, in the order of the definitions, and what the lines that break them say; the others are broken by the programs
// `names_test` (fits_arrays, held, held_word, wf_value, wf_tag, limits) and `refused_test` (ready). Side 1 of the pipeline has minted one
// name, side 2 two; the filter's side 1 two.
//
//   wf_particle  output and input in box 2, of two; input at node 45, of 45, and at nil 21, parallel 17, box 4, new 11, output 44;
//               with one value at 15 for none, none or two at 6 for one, seven at 18 for eight; the eighth value 64; the empty
//               tuple, 4000000, where it is used as channel or tag (26, 27), or in the body as box name, tag or channel (28, 29,
//               25, 6); particle 31 of 32
//   wf_boxes     box 1 parent 1; box 15 of 16; box name by `names_test`
//   wf_contents  no particles, boxes 0
//   wf_message   down on 1 and a minted name; arrived on 2 on side 1 of the pipeline; leaving on 2 and a minted name, and on 3 but under
//               the logging wrapper; message 15 of 16
//   wf_core      shelf 1 on side 2 and under the filter; shelf 31 of 32
//   wf_left      left 1 and 258 (the filter's: 2 and 256)
//   wf_taken     taken on side 1; on side 2 at a place past the shelf's length, and at 32 and 63, places of side 2's shelf
//   is_no_side    filter 2 and logging 2: particles, boxes, messages, shelf, minted, left, taken
#![tactic(auto)]

mod cases; // one thing put anew
mod inputs; // waiting inputs

use cases::cases;
use inputs::inputs;
use test_output::write;
use test_states::{Start, taken_case, untouched};

// A side under the pipeline. By the counts of the state: one name of side 1, two of side 2.
fn pipeline(side: u32) {
    cases(Start::Pipeline, side, 0, 32);
    inputs(Start::Pipeline, side);
    cases(Start::Pipeline, side, 32, 36);
}

// The largest serials, with 256 names minted on each side.
fn largest_serials() {
    write(b"with 256 names minted on each side\n");
    cases(Start::AllMinted, 1, 36, 38);
    cases(Start::AllMinted, 2, 36, 38);
    write(b"with the names that were minted\n");
}

// Side 1 has no mark, side 2 only those of places that are filled.
fn taken_marks() {
    taken_case(false, Start::Pipeline, 1, 0, 1);
    taken_case(false, Start::Pipeline, 1, 31, 32);
    taken_case(true, Start::Pipeline, 2, 0, 1);
    taken_case(false, Start::Pipeline, 2, 0, 0);
    taken_case(false, Start::Pipeline, 2, 1, 1);
    taken_case(false, Start::Pipeline, 2, 31, 31);
    taken_case(true, Start::Pipeline, 2, 31, 32);
}

// Places 32 to 63 are for a shelf of side 2, which has none: no side has a mark there, however full side 1's shelf is.
fn taken_marks_past_32() {
    taken_case(false, Start::Pipeline, 1, 32, 32);
    taken_case(false, Start::Pipeline, 1, 63, 32);
    taken_case(false, Start::Pipeline, 2, 32, 32);
    taken_case(false, Start::Pipeline, 2, 63, 32);
    taken_case(false, Start::Filter, 1, 32, 0);
    taken_case(false, Start::Filter, 1, 63, 0);
    taken_case(false, Start::Filter, 2, 32, 0);
    taken_case(false, Start::Filter, 2, 63, 0);
}

// The filter: two names of side 1, none of side 2, which is empty.
fn filter() {
    cases(Start::Filter, 1, 0, 32);
    inputs(Start::Filter, 1);
    cases(Start::Filter, 1, 38, 41);
    taken_case(false, Start::Filter, 1, 0, 0);
    cases(Start::Filter, 2, 41, 47);
    taken_case(false, Start::Filter, 2, 0, 0);
}

// A message that leaves on log, under the others and under the logging wrapper; its side 1 but for that as the filter's, its side 2 empty.
fn logging() {
    cases(Start::Pipeline, 1, 47, 48);
    cases(Start::Pipeline, 2, 47, 48);
    cases(Start::Filter, 1, 47, 48);
    untouched(Start::Logging);
    cases(Start::Logging, 1, 48, 55);
    cases(Start::Logging, 1, 28, 32);
    cases(Start::Logging, 1, 38, 41);
    taken_case(false, Start::Logging, 1, 0, 0);
    cases(Start::Logging, 2, 41, 47);
    taken_case(false, Start::Logging, 2, 0, 0);
}

fn main() {
    untouched(Start::Pipeline);
    untouched(Start::Filter);
    pipeline(1);
    pipeline(2);
    largest_serials();
    taken_marks();
    filter();
    taken_marks_past_32();
    logging();
}
