// States that no load and no step gives: a count past its limit, and what is no name or no value, at every place that holds one. A
// step answers 10 and keeps the state. The lines are as those of the program `states_test`.
//
// The clauses, in the order of the definitions, and what the lines that break them say. Side 1 of the pipeline has minted one name,
// side 2 two; the filter's side 1 two.
//
//   fits_arrays  particles 33; output's words 17; input's values 9; input's words 17; boxes 17; messages 17; message's words 17;
//               shelf 33; shelf's words 17; each also with the largest number
//   held        64, 4000000 and 4999999, no names, as channel, to child, from child, box name, message's channel; 65537 and 131074,
//               not minted (the filter's: 65538 and 131072); 65792 and 131328, past the largest serial; 196607 and
//               196864, beside the names from outside, which have no count
//   held_word    64 and those four as an output's, an input's, a message's and a shelf's value; in tuples
//   wf_value     at those four: length 0; the wildcard; 4000016; 3999999; words left over; parts missing; length 17
//   wf_tag       to child and from child, as in held
//   limits      minted 257; the others are those of fits_arrays
#![tactic(auto)]

mod counts; // each count
mod names; // names and values

use counts::counts;
use names::{names, value, values};
use test_output::write;
use test_states::Start;

// What no state may hold, whatever was minted.
fn any_side(start: Start, side: u32) {
    counts(start, side);
    names(false, start, side, 10, 15, &[64, 4000000, 4999999]);
    names(false, start, side, 15, 19, &[64]);
    values(false, start, side, 0, 8);
    values(true, start, side, 8, 12);
}

// The largest serials and the next, with 256 names minted on each side.
fn largest_serials(side: u32) {
    write(b"with 256 names minted on each side\n");
    names(true, Start::AllMinted, side, 10, 19, &[65791, 131327]);
    names(false, Start::AllMinted, side, 10, 19, &[65792, 131328]);
    write(b"with the names that were minted\n");
}

// The names from outside, and those beside them.
fn from_outside(start: Start, side: u32) {
    names(true, start, side, 10, 19, &[196608, 196863]);
    names(false, start, side, 10, 19, &[196607, 196864]);
}

// What is by the counts of the state, under the pipeline: one name of side 1, two of side 2.
fn pipeline(side: u32) {
    names(true, Start::Pipeline, side, 10, 19, &[63, 65536, 131073]);
    names(false, Start::Pipeline, side, 10, 19, &[65537, 131074]);
    values(false, Start::Pipeline, side, 12, 15);
    value(false, Start::Pipeline, side, 16);
}

// The same under the filter: two names of side 1, none of side 2.
fn filter() {
    names(true, Start::Filter, 1, 10, 19, &[63, 65537]);
    names(
        false,
        Start::Filter,
        1,
        10,
        19,
        &[65538, 65792, 131072, 131328],
    );
    values(false, Start::Filter, 1, 12, 14);
    values(false, Start::Filter, 1, 15, 17);
}

fn main() {
    any_side(Start::Pipeline, 1);
    pipeline(1);
    from_outside(Start::Pipeline, 1);
    largest_serials(1);
    any_side(Start::Pipeline, 2);
    pipeline(2);
    from_outside(Start::Pipeline, 2);
    largest_serials(2);
    any_side(Start::Filter, 1);
    filter();
    from_outside(Start::Filter, 1);
}
