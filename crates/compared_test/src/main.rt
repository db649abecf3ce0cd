// That the comparison of two states, by which the programs on broken states say that a state was kept, sees each field: pairs of
// states that differ in one.
#![tactic(auto)]

use test_states::compare;

// The fields of a particle.
fn particle_fields(side: u32) {
    compare(b" nothing", side, 9, 8, 9, 8);
    compare(b" output or input", side, 35, 0, 35, 1);
    compare(b" particle's box", side, 19, 0, 19, 1);
    compare(b" channel", side, 10, 10, 10, 11);
    compare(b" tag", side, 11, 5, 12, 5);
    compare(b" tag's name", side, 11, 5, 11, 6);
    compare(b" output's value", side, 15, 20, 15, 21);
    compare(b" node", side, 36, 6, 36, 7);
    compare(b" input's eighth value", side, 20, 20, 20, 21);
    compare(b" number of values", side, 2, 1, 2, 2);
}

// The fields of a message and of a value; the last word of a value is past its length.
fn message_fields(side: u32) {
    compare(b" status", side, 28, 0, 29, 0);
    compare(b" message's channel", side, 28, 0, 28, 1);
    compare(b" message's value", side, 17, 20, 17, 21);
    compare(b" length", side, 8, 1, 8, 2);
    compare(b" word past the length", side, 37, 0, 37, 1);
}

// The lists' lengths, and their last places, which are past the length; the mint count and the last marks.
fn lists(side: u32) {
    compare(b" particles", side, 0, 5, 0, 6);
    compare(b" particle 31", side, 0, 5, 24, 5);
    compare(b" boxes", side, 4, 5, 4, 6);
    compare(b" box 15", side, 4, 5, 25, 5);
    compare(b" box name", side, 13, 30, 13, 31);
    compare(b" messages", side, 5, 5, 5, 6);
    compare(b" message 15", side, 5, 5, 26, 5);
    compare(b" shelf", side, 7, 5, 7, 6);
    compare(b" shelf 31", side, 7, 5, 27, 5);
    compare(b" minted", side, 9, 8, 9, 9);
    compare(b" taken", side, 32, 31, 32, 32);
    compare(b" left", side, 31, 511, 31, 512);
}

// A mark beside no mark: the last place of side 1's shelf, the first and the last of side 2's. There is no place 64.
fn taken_marks(side: u32) {
    compare(b" taken 31", side, 32, 31, 32, 64);
    compare(b" taken 32", side, 32, 32, 32, 64);
    compare(b" taken 63", side, 32, 63, 32, 64);
    compare(b" taken 64", side, 32, 64, 32, 65);
}

// Each field of a side.
fn fields(side: u32) {
    particle_fields(side);
    message_fields(side);
    lists(side);
}

fn main() {
    fields(1);
    fields(2);
    taken_marks(1);
    taken_marks(2);
}
