// States with things put anew on a side, well formed or not: what a step of them answers, and whether two of them are the same.
#![tactic(auto)]

mod answered; // what a step of a state answers
mod changes; // what is put anew, by its number
mod in_rest; // what is put anew in counts, lobby and marks
mod in_words; // what is put anew in the words
mod lists; // lists that are well formed but for their count or their last row
mod places; // a row, a box, a shelf value in the words
mod puts; // a state with one thing put anew

pub use answered::{compared, entered, entered_changed};
use values::Value;

// What is put at a place that holds a value: a name, or words with a length.
#[derive(Clone, Copy)]
pub enum Held {
    Name(usize),
    Words(Value),
}

// What is put anew on a side, by its number (changes.rt): how much or which; the box and the node of an input; the value.
#[derive(Clone, Copy)]
pub struct Change {
    pub side: u32,
    pub what: usize,
    pub n: usize,
    pub at: usize,
    pub node: usize,
    pub held: Held,
}
