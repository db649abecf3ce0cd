// Lines of output for test programs, and whether two states are equal.
#![tactic(auto)]

mod labels; // what a line says is put anew
mod same; // whether two states are equal
mod writing; // numbers, texts, labels and values

pub use labels::label;
pub use same::same_state;
pub use writing::{number, word, write, write_said, write_value, write_words};
