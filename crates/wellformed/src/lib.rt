// Whether a state by value is well formed for its tables: the test that every step and every question makes first.
//
// The array test comes first, for all sides: below it, every count is within its array. Sides go by their numbers, from 1 on.
#![tactic(auto)]

mod boxes; // boxes
mod held; // names, values and tags that pass 11, minted names below their side's count
mod lobby; // lobby messages
mod marks; // names that have left, shelf places taken
mod particles; // outputs and waiting inputs
mod shelf; // values on the shelf
mod side; // a side
mod state; // a state

pub use state::{shelved_in, well_formed};
