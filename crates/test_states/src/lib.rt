// States by load and steps with one thing put anew on a side, well formed or not, and lines about what a step of them answers.
#![tactic(auto)]

mod asking; // what a step of a state answers
mod changes; // what is put anew
mod handler; // the table, and states by load and steps
mod lines; // lines
mod starts; // the states to start from

pub use asking::start_answered;
pub use lines::{case, compare, input_case, taken_case, untouched, value_case};
pub use starts::wrapper_of;

// The state to start from: under the pipeline, side 1 having minted one name and side 2 two; under the filter, with two names minted;
// under the pipeline, with 256 names minted on each side; under the logging wrapper, as under the filter.
#[derive(Clone, Copy)]
pub enum Start {
    Pipeline,
    Filter,
    AllMinted,
    Logging,
}
