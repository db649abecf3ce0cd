// Load, the eight steps and the question `stranded`: the exported functions. Nothing is asked of what they are lent or given.
#![tactic(auto)]

use loading::LoadRefusal;
use sides::State;
use steps::Said;
use values::Value;

mod load_state; // load
mod step_state; // step
mod stranded_positions; // stranded

pub use load_state::load;
pub use step_state::step;
pub use stranded_positions::stranded;

// What load says, and the state beside it: the sides at their start, or, where it refuses, sides that have nothing.
// Stays a struct beside the Result: `LoadIs`, the clause of `load`, is of the state on a refusal too.
#[derive(Clone, Copy)]
pub struct LoadAnswer {
    pub outcome: Result<(), LoadRefusal>,
    pub state: State,
}

// The answer to a step, its value's words zero past the length, and the state after it.
#[derive(Clone, Copy)]
pub struct Stepped {
    pub said: Said,
    pub side: u32,
    pub value: Value,
    pub state: State,
}
