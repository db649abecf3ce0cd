// Load's checks of the wrapper and of every side's table, and a side at its start.
#![tactic(auto)]

use tables::checks::Cause;

mod starts; // a side at its start
mod verdicts; // what load says

pub use starts::start_of;
pub use verdicts::{load_verdict, number_of, place_of};

// Why load refuses: the cause, the side, and the lowest node at fault. An unknown wrapper is cause 1 of side 0, node 0.
#[derive(Clone, Copy, PartialEq, Eq)]
pub struct LoadRefusal {
    pub cause: Cause,
    pub side: u32,
    pub node: usize,
}
