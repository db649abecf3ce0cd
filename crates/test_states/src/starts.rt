// The states to start from.
ghost use Rattle.std.specs.Prelude.{◌≡◌};
ghost use Rattle.test_states.specs.Starts.{wrapper_of};

use super::handler::after;
use crate::Start;
use sides::State;

// The number of its wrapper.
pub fn wrapper_of(start: Start) -> u32
    ensures { result ≡ wrapper_of start }
{
    match start {
        // Stays a number: the C interface has a wrapper as a number, and `step` takes it so.
        Start::Pipeline | Start::AllMinted => 2,
        Start::Filter => 1,
        Start::Logging => 3,
    }
}

// The state of the wrapper; what the start has beside it is put anew (changes.rt).
pub(crate) fn started(start: Start) -> State {
    match start {
        Start::Pipeline | Start::AllMinted => after(2, 0, 16),
        Start::Filter => after(1, 16, 25),
        Start::Logging => after(3, 25, 34),
    }
}
