// An environment in 144 lent words (crate sides): refusals 15 and 16 of a term in it, that of a waiting input, a match bound in it.
#![tactic(auto)]

mod defined;
mod inputs;
mod long;
mod matching;
mod named;

pub use defined::defined_at;
pub use inputs::input_env;
pub use long::too_long;
pub use matching::match_value;
