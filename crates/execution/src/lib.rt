// Steps by words, made one at a time on all sides as they are lent: the sides at their start, and the step whose words stand at a
// place. Nothing is checked here: load has taken the tables, and each step keeps a state well formed.
#![tactic(auto)]

mod beginning; // the sides at their start
mod making; // a step made on all sides
mod records; // where a record of words ends
mod step_words; // words as a step

pub use beginning::{Standing, begin_all};
pub use making::{Answer, place_asked, step_at};
pub use records::record_end;
pub use step_words::{next_place, side_at};
