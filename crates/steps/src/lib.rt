// The steps of a side but meet. A side's words are lent, the rest of it goes by value: a step gives its label, its value and the
// rest after it, or a refusal beside the old rest, and then the very words stay.
#![tactic(auto)]

ghost use Rattle.std.specs.Prelude.{◌≡◌};
ghost use Rattle.steps.specs.declared.Said.TheVariants.{Refused};
ghost use Rattle.steps.specs.Asked.{Says, number_of};

use sides::Rest;
use values::Value;

mod copies;
mod enter_step;
mod left_marks;
mod lobby_steps;
mod particle_steps;
mod room;
mod take_step;

pub use enter_step::enter;
pub use left_marks::mark_all;
pub use lobby_steps::{down, leave, pass};
pub use particle_steps::{descend, up};
pub use take_step::take;

// A step's label, or the number of its refusal.
// Stays one enum of five answers: `said_of` gives document 01's label or number of each; a refusal is an answer, and the run goes on.
#[derive(Clone, Copy)]
pub enum Said {
    In,
    Out,
    Log,
    Silent,
    Refused(u32),
}

#[derive(Clone, Copy)]
pub struct RestStep {
    pub said: Said,
    pub value: Value,
    pub rest: Rest,
}

// What a check of a step answers: the position or the value length that the step goes on with, or the number of a refusal.
// Stays an enum of numbers, taken out by let .. else, with the refusal beside the old rest: document 01 names this form for refused steps.
#[derive(Clone, Copy)]
pub enum Offer {
    At(usize),
    Refused(u32),
}

impl Offer {
    // The number of a refusal.
    pub fn number(self) -> u32
        ensures { result ≡ number_of self }
    {
        match self {
            // Stays 0 for no refusal: `number_of` of specs/Asked.antt, which the contract of `RestStep::refused` names, has it so.
            Offer::At(_) => 0,
            Offer::Refused(n) => n,
        }
    }
}

impl RestStep {
    // What is said, with no value, beside a rest.
    pub fn plain(said: Said, rest: Rest) -> Self
        ensures { Says said rest result }
    {
        let value = Value::none();
        RestStep { said, value, rest }
    }

    // The refusal that a check answered, beside the rest that was there.
    pub fn refused(a: Offer, rest: Rest) -> Self
        ensures { Says (Refused (number_of a)) rest result }
    {
        Self::plain(Said::Refused(a.number()), rest)
    }
}
