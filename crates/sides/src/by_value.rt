// A side by value, and its rest, that are empty.
ghost use Rattle.std.specs.Prelude.{◌≡◌};
ghost use Rattle.model.specs.Side.{no_side};
ghost use Rattle.sides.specs.Sides.{Nothing, SideIs};

use crate::{Lobby, Rest, Rows, Side, Sides};

impl Side {
    // A side that the wrapper lacks: nothing is there.
    pub fn empty() -> Self
        ensures { SideIs no_side result }
    {
        Side {
            words: [0; Rows::WORDS],
            rest: Rest::empty(),
            left: [false; Sides::MARKS],
        }
    }
}

impl Rest {
    // Nothing is there, whatever the words are.
    pub fn empty() -> Self
        ensures { Nothing result }
    {
        Rest {
            particles: 0,
            boxes: 0,
            shelved: 0,
            minted: 0,
            lobby: Lobby::empty(),
            taken: [false; Sides::TAKEN],
        }
    }
}
