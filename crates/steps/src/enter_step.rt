// Enter: a value comes in by the inlet.
ghost use Rattle.std.specs.Prelude.{◌≡◌, length};
ghost use Rattle.model.specs.Basics.{every};
ghost use Rattle.model.specs.Wrapper.{all_sides};
ghost use Rattle.steps.specs.Asked.{OfferIs, EnterAt, enter_by, may_enter};
ghost use Rattle.steps.specs.StepIs.{Sane, StepIs};

use crate::copies::{copies, with_copies};
use crate::left_marks::may_enter;
use crate::room::lobby_offer;
use crate::{Offer, RestStep, Said};
use sides::{Message, Rest, Sides, Status};
use values::{Value, is_value};

// Whether every minted name among the words has left by an outlet.
fn all_may_enter(marks: &[[bool; Sides::MARKS]; Sides::COUNT], words: &[u32]) -> bool
    requires { length marks.now ≡ length all_sides }
    ensures { result ≡ every (may_enter marks.now) words.now }
{
    words.iter().all(|&w| may_enter(marks, w))
}

// Whether the words are a value that may enter, with room for a message and its copies. The answer is the value length.
fn enter_offer(
    rows: &[u32],
    o: Rest,
    logging: bool,
    marks: &[[bool; Sides::MARKS]; Sides::COUNT],
    words: &[u32],
) -> Offer
    requires { (Sane rows.now o) × (length marks.now ≡ length all_sides) }
    ensures { OfferIs (enter_by logging marks.now rows.now o words.now) (length words.now) (EnterAt logging o marks.now words.now) result }
{
    if !is_value(words) {
        return Offer::Refused(11);
    }
    if !all_may_enter(marks, words) {
        return Offer::Refused(12);
    }
    lobby_offer(o.lobby.len, copies(logging) + 1, words.len())
}

// Enter: copies that leave, then a down message on `in`, are added to the lobby. No word changes.
pub fn enter(
    rows: &[u32],
    o: Rest,
    logging: bool,
    marks: &[[bool; Sides::MARKS]; Sides::COUNT],
    words: &[u32],
) -> RestStep
    requires { (Sane rows.now o) × (length marks.now ≡ length all_sides) }
    ensures { StepIs (enter_by logging marks.now rows.now o words.now) rows.now o rows.now result }
{
    let a = enter_offer(rows, o, logging, marks, words);
    let Offer::At(n) = a else {
        return RestStep::refused(a, o);
    };
    let value = Value::of(&words[..n]);
    let m = Message::new(Status::Down, 0, value);
    RestStep {
        said: Said::In,
        value,
        rest: Rest {
            lobby: with_copies(o.lobby, logging, value).with(m),
            ..o
        },
    }
}
