// Take: a side takes a value off a source's shelf.
ghost use Rattle.std.specs.Prelude.{◌≡◌, true, ◌<◌};
ghost use Rattle.model.specs.Side.{taken_at};
ghost use Rattle.model.specs.Step.{takes, settled};
ghost use Rattle.sides.specs.Layout.{view_shelf};
ghost use Rattle.sides.specs.Sides.{core_of};
ghost use Rattle.steps.specs.Asked.{OfferIs, TakeAt, Source};
ghost use Rattle.steps.specs.StepIs.{Sane, StepIs};

use crate::room::lobby_offer;
use crate::{Offer, RestStep, Said};
use sides::{Message, Rest, Side, Status, shelf_value};

// The place of shelf place i of a source among the taken marks.
fn taken_at(source: usize, i: usize) -> usize
    requires { (0 < source) × (source < 65536) × (i < 32) }
    ensures { result ≡ taken_at source i }
{
    Side::SHELF * (source - 1) + i
}

// Whether shelf i of the source, which has so many values on it, is not yet taken, with room for a message more.
fn take_offer(
    rows: &[u32],
    o: Rest,
    shelf: &[u32],
    shelved: usize,
    source: usize,
    i: usize,
) -> Offer
    requires { (Sane rows.now o) × Source source shelf.now shelved }
    ensures { OfferIs (settled (takes source (view_shelf shelf.now shelved) (core_of rows.now o) i)) i (TakeAt o source shelved) result }
{
    if shelved <= i {
        return Offer::Refused(10);
    }
    if o.taken[taken_at(source, i)] {
        return Offer::Refused(13);
    }
    lobby_offer(o.lobby.len, 1, i)
}

// Take: shelf i of the source, whose words are lent too, is marked and added to the lobby as down on `mid`. No word changes.
pub fn take(
    rows: &[u32],
    o: Rest,
    shelf: &[u32],
    shelved: usize,
    source: usize,
    i: usize,
) -> RestStep
    requires { (Sane rows.now o) × Source source shelf.now shelved }
    ensures { StepIs (settled (takes source (view_shelf shelf.now shelved) (core_of rows.now o) i)) rows.now o rows.now result }
{
    let a = take_offer(rows, o, shelf, shelved, source, i);
    let Offer::At(k) = a else {
        return RestStep::refused(a, o);
    };
    let m = Message::new(Status::Down, 2, shelf_value(shelf, k));
    let mut taken = o.taken;
    taken[taken_at(source, k)] = true;
    let rest = Rest {
        lobby: o.lobby.with(m),
        taken,
        ..o
    };
    RestStep::plain(Said::Silent, rest)
}
