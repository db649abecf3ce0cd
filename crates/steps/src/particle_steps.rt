// Up and descend: the steps that act on an output.
ghost use Rattle.std.specs.Prelude.{◌≡◌, true, false, ◌<◌, get_or};
ghost use Rattle.model.specs.Load.{Setting};
ghost use Rattle.model.specs.Wrapper.{shelves};
ghost use Rattle.model.specs.Step.{up, descend, settled};
ghost use Rattle.sides.specs.Layout.{row_at};
ghost use Rattle.sides.specs.Sides.{core_of};
ghost use Rattle.steps.specs.Asked.{OfferIs, channel_in, with_shelf, goes_to_shelf, up_by, UpAt, DescendAt};
ghost use Rattle.steps.specs.StepIs.{Sane, StepIs};

use crate::room::{lobby_offer, shelf_offer};
use crate::{Offer, RestStep, Said};
use sides::{
    Message, Rest, Row, Status, Tag, box_name, box_parent, is_to_child, is_to_parent, move_output,
    put_shelf, remove_row, tag_at, value_at, word_at,
};

// Whether particle i is an output with tag parent.
fn up_offer(rows: &[u32], o: Rest, i: usize) -> Offer
    requires { Sane rows.now o }
    ensures { (c : Setting) → OfferIs (settled (up c (core_of rows.now o) i)) i (UpAt rows.now o) result }
{
    if o.particles <= i {
        return Offer::Refused(10);
    }
    if word_at(rows, i, Row::OUTPUT) != 1 || !is_to_parent(tag_at(rows, i)) {
        return Offer::Refused(13);
    }
    Offer::At(i)
}

// Output i goes out of box 0, where it is on `mid`, to the shelf.
fn to_shelf(rows: &mut [u32], o: Rest, i: usize) -> RestStep
    requires { (Sane rows.old o) × (i < o.particles) × (get_or (row_at rows.old i) 0 0 ≡ 1) }
    ensures { (c : Setting) → shelves c.wrapper c.side ≡ true → StepIs (up_by c rows.old o i 0 2) rows.old o rows.new result }
{
    let a = shelf_offer(o.shelved);
    let Offer::At(h) = a else {
        return RestStep::refused(a, o);
    };
    put_shelf(rows, h, value_at(rows, i, 0));
    let n = remove_row(rows, i, o.particles);
    let rest = Rest {
        particles: n,
        shelved: h + 1,
        ..o
    };
    RestStep::plain(Said::Silent, rest)
}

// Output i goes out of box 0 to the lobby.
fn to_lobby(rows: &mut [u32], o: Rest, i: usize) -> RestStep
    requires { (Sane rows.old o) × (i < o.particles) × (get_or (row_at rows.old i) 0 0 ≡ 1) }
    ensures { (c : Setting) → goes_to_shelf c (channel_in rows.old i) ≡ false → StepIs (up_by c rows.old o i 0 (channel_in rows.old i)) rows.old o rows.new result }
{
    let a = lobby_offer(o.lobby.len, 1, i);
    let Offer::At(k) = a else {
        return RestStep::refused(a, o);
    };
    let ch = word_at(rows, k, Row::CHANNEL);
    let m = Message::new(Status::Arrived, ch, value_at(rows, k, 0));
    let n = remove_row(rows, k, o.particles);
    let rest = Rest {
        particles: n,
        lobby: o.lobby.with(m),
        ..o
    };
    RestStep::plain(Said::Silent, rest)
}

// Output i goes out of box b, another than box 0, to that box's parent.
fn to_box(rows: &mut [u32], o: Rest, i: usize, b: usize) -> RestStep
    requires { (Sane rows.old o) × (i < o.particles) × (get_or (row_at rows.old i) 0 0 ≡ 1) × (0 < b) × (b < o.boxes) }
    ensures { (c : Setting) → StepIs (up_by c rows.old o i b (channel_in rows.old i)) rows.old o rows.new result }
{
    let n = box_name(rows, b);
    move_output(rows, i, box_parent(rows, b), Tag::FromChild(n));
    RestStep::plain(Said::Silent, o)
}

// Up: output i with tag parent. `shelving` says whether what goes up on `mid` goes to the shelf.
pub fn up(shelving: bool, rows: &mut [u32], o: Rest, i: usize) -> RestStep
    requires { Sane rows.old o }
    ensures { StepIs (settled (up (with_shelf shelving) (core_of rows.old o) i)) rows.old o rows.new result }
{
    let a = up_offer(rows, o, i);
    let Offer::At(k) = a else {
        return RestStep::refused(a, o);
    };
    let b = word_at(rows, k, Row::BOX) as usize;
    if 0 < b {
        return to_box(rows, o, k, b);
    }
    if shelving && word_at(rows, k, Row::CHANNEL) == 2 {
        return to_shelf(rows, o, k);
    }
    to_lobby(rows, o, k)
}

// Whether particle i is an output whose tag names box j, a child of its box.
fn descend_offer(rows: &[u32], o: Rest, i: usize, j: usize) -> Offer
    requires { Sane rows.now o }
    ensures { OfferIs (settled (descend (core_of rows.now o) i j)) i (DescendAt rows.now o j) result }
{
    if o.particles <= i || o.boxes <= j {
        return Offer::Refused(10);
    }
    if word_at(rows, i, Row::OUTPUT) != 1
        || j == 0
        || box_parent(rows, j) != word_at(rows, i, Row::BOX) as usize
        || !is_to_child(tag_at(rows, i), box_name(rows, j))
    {
        return Offer::Refused(13);
    }
    Offer::At(i)
}

// Descend: output i moves into box j, received from the parent.
pub fn descend(rows: &mut [u32], o: Rest, i: usize, j: usize) -> RestStep
    requires { Sane rows.old o }
    ensures { StepIs (settled (descend (core_of rows.old o) i j)) rows.old o rows.new result }
{
    let a = descend_offer(rows, o, i, j);
    let Offer::At(k) = a else {
        return RestStep::refused(a, o);
    };
    move_output(rows, k, j, Tag::FromParent);
    RestStep::plain(Said::Silent, o)
}
