// Down, pass and leave: the steps that act on a lobby message.
ghost use Rattle.std.specs.Prelude.{◌≡◌};
ghost use Rattle.model.specs.Basics.{done};
ghost use Rattle.model.specs.Step.{go_down, pass, leaving_on, leave, settled};
ghost use Rattle.wrappers.specs.Copies.{log_if};
ghost use Rattle.sides.specs.Sides.{core_of};
ghost use Rattle.steps.specs.Asked.{OfferIs, DownAt, PassAt, LeaveAt};
ghost use Rattle.steps.specs.StepIs.{label_of, Sane, StepIs};

use crate::copies::{copies, with_copies};
use crate::room::lobby_offer;
use crate::{Offer, RestStep, Said};
use sides::{Message, Output, Rest, Side, Status, Tag, add_output};

// Whether lobby i is down, with room for a particle more.
fn down_offer(rows: &[u32], o: Rest, i: usize) -> Offer
    requires { Sane rows.now o }
    ensures { OfferIs (settled (go_down (core_of rows.now o) i)) i (DownAt o) result }
{
    if o.lobby.len <= i {
        return Offer::Refused(10);
    }
    if !matches!(o.lobby.msgs[i].status, Status::Down) {
        return Offer::Refused(13);
    }
    if !Side::particles_within(o.particles + 1) {
        return Offer::Refused(17);
    }
    Offer::At(i)
}

// Down: lobby i, being down, becomes a particle of box 0, received from the parent.
pub fn down(rows: &mut [u32], o: Rest, i: usize) -> RestStep
    requires { Sane rows.old o }
    ensures { StepIs (settled (go_down (core_of rows.old o) i)) rows.old o rows.new result }
{
    let a = down_offer(rows, o, i);
    let Offer::At(k) = a else {
        return RestStep::refused(a, o);
    };
    let m = o.lobby.msgs[k];
    let p = Output {
        at: 0,
        channel: m.channel,
        tag: Tag::FromParent,
        value: m.value,
    };
    let n = add_output(rows, o.particles, p);
    let lobby = o.lobby.without(k);
    let rest = Rest {
        particles: n,
        lobby,
        ..o
    };
    RestStep::plain(Said::Silent, rest)
}

// Whether lobby i has arrived on `out`, with room for its copies.
fn pass_offer(rows: &[u32], o: Rest, logging: bool, i: usize) -> Offer
    requires { Sane rows.now o }
    ensures { OfferIs (settled (pass (log_if logging) (core_of rows.now o) i)) i (PassAt logging o) result }
{
    if o.lobby.len <= i {
        return Offer::Refused(10);
    }
    let m = o.lobby.msgs[i];
    if !matches!(m.status, Status::Arrived) || m.channel != 1 {
        return Offer::Refused(13);
    }
    lobby_offer(o.lobby.len, copies(logging), i)
}

// Pass: lobby i, arrived on `out`, becomes leaving, and copies that leave are added last. No word changes.
pub fn pass(rows: &[u32], o: Rest, logging: bool, i: usize) -> RestStep
    requires { Sane rows.now o }
    ensures { StepIs (settled (pass (log_if logging) (core_of rows.now o) i)) rows.now o rows.now result }
{
    let a = pass_offer(rows, o, logging, i);
    let Offer::At(k) = a else {
        return RestStep::refused(a, o);
    };
    let v = o.lobby.msgs[k].value;
    let n = Message::new(Status::Leaving, 1, v);
    let lobby = with_copies(o.lobby.replaced(k, n), logging, v);
    RestStep::plain(Said::Silent, Rest { lobby, ..o })
}

// Whether lobby i is leaving.
fn leave_offer(rows: &[u32], o: Rest, i: usize) -> Offer
    requires { Sane rows.now o }
    ensures { OfferIs (settled (leave (core_of rows.now o) i)) i (LeaveAt o) result }
{
    if o.lobby.len <= i {
        return Offer::Refused(10);
    }
    if !matches!(o.lobby.msgs[i].status, Status::Leaving) {
        return Offer::Refused(13);
    }
    Offer::At(i)
}

// What is said of a message that leaves on a channel: out for `out`, log for the other.
fn leaving_on(channel: u32) -> Said
    ensures { label_of result ≡ done (leaving_on channel) }
{
    if channel == 1 { Said::Out } else { Said::Log }
}

// Leave: lobby i, leaving, is removed and said with its value. No word changes; the marks of left names follow from the label.
pub fn leave(rows: &[u32], o: Rest, i: usize) -> RestStep
    requires { Sane rows.now o }
    ensures { StepIs (settled (leave (core_of rows.now o) i)) rows.now o rows.now result }
{
    let a = leave_offer(rows, o, i);
    let Offer::At(k) = a else {
        return RestStep::refused(a, o);
    };
    let m = o.lobby.msgs[k];
    RestStep {
        said: leaving_on(m.channel),
        value: m.value,
        rest: Rest {
            lobby: o.lobby.without(k),
            ..o
        },
    }
}
