// A side's lobby.
ghost use Rattle.std.specs.Prelude.{◌≡◌, true, ◌≤◌};
ghost use Rattle.model.specs.Basics.{every, has};
ghost use Rattle.model.specs.WellFormed.{wf_message};
ghost use Rattle.wrappers.specs.Copies.{log_if};
ghost use Rattle.sides.specs.Views.{view_status, view_message, view_lobby, fits_lobby};
ghost use Rattle.wellformed.specs.Clauses.{channel_fits};

use crate::held::{held, held_value};
use sides::{Lobby, Message, Status};

// Whether copies leave on the channel.
fn is_copied(logging: bool, channel: u32) -> bool
    ensures { result ≡ has channel (log_if logging) }
{
    logging && channel == 3
}

// Whether a message may stand on a channel: down on in or mid, arrived on any, but on mid where that goes to the shelf, leaving
// on out or as a copy.
fn channel_fits(shelved: bool, logging: bool, s: Status, channel: u32) -> bool
    ensures { result ≡ channel_fits shelved (log_if logging) (view_status s) channel }
{
    match s {
        Status::Down => channel == 0 || channel == 2,
        Status::Arrived => !shelved || channel != 2,
        Status::Leaving => channel == 1 || is_copied(logging, channel),
    }
}

// Whether a message has a held value, a held channel and a status that fits it.
fn message_ok(shelved: bool, logging: bool, counts: &[usize], m: Message) -> bool
    requires { m.value.len ≤ 16 }
    ensures { result ≡ wf_message shelved (log_if logging) counts.now (view_message m) }
{
    held_value(counts, m.value)
        && held(counts, m.channel)
        && channel_fits(shelved, logging, m.status, m.channel)
}

// Whether each message of a lobby is so.
pub(crate) fn lobby_ok(shelved: bool, logging: bool, counts: &[usize], l: &Lobby) -> bool
    requires { fits_lobby l.now ≡ true }
    ensures { result ≡ every (wf_message shelved (log_if logging) counts.now) (view_lobby l.now) }
{
    l.msgs[..l.len]
        .iter()
        .all(|m| message_ok(shelved, logging, counts, *m))
}
