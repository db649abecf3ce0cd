// States with one thing put anew on the side at a place, 0 for side 1.
ghost use Rattle.std.specs.Prelude.{◌<◌};

use sides::{Lobby, Message, State, Status};
use values::Value;

// So many names minted.
pub fn with_minted(mut s: State, k: usize, n: usize) -> State
    requires { k < 2 }
{
    s.sides[k].rest.minted = n;
    s
}

// The last place of a shelf, 63, marked as taken.
pub fn with_last_taken(mut s: State, k: usize) -> State
    requires { k < 2 }
{
    s.sides[k].rest.taken[63] = true;
    s
}

// A message with the name 20.
fn message(status: Status, channel: u32) -> Message {
    Message::new(status, channel, Value::name(20))
}

// The first message arrived on a channel.
pub fn with_arrived(mut s: State, k: usize, channel: u32) -> State
    requires { k < 2 }
{
    s.sides[k].rest.lobby.msgs[0] = message(Status::Arrived, channel);
    s
}

// So many messages: the first arrived on `in`, the others are down on it.
pub fn with_messages(mut s: State, k: usize, n: usize) -> State
    requires { k < 2 }
{
    s.sides[k].rest.lobby = Lobby {
        msgs: [message(Status::Down, 0); 16],
        len: n,
    };
    with_arrived(s, k, 0)
}

// All 16 messages arrived on a channel.
pub fn with_all_arrived(mut s: State, k: usize, channel: u32) -> State
    requires { k < 2 }
{
    s.sides[k].rest.lobby = Lobby {
        msgs: [message(Status::Arrived, channel); 16],
        len: 16,
    };
    s
}
