// A lobby and its messages.
ghost use Rattle.std.specs.Prelude.{◌≡◌, true, [], ◌∷◌, ◌++◌, ◌+◌, ◌-◌, ◌<◌, ◌≤◌, set};
ghost use Rattle.model.specs.Basics.{◌&◌, remove};
ghost use Rattle.sides.specs.Views.{view_message, view_lobby, fits_message, fits_lobby};
ghost use Rattle.sides.specs.Holding.{LobbyIs};

use crate::{Lobby, Message, Side, Status};
use values::Value;

fn message_fits(m: &Message) -> bool
    ensures { result ≡ fits_message m.now }
{
    Value::length_within(m.value.len)
}

impl Message {
    pub fn new(status: Status, channel: u32, value: Value) -> Self
        ensures { result ≡ record { status = status; channel = channel; value = value } }
    {
        Message {
            status,
            channel,
            value,
        }
    }
}

impl Lobby {
    // No messages.
    pub fn empty() -> Self
        ensures { LobbyIs [] 0 true result }
    {
        Lobby {
            msgs: [Message::new(Status::Down, 0, Value::none()); Side::LOBBY],
            len: 0,
        }
    }

    // One more, last. The caller has seen that there is room.
    pub fn with(mut self, m: Message) -> Self
        requires { self.len < 16 }
        ensures { LobbyIs (view_lobby self ++ (view_message m ∷ [])) (self.len + 1) (fits_lobby self & fits_message m) result }
    {
        self.msgs[self.len] = m;
        self.len += 1;
        self
    }

    // Without place i: those above move down. The caller has seen that there is a place i.
    pub fn without(mut self, i: usize) -> Self
        requires { (i < self.len) × (self.len ≤ 16) }
        ensures { LobbyIs (remove (view_lobby self) i) (self.len - 1) (fits_lobby self) result }
    {
        let n = self.len;
        self.msgs.copy_within(i + 1..n, i);
        self.len = n - 1;
        self
    }

    // Place i put anew. The caller has seen that there is a place i.
    pub fn replaced(mut self, i: usize, m: Message) -> Self
        requires { (i < self.len) × (self.len ≤ 16) }
        ensures { LobbyIs (set (view_lobby self) i (view_message m)) self.len (fits_lobby self & fits_message m) result }
    {
        self.msgs[i] = m;
        self
    }

    // Whether its length and each held place's counts are within their arrays.
    pub fn fits(self) -> bool
        ensures { result ≡ fits_lobby self }
    {
        Side::lobby_within(self.len) && self.msgs[..self.len].iter().all(message_fits)
    }
}
