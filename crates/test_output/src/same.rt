// Whether two states are equal in every field, places past a count and words past a length too.
ghost use Rattle.std.specs.Prelude.{◌≡◌, eqb};
ghost use Rattle.std.specs.Cmp.Lexicographic.{pointwise};
ghost use Rattle.test_output.specs.Same.{same_value, status_number, same_message, same_lobby, same_counts, same_rest, same_side, same_state};

use sides::{Lobby, Message, Rest, Side, State, Status};
use values::Value;

// A value's 16 words, and its length.
fn same_value(a: Value, b: Value) -> bool
    ensures { result ≡ same_value a b }
{
    a.words == b.words && a.len == b.len
}

// Whether both are down, both arrived or both leaving.
fn same_status(a: Status, b: Status) -> bool
    ensures { result ≡ eqb (status_number a) (status_number b) }
{
    matches!(
        (a, b),
        (Status::Down, Status::Down)
            | (Status::Arrived, Status::Arrived)
            | (Status::Leaving, Status::Leaving)
    )
}

fn same_message(a: Message, b: Message) -> bool
    ensures { result ≡ same_message a b }
{
    same_status(a.status, b.status) && a.channel == b.channel && same_value(a.value, b.value)
}

// All 16 messages, place by place.
fn same_messages(a: &[Message; 16], b: &[Message; 16]) -> bool
    ensures { result ≡ pointwise same_message a.now b.now }
{
    a.iter().zip(b.iter()).all(|(m, n)| same_message(*m, *n))
}

// All 16 messages, and their number.
fn same_lobby(a: Lobby, b: Lobby) -> bool
    ensures { result ≡ same_lobby a b }
{
    same_messages(&a.msgs, &b.msgs) && a.len == b.len
}

// How many particles, boxes, shelf values and minted names there are.
fn same_counts(a: Rest, b: Rest) -> bool
    ensures { result ≡ same_counts a b }
{
    a.particles == b.particles
        && a.boxes == b.boxes
        && a.shelved == b.shelved
        && a.minted == b.minted
}

fn same_rest(a: Rest, b: Rest) -> bool
    ensures { result ≡ same_rest a b }
{
    same_counts(a, b) && same_lobby(a.lobby, b.lobby) && a.taken == b.taken
}

fn same_side(a: Side, b: Side) -> bool
    ensures { result ≡ same_side a b }
{
    a.words == b.words && a.left == b.left && same_rest(a.rest, b.rest)
}

pub fn same_state(a: State, b: State) -> bool
    ensures { result ≡ same_state a b }
{
    a.sides
        .iter()
        .zip(b.sides.iter())
        .all(|(s, t)| same_side(*s, *t))
}
