// What is put anew in a side but in its words, by its number (changes.rt): the counts, the lobby, the marks.
use super::changes::value_of;
use super::lists::{lobby_of, words_of};
use super::places::as_word;
use crate::Change;
use sides::{Message, Rest, Status};
use values::Value;

// Lobby message 0.
fn with_message(r: Rest, status: Status, channel: u32, v: Value) -> Rest {
    let mut lobby = r.lobby;
    lobby.msgs[0] = Message::new(status, channel, v);
    Rest { lobby, ..r }
}

// The same, arrived on 5.
fn with_value(r: Rest, v: Value) -> Rest {
    with_message(r, Status::Arrived, 5, v)
}

// The same with the name 20.
fn with_named(r: Rest, status: Status, channel: u32) -> Rest {
    with_message(r, status, channel, Value::name(20))
}

// A mark set, if there is such a place.
pub(crate) fn mark(marks: &mut [bool], at: usize) {
    if let Some(place) = marks.get_mut(at) {
        *place = true;
    }
}

// A place marked as taken, if there is one: 32 places for each side's shelf.
fn marked_taken(r: Rest, at: usize) -> Rest {
    let mut taken = r.taken;
    mark(&mut taken, at);
    Rest { taken, ..r }
}

// 0 to 9.
fn counted(r: Rest, what: usize, n: usize) -> Rest {
    match what {
        0 => Rest { particles: n, ..r },
        4 => Rest { boxes: n, ..r },
        5 => Rest {
            lobby: lobby_of(n, 0),
            ..r
        },
        6 => with_value(r, words_of(n)),
        7 => Rest { shelved: n, ..r },
        9 => Rest { minted: n, ..r },
        _ => r,
    }
}

// 10 to 18.
fn named(r: Rest, what: usize, w: u32, v: Value) -> Rest {
    match what {
        14 => with_named(r, Status::Arrived, w),
        17 => with_value(r, v),
        _ => r,
    }
}

// 19 to 27.
fn rowed(r: Rest, what: usize, n: usize) -> Rest {
    match what {
        23 => Rest {
            particles: 0,
            boxes: n,
            ..r
        },
        24 => Rest { particles: n, ..r },
        25 => Rest { boxes: n, ..r },
        26 => Rest {
            lobby: lobby_of(n, 1),
            ..r
        },
        27 => Rest { shelved: n, ..r },
        _ => r,
    }
}

// 28 to 32.
fn marked(r: Rest, what: usize, n: usize) -> Rest {
    match what {
        28 => with_named(r, Status::Down, as_word(n)),
        29 => with_named(r, Status::Arrived, as_word(n)),
        30 => with_named(r, Status::Leaving, as_word(n)),
        32 => marked_taken(r, n),
        _ => r,
    }
}

// Stays beside `put_words`: of each part of the list it puts other things; one function for both would be given all eight.
pub(crate) fn changed_rest(r: Rest, c: Change) -> Rest {
    match c.what {
        0..=9 => counted(r, c.what, c.n),
        10..=18 => named(r, c.what, as_word(c.n), value_of(c)),
        19..=27 => rowed(r, c.what, c.n),
        _ => marked(r, c.what, c.n),
    }
}
