// Lists that are well formed but for their count or their last row, and values to put.
use super::places::{put_box, put_output, put_shelved};
use sides::{Lobby, Message, Rows, Status, Tag};
use values::Value;

// 32 outputs in box 0, of which the last is in box `last`.
pub(crate) fn put_outputs(words: &mut [u32; Rows::WORDS], last: usize) {
    let v = Value::name(20);
    for k in 0..31 {
        put_output(words, k, 0, 10, Tag::Within, v);
    }
    put_output(words, 31, last, 10, Tag::Within, v);
}

// 16 boxes in box 0, of which the last has another parent.
pub(crate) fn put_boxes(words: &mut [u32; Rows::WORDS], last: usize) {
    for k in 0..15 {
        put_box(words, k, 30, 0);
    }
    put_box(words, 15, 30, last);
}

// 32 values on the shelf, of which the last is another.
pub(crate) fn put_shelf(words: &mut [u32; Rows::WORDS], last: u32) {
    let v = Value::name(20);
    for k in 0..31 {
        put_shelved(words, k, v);
    }
    put_shelved(words, 31, Value::name(last));
}

// 16 messages down on `in`, of which the last is on another channel, with their number.
pub(crate) fn lobby_of(n: usize, last: u32) -> Lobby {
    let v = Value::name(20);
    let m = Message::new(Status::Down, 0, v);
    let mut l = Lobby {
        msgs: [m; 16],
        len: n,
    };
    l.msgs[15] = Message::new(Status::Down, last, v);
    l
}

// 16 words that are a value, with the length n.
pub(crate) fn words_of(n: usize) -> Value {
    let mut words = [20u32; 16];
    words[0] = 4000015;
    Value { words, len: n }
}

// 1 word, and another past the length in the last place.
pub(crate) fn name_past(last: u32) -> Value {
    let mut words = Value::name(20).words;
    words[15] = last;
    Value { words, len: 1 }
}
