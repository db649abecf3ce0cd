// A row, a box or a shelf value put anew in the words of a side: all words that it has there, those past a length too.
ghost use Rattle.std.specs.Prelude.{◌<◌};

use sides::{Rows, Tag};
use values::Value;

// A word at a place, where a side has it.
fn store(words: &mut [u32; Rows::WORDS], i: usize, w: u32) {
    if let Some(place) = words.get_mut(i) {
        *place = w;
    }
}

// A number as a word; the largest word for a number that is none.
pub(crate) fn as_word(n: usize) -> u32 {
    u32::try_from(n).unwrap_or(u32::MAX)
}

// A value from word a on: its length, and all of its 16 words.
fn store_value(words: &mut [u32; Rows::WORDS], a: usize, v: Value)
    requires { a < 5184 }
{
    store(words, a, as_word(v.len));
    for (k, &w) in v.words.iter().enumerate() {
        store(words, a + 1 + k, w);
    }
}

// A value in place k of row i.
pub(crate) fn put_place(words: &mut [u32; Rows::WORDS], i: usize, k: usize, v: Value)
    requires { (i < 32) × (k < 8) }
{
    store_value(words, Rows::WIDTH * i + Rows::HEAD + Rows::PLACE * k, v);
}

// The words of row i before its places.
fn put_head(words: &mut [u32; Rows::WORDS], i: usize, head: [u32; 8])
    requires { i < 32 }
{
    for (k, &w) in head.iter().enumerate() {
        store(words, Rows::WIDTH * i + k, w);
    }
}

// Row i: the words before its places, a value in the first n of these, and nothing in the others.
pub(crate) fn put_row(words: &mut [u32; Rows::WORDS], i: usize, head: [u32; 8], v: Value, n: usize)
    requires { i < 32 }
{
    put_head(words, i, head);
    for k in 0..Rows::VALUES {
        put_place(words, i, k, if k < n { v } else { Value::none() });
    }
}

// Which of the five tags it is, and the child that it names, 0 where there is none.
fn tag_words(t: Tag) -> [u32; 2] {
    match t {
        Tag::Within => [0, 0],
        Tag::ToParent => [1, 0],
        Tag::FromParent => [2, 0],
        Tag::ToChild(n) => [3, n],
        Tag::FromChild(n) => [4, n],
    }
}

// An output in row i, in a box.
pub(crate) fn put_output(
    words: &mut [u32; Rows::WORDS],
    i: usize,
    at: usize,
    channel: u32,
    tag: Tag,
    v: Value,
)
    requires { i < 32 }
{
    let [kind, child] = tag_words(tag);
    let head = [1, as_word(at), channel, kind, child, 0, 0, 0];
    put_row(words, i, head, v, 1);
}

// An input in row 0, in a box, that waits at a node with n values: all eight are the same.
pub(crate) fn put_waiting(
    words: &mut [u32; Rows::WORDS],
    at: usize,
    node: usize,
    n: usize,
    v: Value,
) {
    let head = [0, as_word(at), 0, 0, 0, as_word(node), as_word(n), 0];
    put_row(words, 0, head, v, 8);
}

// Box j: its name, and the box that it stands in.
pub(crate) fn put_box(words: &mut [u32; Rows::WORDS], j: usize, name: u32, parent: usize)
    requires { j < 16 }
{
    let a = Rows::BOXES + Rows::BOX * j;
    store(words, a, name);
    store(words, a + 1, as_word(parent));
}

// The value in place j of the shelf.
pub(crate) fn put_shelved(words: &mut [u32; Rows::WORDS], j: usize, v: Value)
    requires { j < 32 }
{
    store_value(words, Rows::SHELF + Rows::PLACE * j, v);
}
