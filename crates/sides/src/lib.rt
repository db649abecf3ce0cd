// A side's words in lent memory: its particles as rows, its boxes, its shelf; and an environment in the words of one row
// (specs/Layout.antt). The rest of a side goes by value.
#![tactic(auto)]

use values::Value;

mod boxes;
mod by_value;
mod environment;
mod inputs;
mod layout;
mod limits;
mod list;
mod messages;
mod outputs;
mod places;
mod shelf;
mod tags;

pub use boxes::{box_name, box_parent, put_box};
pub use environment::{bind_name, bind_words, tag_in, word_in};
pub use list::{
    add_output, move_output, put_input, put_sent, remove_row, rows_fit, tag_at, take_values,
    value_at, word_at,
};
pub use shelf::{put_shelf, shelf_fits, shelf_value};
pub use tags::{is_to_child, is_to_parent, tags_fit};

// The sizes of the layout: layout.rt.
#[derive(Clone, Copy)]
pub struct Rows;

// The places of a row's words: layout.rt.
#[derive(Clone, Copy)]
pub struct Row;

// How many sides there are, and what follows from it: layout.rt.
#[derive(Clone, Copy)]
pub struct Sides;

#[derive(Clone, Copy, PartialEq, Eq)]
pub enum Status {
    Down,
    Arrived,
    Leaving,
}

#[derive(Clone, Copy)]
pub struct Message {
    pub status: Status,
    pub channel: u32,
    pub value: Value,
}

// At most 16 messages.
// Stays an array with a length beside it: document 01 names this form; a state that is lent may have any length (`fits_arrays`).
#[derive(Clone, Copy)]
pub struct Lobby {
    pub msgs: [Message; Side::LOBBY],
    pub len: usize,
}

#[derive(Clone, Copy, PartialEq, Eq)]
pub enum Tag {
    Within,
    ToParent,
    FromParent,
    ToChild(u32),
    FromChild(u32),
}

// An output, out of its row.
#[derive(Clone, Copy)]
pub struct Output {
    pub at: usize,
    pub channel: u32,
    pub tag: Tag,
    pub value: Value,
}

// A side but for its words: how many particles, boxes and shelf values it has, how many names it has minted, its lobby, and which
// shelf places it has taken.
// Stays counts apart from the words that they count: fixed memory, no heap; and callers lend the words alone.
#[derive(Clone, Copy)]
pub struct Rest {
    pub particles: usize,
    pub boxes: usize,
    pub shelved: usize,
    pub minted: usize,
    pub lobby: Lobby,
    pub taken: [bool; Sides::TAKEN],
}

// A side by value: its words, the rest, and which minted names have left by its outlet.
#[derive(Clone, Copy)]
pub struct Side {
    pub words: [u32; Rows::WORDS],
    pub rest: Rest,
    pub left: [bool; Sides::MARKS],
}

// The sides, from side 1 on.
// Stays a struct: `view_state` and `state_of` of specs/Sides.antt are of it, and the answers of `load` and `step` hold it.
#[derive(Clone, Copy)]
pub struct State {
    pub sides: [Side; Sides::COUNT],
}
