// The numbers of the layout that specs/Layout.antt defines. Contracts and definitions are no code: they write the numbers out.
use crate::{Row, Rows, Side, Sides};
use values::{Bound, Minting, Value};

impl Rows {
    // The words of a row before its places for values; an environment has its names there.
    pub const HEAD: usize = 8;

    // The places for values of a row: one for each bound name in force.
    pub const VALUES: usize = Bound::MOST;

    // The words of a place: a value's length, then its words.
    pub const PLACE: usize = 1 + Value::LONGEST;

    // The words of a row, and of an environment: 144.
    pub const WIDTH: usize = Rows::HEAD + Rows::PLACE * Rows::VALUES;

    // Where a side's boxes begin, behind its rows: 4,608.
    pub const BOXES: usize = Rows::WIDTH * Side::PARTICLES;

    // The words of a box.
    pub const BOX: usize = 2;

    // Where its shelf begins, behind its boxes: 4,640.
    pub const SHELF: usize = Rows::BOXES + Rows::BOX * Side::BOXES;

    // The words of a side: its rows, its boxes, its shelf: 5,184.
    pub const WORDS: usize = Rows::SHELF + Rows::PLACE * Side::SHELF;
}

impl Row {
    // 1 in an output's row, 0 in a waiting input's.
    pub const OUTPUT: usize = 0;

    // The box that the particle is in.
    pub const BOX: usize = 1;

    // An output's channel.
    pub const CHANNEL: usize = 2;

    // Which of the five tags an output has.
    pub const TAG: usize = 3;

    // The child that the tag names.
    pub const CHILD: usize = 4;

    // A waiting input's node.
    pub const NODE: usize = 5;

    // How many values a waiting input holds.
    pub const HELD: usize = 6;
}

impl Sides {
    // The sides that are lent tables and have a place in a state.
    pub const COUNT: usize = Minting::SIDES;

    // A side's marks of minted names: as many for each side as it may mint.
    pub const MARKS: usize = Side::MINTED * Sides::COUNT;

    // A side's taken marks: as many for each side as its shelf has places.
    pub const TAKEN: usize = Side::SHELF * Sides::COUNT;
}
