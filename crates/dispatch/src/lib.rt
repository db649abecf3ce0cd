// A side's step, by its kind: it sees its side, the tables of that side, and of the rest which minted names have left and the
// shelves that it may take from. Its callers have checked the tables and the state before.
#![tactic(auto)]

mod all_sides; // a step where the words of all sides are lent
mod own_side; // kinds 1 to 7, where the side's own words are lent

pub use all_sides::{mark_left, side_step};
