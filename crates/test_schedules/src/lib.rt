// What the programs share that try `run` on tables: lists of words, steps by name, a run, and its answers as lines. A list has 4400
// words; of a longer one the rest is left out. Steps are words: kind, side, i, j, how many value words, value words.
#![tactic(auto)]

pub mod lists; // words one after another, and nodes of tables
pub mod shown; // lines
pub mod named_steps; // steps by name
pub mod tried; // a run and its lines
