// What a line says is put anew on a side.
use super::writing::write;

// What is put anew, by its number (test_states, changes.rt).
const LABELS: [&[u8]; 35] = [
    b"particles",
    b"output's words",
    b"input's values",
    b"input's words",
    b"boxes",
    b"messages",
    b"message's words",
    b"shelf",
    b"shelf's words",
    b"minted",
    b"channel", // 10
    b"to child",
    b"from child",
    b"box name",
    b"message's channel",
    b"output's value",
    b"input's value",
    b"message's value",
    b"shelf's value",
    b"output in box",
    b"eighth value", // 20
    b"box 1 parent",
    b"box 0 name 64 parent",
    b"no particles, boxes",
    b"particle 31 in box 2, particles",
    b"box 15 parent 15, boxes",
    b"message 15 down on 1, messages",
    b"shelf 31 value 64, shelf",
    b"down on",
    b"arrived on",
    b"leaving on", // 30
    b"left",
    b"taken",
    b"output with an input's fields",
    b"input with an output's fields",
];

// What is put anew on a side, by its number.
pub fn label(what: usize) {
    write(b" ");
    if let Some(text) = LABELS.get(what) {
        write(text);
    }
}
