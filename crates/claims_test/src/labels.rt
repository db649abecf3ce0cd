// Labels at fault.
use crate::claim::{copied, copier, first, listing};
use test_output::write;
use test_schedules::lists::{append, repeat};

// Listing A with some labels claimed.
fn copying(name: &[u8], labels: &[u32]) {
    let mut steps = [0u32; 4400];
    let n = listing(&mut steps);
    copied(name, first(&steps, n), labels);
}

// Listing A with a third label, the second once more.
fn third() {
    let mut labels = [0u32; 4400];
    let at = append(&mut labels, 0, &[0, 1, 1, 20]);
    let n = repeat(&mut labels, at, &[1, 1, 3, 4000002, 20, 20], 2);
    copying(b"too many, a third", first(&labels, n));
}

// None, one of two, a third, and one where no step is claimed.
fn counted() {
    copying(b"too few, none", &[]);
    copying(b"too few, one of two", &[0, 1, 1, 20]);
    third();
    copied(b"too many, no step", &[], &[0, 1, 1, 20]);
}

// A record that breaks off: before its count, in its value, with the largest count, and behind the last.
fn broken_off() {
    copying(b"label broken off before its count", &[0, 1, 1, 20, 1, 1]);
    copying(
        b"label broken off in its value",
        &[0, 1, 1, 20, 1, 1, 3, 4000002, 20],
    );
    copying(
        b"label with the largest count",
        &[0, 1, 1, 20, 1, 1, 4294967295, 4000002, 20, 20],
    );
    copying(
        b"label broken off behind the last",
        &[0, 1, 1, 20, 1, 1, 3, 4000002, 20, 20, 1],
    );
}

// The right value on another side, and on another channel.
fn elsewhere() {
    copying(b"another side", &[0, 1, 1, 20, 1, 2, 3, 4000002, 20, 20]);
    copying(b"another channel", &[0, 1, 1, 20, 0, 1, 3, 4000002, 20, 20]);
    copying(
        b"another channel, first label",
        &[1, 1, 1, 20, 1, 1, 3, 4000002, 20, 20],
    );
}

// Another value, and the two labels exchanged.
fn others() {
    copying(
        b"another last word",
        &[0, 1, 1, 20, 1, 1, 3, 4000002, 20, 21],
    );
    copying(
        b"a word too many",
        &[0, 1, 1, 20, 1, 1, 4, 4000002, 20, 20, 20],
    );
    copying(b"a word too few", &[0, 1, 1, 20, 1, 1, 2, 4000002, 20]);
    copying(b"exchanged", &[1, 1, 3, 4000002, 20, 20, 0, 1, 1, 20]);
}

// The copier, logged: 20 enters, and its copy leaves.
fn logged(name: &[u8], labels: &[u32]) {
    write(name);
    copier(3, &[1, 1, 0, 0, 1, 20, 7, 1, 0, 0, 0], labels);
}

// A step that is silent, and `log`, which is on channel 3.
fn channels() {
    copied(
        b"silent step as a label",
        &[1, 1, 0, 0, 1, 20, 2, 1, 0, 0, 0],
        &[0, 1, 1, 20, 0, 1, 0],
    );
    logged(b"log on 3", &[0, 1, 1, 20, 3, 1, 1, 20]);
    logged(b"log on 2", &[0, 1, 1, 20, 2, 1, 1, 20]);
    logged(b"log on 1", &[0, 1, 1, 20, 1, 1, 1, 20]);
}

// The rows of the table.
pub fn claims() {
    counted();
    broken_off();
    elsewhere();
    others();
    channels();
}
