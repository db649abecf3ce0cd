// Claims as a whole.
use crate::claim::{copied, first, listing, wrapped};
use test_output::write;

// Listing A, with both its labels.
fn listed() {
    let mut steps = [0u32; 4400];
    let n = listing(&mut steps);
    copied(
        b"listing A",
        first(&steps, n),
        &[0, 1, 1, 20, 1, 1, 3, 4000002, 20, 20],
    );
}

// Side 2's table is refused, and that both lists break off is not seen.
fn refused() {
    let nil = [0u32; 5];
    let nodes = [1u32, 1, 2, 0, 0, 4, 5, 0, 0, 0, 0, 0, 0, 0, 0];
    write(b"load refused");
    wrapped(2, &nil, &[], &nodes, &[], &[1], &[0]);
}

// The rows of the table.
pub fn claims() {
    copied(b"nothing claimed", &[], &[]);
    listed();
    refused();
}
