// The trials of claims by `check_trace`, in the order of their table: a line for each, with its name and the verdict. Then rows
// beyond the table: listing A's two lists cut at every place, and wrappers that are none.
#![tactic(auto)]

mod claim; // a claim and the verdict on it
mod labels; // labels at fault
mod more; // beyond the table
mod steps_at_fault; // steps at fault
mod whole; // claims as a whole

fn main() {
    whole::claims();
    steps_at_fault::claims();
    labels::claims();
    more::claims();
}
