// The trials of the scope document by `run`, those of the logging wrapper and those of names from outside. What trial B strands is asked in run_test, and other runs are there.
#![tactic(auto)]

mod logging; // the logging wrapper
mod others; // the trials that are not starred
mod outside; // names brought from outside
mod rounds; // the same steps many times
mod starred; // the trials A to I

fn main() {
    starred::trials();
    others::trials();
    logging::trials();
    outside::trials();
}
