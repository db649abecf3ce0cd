// The deepest tables and the largest unfoldings, by `run`: tables of 256 nodes, loaded, with steps for which the interpreter goes
// to their last node.
#![tactic(auto)]

mod bodies; // what unfolds at a meeting
mod rounds; // the same steps many times
mod starts; // what unfolds at the start
mod nodes; // nodes
mod tried; // a run with the pool of all tables
mod waiting; // inputs one in another

fn main() {
    starts::shapes();
    waiting::shapes();
    bodies::shapes();
}
