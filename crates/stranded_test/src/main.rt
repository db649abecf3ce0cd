// What the question `stranded` answers: in lobbies that load and steps give, of a side that is not there, and where tables are refused or the
// state is not well formed; with lent lists of every length. Then the side in a refusal.
#![tactic(auto)]

mod calls; // load, a step and the question `stranded`
mod changes; // states with one thing put anew
mod lists; // lent lists that are too short, long enough and longer
mod lobbies; // what is stranded in lobbies by load and steps
mod refusals; // the side of a refused step
mod unready; // what is stranded where tables are refused or the state is broken

use test_schedules::lists::node;

// A handler that sends its parent a message on `out`, on `in`, on `mid` and on a minted name:
// out^parent 20 | (in^parent 20 | (mid^parent 20 | new n. n^parent 20))
fn sender_nodes(nodes: &mut [u32; 4400]) {
    node(nodes, 0, 1, 1, 2, 0, 0);
    node(nodes, 1, 4, 1, 1, 0, 0);
    node(nodes, 2, 1, 3, 4, 0, 0);
    node(nodes, 3, 4, 0, 1, 0, 0);
    node(nodes, 4, 1, 5, 6, 0, 0);
    node(nodes, 5, 4, 2, 1, 0, 0);
    node(nodes, 6, 3, 10, 7, 0, 0);
    node(nodes, 7, 4, 10, 1, 0, 0);
}

// What is stranded, and what a refused step answers, with the handler's nodes; beside them nil, and a node of an unknown kind.
fn asked<'a>(nodes: &'a [u32], nil: &'a [u32], unknown: &'a [u32]) {
    let pool = [20u32];
    lobbies::lines(nodes, &pool);
    lists::lines(nodes, &pool);
    unready::lines(nodes, &pool, nil, unknown);
    refusals::lines(nodes, &pool, unknown);
}

// The questions with that handler.
fn questions() {
    let mut nodes = [0u32; 4400];
    sender_nodes(&mut nodes);
    asked(&nodes[..40], &[0; 5], &[7, 0, 0, 0, 0]);
}

fn main() {
    questions();
}
