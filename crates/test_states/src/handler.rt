// The handler's table, and states of it by load and steps.
ghost use Rattle.std.specs.Prelude.{◌<◌, ◌≤◌};

use interpreter::{LoadAnswer, Stepped, load, step};
use sides::State;
use test_changes::{Change, entered_changed};

// The handler. The nodes that the cases name have their number beside them.
const NODES: [[u32; 5]; 45] = [
    [1, 1, 2, 0, 0],
    [3, 20, 3, 0, 0],
    [1, 4, 5, 0, 0],
    [1, 6, 7, 0, 0],
    [2, 30, 8, 0, 0], // 4: box
    [1, 9, 10, 0, 0],
    [6, 0, 1, 0, 11], // 6: replicated input under one name, whose body mints and sends on that name
    [4, 1, 1, 1, 0],
    [4, 13, 1, 2, 0],
    [4, 2, 1, 3, 0],
    [1, 12, 13, 0, 0],
    [3, 22, 14, 0, 0], // 11: new
    [4, 12, 32, 4, 0],
    [1, 15, 16, 0, 0],
    [4, 20, 0, 7, 0],
    [5, 60, 0, 1, 17], // 15: input under no name, binds name 20 for the nodes from 25 on
    [5, 61, 0, 10, 18],
    [1, 19, 20, 0, 0], // 17: parallel
    [5, 50, 0, 19, 21], // 18: input under eight names
    [1, 22, 23, 0, 0],
    [1, 24, 25, 0, 0],
    [0, 0, 0, 0, 0], // 21: nil
    [1, 26, 27, 0, 0],
    [1, 28, 29, 0, 0],
    [1, 30, 31, 0, 0],
    [5, 10, 0, 19, 32], // 25: name 20 is a channel two inputs deep
    [5, 20, 0, 19, 34], // 26: name 20 is its own channel
    [5, 10, 22, 19, 35], // 27: name 20 is its own tag
    [5, 10, 0, 19, 36], // 28: name 20 is a box name in the body
    [5, 10, 0, 19, 38], // 29: name 20 is a tag in the body
    [5, 10, 0, 1, 39], // 30: its pattern hides name 20
    [1, 40, 41, 0, 0],
    [5, 10, 0, 19, 33],
    [4, 20, 0, 2, 0],
    [0, 0, 0, 0, 0],
    [0, 0, 0, 0, 0],
    [2, 20, 37, 0, 0],
    [0, 0, 0, 0, 0],
    [4, 10, 22, 2, 0],
    [4, 20, 0, 2, 0],
    [5, 10, 0, 19, 42], // 40: a new name hides name 20
    [5, 10, 0, 19, 44], // 41: name 20 stands in a value only
    [3, 20, 43, 0, 0],
    [4, 20, 0, 2, 0],
    [4, 10, 0, 1, 0], // 44: output
];

const POOL: [u32; 20] = [
    21, 20, 14, 11, 4000002, 15, 16, 4000002, 21, 22, 4000008, 41, 42, 43, 44, 45, 46, 47, 48,
    4999999,
];

// The words of the nodes, one after the other.
fn table() -> [u32; 225] {
    let mut nodes = [0u32; 225];
    for (k, w) in nodes.iter_mut().enumerate() {
        *w = NODES[k / 5][k % 5];
    }
    nodes
}

// Side 2's words: those of side 1 under the pipeline, else none.
fn second<'a>(wrapper: u32, words: &'a [u32]) -> &'a [u32] {
    match wrapper {
        2 => words,
        _ => &[],
    }
}

// The handler under the pipeline on both sides, or under another wrapper on side 1.
fn loaded(wrapper: u32) -> LoadAnswer {
    let nodes = table();
    load(
        wrapper,
        [&nodes, second(wrapper, &nodes)],
        [&POOL, second(wrapper, &POOL)],
    )
}

// A step of such a state.
fn stepped(
    wrapper: u32,
    s: State,
    kind: u32,
    side: u32,
    i: usize,
    j: usize,
    given: &[u32],
) -> Stepped {
    let nodes = table();
    step(
        wrapper,
        [&nodes, second(wrapper, &nodes)],
        [&POOL, second(wrapper, &POOL)],
        s,
        kind,
        side,
        i,
        j,
        given,
    )
}

// What a side answers to `enter` with the name 20 where two things are put anew, and whether it leaves the state as it was.
pub(crate) fn own_entered(wrapper: u32, s: State, side: u32, a: Change, b: Change) {
    let nodes = table();
    entered_changed(
        wrapper,
        &nodes,
        &POOL,
        second(wrapper, &nodes),
        second(wrapper, &POOL),
        s,
        side,
        a,
        b,
    );
}

// The kind of step that has a name.
const ENTER: u32 = 1;

// Steps: kind, side, two places, name.
const STEPS: [[u32; 5]; 34] = [
    [3, 1, 3, 0, 0], // 0: side 1 under the pipeline: a value on the shelf, a name that left and entered again, an output from a child box, one in it
    [3, 1, 1, 0, 0],
    [6, 1, 0, 0, 0],
    [7, 1, 0, 0, 0],
    [1, 1, 0, 0, 65536],
    [3, 1, 1, 0, 0],
    [4, 1, 2, 1, 0],
    [8, 2, 0, 0, 0], // 7: side 2: the shelf's value taken, a second name minted by a meeting, lobby messages of every status
    [1, 2, 0, 0, 20],
    [2, 2, 1, 0, 0],
    [5, 2, 7, 0, 0],
    [3, 2, 1, 0, 0],
    [6, 2, 1, 0, 0],
    [3, 2, 2, 0, 0],
    [1, 2, 0, 0, 65536],
    [3, 2, 1, 0, 0],
    [1, 1, 0, 0, 20], // 16: under the filter: two names minted, of which one left and entered again
    [2, 1, 0, 0, 0],
    [5, 1, 7, 0, 0],
    [3, 1, 3, 0, 0],
    [3, 1, 1, 0, 0],
    [6, 1, 1, 0, 0],
    [7, 1, 1, 0, 0],
    [1, 1, 0, 0, 65536],
    [3, 1, 1, 0, 0],
    [1, 1, 0, 0, 20], // 25: under the logging wrapper: the same, the name that left in a copy; copies stand in the lobby
    [2, 1, 1, 0, 0],
    [5, 1, 7, 0, 0],
    [3, 1, 3, 0, 0],
    [3, 1, 1, 0, 0],
    [6, 1, 2, 0, 0],
    [7, 1, 3, 0, 0],
    [1, 1, 0, 0, 65536],
    [3, 1, 1, 0, 0],
];

// The state after step k of the list; the name is for `enter`.
fn next(wrapper: u32, s: State, k: usize) -> State
    requires { k < 34 }
{
    let [kind, side, i, j, name] = STEPS[k];
    let names = [name];
    let given: &[u32] = if kind == ENTER { &names } else { &[] };
    let r = stepped(wrapper, s, kind, side, i as usize, j as usize, given);
    r.state
}

// The state that load gives, after a part of the list.
pub(crate) fn after(wrapper: u32, from: usize, to: usize) -> State
    requires { to ≤ 34 }
{
    let a = loaded(wrapper);
    let mut s = a.state;
    for k in from..to {
        s = next(wrapper, s, k);
    }
    s
}
