// Tables that load refuses, lent to a step of a state that any table suits: it holds no input. The step answers 10 and keeps the state.
//
// A line has `broken`, or `allowed` for tables beside broken ones; what the tables are; after the colon the answer to `enter` with
// the name 20, with the table on side 1, then on side 2, and `kept` where the state that came back is the one that was passed. The
// lines after them have one answer: wrappers, and a state of the other wrapper or of other tables.
#![tactic(auto)]

ghost use Rattle.std.specs.Prelude.{◌≤◌};

use interpreter::load;
use sides::State;
use test_changes::entered;
use test_output::write;
use test_states::{Start, start_answered};

// A table that load takes, and its pool: it sends `mid` up.
const SOUND: [u32; 5] = [4, 2, 1, 0, 0];

const WORDS: [u32; 1] = [20];

// How a line begins.
fn begin(good: bool, name: &[u8]) {
    write(if good {
        b"allowed tables "
    } else {
        b"broken tables "
    });
    write(name);
    write(b":");
}

// Both sides send `mid` up.
fn sends() -> State {
    let a = load(2, [&SOUND, &SOUND], [&WORDS, &WORDS]);
    a.state
}

// A table on side 1 beside a good one, `sound` with the pool `words`, on side 2; then on side 2.
fn table_case<'n, 'p>(
    good: bool,
    name: &[u8],
    nodes: &'n [u32],
    pool: &'p [u32],
    sound: &'n [u32],
    words: &'p [u32],
) {
    let s = sends();
    begin(good, name);
    entered(2, nodes, pool, sound, words, s, 1);
    write(b",");
    entered(2, sound, words, nodes, pool, s, 1);
    write(b"\n");
}

// Refusal 1, but for the wrapper's.
fn sizes() {
    let n = &[0u32; 1285];
    let p = &[20u32; 1025];
    let t = &SOUND;
    let w = &WORDS;
    table_case(true, b"one node, 1024 words", &n[..5], &p[..1024], t, w);
    table_case(false, b"1025 words", &n[..5], p, t, w);
    table_case(false, b"no node", &n[..0], &p[..1], t, w);
    table_case(false, b"four words of a node", &n[..4], &p[..1], t, w);
    table_case(false, b"257 nodes", n, &p[..1], t, w);
}

// A table of one node and one word.
fn node_case(good: bool, name: &[u8], node: [u32; 5], value: u32) {
    table_case(good, name, &node, &[value], &SOUND, &WORDS);
}

// Two nodes, of which the second is no child.
fn no_child() {
    let nodes: [u32; 10] = [0; 10];
    table_case(false, b"no child", &nodes, &WORDS, &SOUND, &WORDS);
}

// A pattern that binds a name twice.
fn repeated_name() {
    let nodes: [u32; 10] = [5, 2, 1, 0, 1, 0, 0, 0, 0, 0];
    let pool: [u32; 3] = [4000002, 20, 20];
    table_case(false, b"repeated name", &nodes, &pool, &SOUND, &WORDS);
}

// Refusals 2 to 5.
fn nodes() {
    node_case(true, b"another output", [4, 63, 65, 0, 0], 20);
    node_case(false, b"kind 7", [7, 2, 1, 0, 0], 20);
    node_case(false, b"unused field", [4, 2, 1, 0, 1], 20);
    node_case(false, b"child not above", [2, 5, 0, 0, 0], 20);
    node_case(false, b"child not there", [2, 5, 1, 0, 0], 20);
    no_child();
    node_case(false, b"channel 64", [4, 64, 1, 0, 0], 20);
    node_case(false, b"tag 66", [4, 2, 66, 0, 0], 20);
    node_case(false, b"value past the pool", [4, 2, 1, 1, 0], 20);
    node_case(false, b"value 64", [4, 2, 1, 0, 0], 64);
    repeated_name();
}

// The words of at most 18 nodes: n of a kind, box or new, each about the next, and nil in the others.
fn chain(kind: u32, n: usize) -> [u32; 90]
    requires { n ≤ 17 }
{
    let mut nodes = [0u32; 90];
    for k in 0..n {
        let at = 5 * k;
        nodes[at] = kind;
        nodes[at + 1] = 5;
        nodes[at + 2] = k as u32 + 1;
    }
    nodes
}

// A table of n such nodes and nil.
fn chain_case(good: bool, name: &[u8], kind: u32, n: usize)
    requires { n ≤ 17 }
{
    let nodes = chain(kind, n);
    table_case(good, name, &nodes[..5 * n + 5], &WORDS, &SOUND, &WORDS);
}

// Refusals 6 and 7.
fn chains() {
    chain_case(true, b"eight names in force", 3, 8);
    chain_case(false, b"nine names in force", 3, 9);
    chain_case(true, b"16 boxes at the start", 2, 15);
    chain_case(false, b"17 boxes at the start", 2, 16);
}

// An answer on its own line.
fn line<'n, 'p>(
    good: bool,
    name: &[u8],
    wrapper: u32,
    nodes1: &'n [u32],
    pool1: &'p [u32],
    nodes2: &'n [u32],
    pool2: &'p [u32],
    s: State,
) {
    begin(good, name);
    entered(wrapper, nodes1, pool1, nodes2, pool2, s, 1);
    write(b"\n");
}

// The same under the pipeline, with one table for both sides.
fn piped_line(good: bool, name: &[u8], nodes: &[u32], pool: &[u32], s: State) {
    line(good, name, 2, nodes, pool, nodes, pool, s);
}

// The same under the filter, with no words for side 2.
fn filtered_line(good: bool, name: &[u8], nodes: &[u32], pool: &[u32], s: State) {
    line(good, name, 1, nodes, pool, &[], &[], s);
}

// Wrappers; a state of the filter and one of the pipeline under the other wrappers. One of the filter at its start suits the logging wrapper.
fn wrappers() {
    let n = &SOUND;
    let p = &WORDS;
    let no: &[u32] = &[];
    let a = load(1, [n, no], [p, no]);
    let f = a.state;
    let s = sends();
    piped_line(true, b"pipeline", n, p, s);
    line(false, b"wrapper 0", 0, n, p, n, p, s);
    line(false, b"wrapper 4", 4, n, p, n, p, s);
    filtered_line(true, b"filter", n, p, f);
    line(false, b"filter with nodes for side 2", 1, n, p, n, no, f);
    line(false, b"filter with words for side 2", 1, n, p, no, p, f);
    filtered_line(false, b"filter, state of the pipeline", n, p, s);
    piped_line(false, b"pipeline, state of the filter", n, p, f);
    line(true, b"logging, state of the filter", 3, n, p, no, no, f);
    line(false, b"logging with nodes for side 2", 3, n, p, n, no, f);
    line(false, b"logging with words for side 2", 3, n, p, no, p, f);
    line(false, b"logging, state of the pipeline", 3, n, p, no, no, s);
}

// States that suit their tables, under others.
fn other_tables() {
    let n = &SOUND;
    let p = &WORDS;
    let no: &[u32] = &[];
    begin(false, b"pipeline, state of other tables");
    start_answered(Start::Pipeline, 2, n, p, n, p);
    write(b"\n");
    begin(false, b"filter, state of other tables");
    start_answered(Start::Filter, 1, n, p, no, no);
    write(b"\n");
}

fn main() {
    sizes();
    nodes();
    chains();
    wrappers();
    other_tables();
}
