// Load, a step and the question `stranded`, with one pool for both sides, and how the lines about them begin.
use interpreter::{Stepped, load, step, stranded};
use listing::TooShort;
use sides::State;
use test_output::{number, word, write, write_words};

// The kind of a step by which words enter.
pub const ENTER: u32 = 1;

// The kind of a step by which a message goes up.
pub const UP: u32 = 3;

// The kind of a step by which a message passes.
pub const PASS: u32 = 6;

// The words where they are lent, else none.
fn lent_if(lent: bool, words: &[u32]) -> &[u32] {
    if lent { words } else { &[] }
}

// The state that load gives. Where side 2 has no nodes it has no pool.
pub fn start<'a>(wrapper: u32, nodes1: &'a [u32], nodes2: &'a [u32], pool: &[u32]) -> State {
    let pool2 = lent_if(!nodes2.is_empty(), pool);
    let a = load(wrapper, [nodes1, nodes2], [pool, pool2]);
    a.state
}

// A step with one position. What enters is the pool.
pub fn stepped<'a>(
    wrapper: u32,
    nodes1: &'a [u32],
    nodes2: &'a [u32],
    pool: &[u32],
    s: State,
    kind: u32,
    side: u32,
    i: usize,
) -> Stepped {
    let pool2 = lent_if(!nodes2.is_empty(), pool);
    let given = lent_if(kind == ENTER, pool);
    step(
        wrapper,
        [nodes1, nodes2],
        [pool, pool2],
        s,
        kind,
        side,
        i,
        0,
        given,
    )
}

// The state after it.
pub fn after<'a>(
    wrapper: u32,
    nodes1: &'a [u32],
    nodes2: &'a [u32],
    pool: &[u32],
    s: State,
    kind: u32,
    side: u32,
    i: usize,
) -> State {
    let r = stepped(wrapper, nodes1, nodes2, pool, s, kind, side, i);
    r.state
}

// A wrapper's name, or its number where it is none.
fn wrapper_name(wrapper: u32) {
    match wrapper {
        1 => write(b" filter"),
        2 => write(b" pipeline"),
        3 => write(b" logging"),
        _ => {
            write(b" wrapper");
            word(wrapper);
        },
    }
}

// How a line begins: what is asked, the wrapper, the side that is asked, and what the state or the tables are.
pub fn begin(question: &[u8], name: &[u8], wrapper: u32, side: u32) {
    write(question);
    wrapper_name(wrapper);
    write(b" side");
    word(side);
    write(b", ");
    write(name);
    write(b":");
}

// How many positions there are, or 22.
fn count(l: Result<usize, TooShort>) {
    match l {
        Ok(n) => number(n),
        Err(TooShort) => write(b" too short (22)"),
    }
}

// A line: how many messages are stranded on the side that is asked, with a list lent of so many words, at most 18, all of them 7
// before; and its words after that.
pub fn line<'a>(
    name: &[u8],
    wrapper: u32,
    nodes1: &'a [u32],
    nodes2: &'a [u32],
    pool: &[u32],
    s: State,
    side: u32,
    room: usize,
) {
    begin(b"stranded", name, wrapper, side);
    let pool2 = lent_if(!nodes2.is_empty(), pool);
    let mut list = [7u32; 18];
    if let Some(lent) = list.get_mut(..room) {
        count(stranded(wrapper, [nodes1, nodes2], [pool, pool2], s, side, lent));
        write(b",");
        write_words(lent);
        write(b"\n");
    }
}
