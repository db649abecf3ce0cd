// A step: the words and the marks of all sides are taken out of the state, the side that is asked makes it, and is put back.
ghost use Rattle.std.specs.Prelude.{◌≡◌, true, map, ◌<◌, length, set};
ghost use Rattle.model.specs.Basics.{◌&◌};
ghost use Rattle.model.specs.Wrapper.{all_sides, described, has_side};
ghost use Rattle.model.specs.WellFormed.{ready};
ghost use Rattle.model.specs.Step.{step};
ghost use Rattle.values.specs.Env.{view_value};
ghost use Rattle.wrappers.specs.Compositions.{composition};
ghost use Rattle.sides.specs.Sides.{view_state, fits_arrays};
ghost use Rattle.dispatch.specs.Stepping.{asked};
ghost use Rattle.interpreter.specs.Answered.{words_in, left_in, AllLong, Answered, RefusedTen, ResultIs, StepAnswered, put_at};

use crate::Stepped;
use answers::padded;
use dispatch::{mark_left, side_step};
use loading::{load_verdict, place_of};
use sides::{Rest, Rows, Side, Sides, State};
use steps::Said;
use values::Value;
use wellformed::{shelved_in, well_formed};
use wrappers::has_side;

// An answer with its side and its value, beside a state.
fn answered(said: Said, side: u32, v: Value, state: State) -> Stepped
    ensures { Answered said side (view_value v) state result }
{
    let value = padded(v);
    Stepped {
        said,
        side,
        value,
        state,
    }
}

// Refusal 10, with the side as asked.
fn refused(s: State, side: u32) -> Stepped
    ensures { RefusedTen side s result }
{
    answered(Said::Refused(10), side, Value::none(), s)
}

// Whether load takes the tables, and the state is well formed for them.
pub(crate) fn is_ready(
    wrapper: u32,
    nodes: [&[u32]; Sides::COUNT],
    pools: [&[u32]; Sides::COUNT],
    s: State,
) -> bool
    ensures { result ≡ fits_arrays s & ready (composition wrapper (map (λ x. x.now) nodes.entry) (map (λ x. x.now) pools.entry)) (view_state s) }
{
    load_verdict(wrapper, nodes, pools).is_ok() && well_formed(wrapper, nodes, pools, s)
}

// The words and the marks of a side, at place k of those of all sides.
fn lend_side(
    o: Side,
    k: usize,
    rows: &mut [[u32; Rows::WORDS]; Sides::COUNT],
    marks: &mut [[bool; Sides::MARKS]; Sides::COUNT],
)
    requires { (k < length all_sides) × (length rows.old ≡ length all_sides) × (length marks.old ≡ length all_sides) }
    ensures { (rows.new ≡ set rows.old k o.words) × (marks.new ≡ set marks.old k o.left) × (length o.words ≡ 5184) }
{
    // Stays two locals: tried without them, and the prover does not cover `rows[k] = o.words`, an array field stored straight from another.
    let words = o.words;
    let left = o.left;
    rows[k] = words;
    marks[k] = left;
}

// The words and the marks of all sides, out of a state.
// Stays by value, `s: State`: tried by reference, behind which the prover does not find how many sides there are, after the loop.
fn take_out(
    s: State,
    rows: &mut [[u32; Rows::WORDS]; Sides::COUNT],
    marks: &mut [[bool; Sides::MARKS]; Sides::COUNT],
)
    requires { (length rows.old ≡ length all_sides) × (length marks.old ≡ length all_sides) }
    ensures { (rows.new ≡ words_in s) × (marks.new ≡ left_in s) × AllLong (words_in s) }
{
    for k in 0..Sides::COUNT {
        lend_side(s.sides[k], k, rows, marks);
    }
}

// The state with another side at place k.
fn put_at(
    mut s: State,
    k: usize,
    words: [u32; Rows::WORDS],
    rest: Rest,
    left: [bool; Sides::MARKS],
) -> State
    requires { k < length all_sides }
    ensures { result ≡ put_at s k words rest left }
{
    s.sides[k] = Side { words, rest, left };
    s
}

// A step of a side that the wrapper has, in a state that is well formed for tables that load takes.
fn step_side(
    wrapper: u32,
    nodes: [&[u32]; Sides::COUNT],
    pools: [&[u32]; Sides::COUNT],
    s: State,
    kind: u32,
    side: u32,
    i: usize,
    j: usize,
    words: &[u32],
) -> Stepped
    requires { (fits_arrays s ≡ true) × (ready (composition wrapper (map (λ x. x.now) nodes) (map (λ x. x.now) pools)) (view_state s) ≡ true) × (has_side (described wrapper) side ≡ true) }
    ensures { ResultIs (step (composition wrapper (map (λ x. x.now) nodes.entry) (map (λ x. x.now) pools.entry)) (view_state s) (asked kind side i j words.now)) s result }
{
    let mut rows = [[0; Rows::WORDS]; Sides::COUNT];
    let mut marks = [[false; Sides::MARKS]; Sides::COUNT];
    take_out(s, &mut rows, &mut marks);
    let k = place_of(side);
    let rest = s.sides[k].rest;
    let shelved = shelved_in(&s);
    let d = side_step(
        wrapper, nodes[k], pools[k], side, &mut rows, shelved, &marks, rest, kind, i, j, words,
    );
    mark_left(&mut marks, side, d.said, d.value);
    let after = put_at(s, k, rows[k], d.rest, marks[k]);
    answered(d.said, side, d.value, after)
}

// A step: 10 for tables that load refuses, a state not well formed, no state, and a side that the wrapper lacks.
pub fn step(
    wrapper: u32,
    nodes: [&[u32]; Sides::COUNT],
    pools: [&[u32]; Sides::COUNT],
    s: State,
    kind: u32,
    side: u32,
    i: usize,
    j: usize,
    words: &[u32],
) -> Stepped
    ensures { StepAnswered (composition wrapper (map (λ x. x.now) nodes.entry) (map (λ x. x.now) pools.entry)) s (asked kind side i j words.now) result }
{
    if is_ready(wrapper, nodes, pools, s) && has_side(wrapper, side) {
        step_side(wrapper, nodes, pools, s, kind, side, i, j, words)
    } else {
        refused(s, side)
    }
}
