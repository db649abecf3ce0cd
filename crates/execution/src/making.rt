// A step by words, made on all sides.
ghost use Rattle.std.specs.Prelude.{◌≡◌, map};
ghost use Rattle.model.specs.Wrapper.{described};
ghost use Rattle.format.specs.Words.{step_at};
ghost use Rattle.dispatch.specs.Stepping.{setting_of};
ghost use Rattle.wrappers.specs.Compositions.{composition};
ghost use Rattle.dispatch.specs.Sharing.{SideReady, state_in};
ghost use Rattle.execution.specs.Execution.{StepStands, place_asked, Moves, MayStep, StepMade, MayRun, Makes};

use crate::beginning::Standing;
use crate::step_words::{asked_at, side_at, value_at};
use dispatch::{mark_left, side_step};
use loading::place_of;
use sides::{Rest, Rows, Sides};
use steps::{RestStep, Said};
use values::Value;
use wrappers::has_side;

// The place of a side among all sides; the first where the wrapper lacks it.
pub fn place_asked(wrapper: u32, side: u32) -> usize
    ensures { result ≡ place_asked (described wrapper) side }
{
    if has_side(wrapper, side) {
        place_of(side)
    } else {
        0
    }
}

// The step of a side that the wrapper has, by the words at a place, and the marks of what leaves by it.
fn own_step(
    wrapper: u32,
    nodes: &[u32],
    pool: &[u32],
    side: u32,
    rows: &mut [[u32; Rows::WORDS]; Sides::COUNT],
    shelved: [usize; Sides::COUNT],
    marks: &mut [[bool; Sides::MARKS]; Sides::COUNT],
    o: Rest,
    steps: &[u32],
    p: usize,
) -> RestStep
    requires { SideReady (setting_of wrapper side nodes.now pool.now) marks.old rows.old shelved o × StepStands steps.now p }
    ensures { Moves (setting_of wrapper side nodes.now pool.now) o rows.old marks.old shelved (step_at steps.now p) rows.new marks.new result }
{
    let x = asked_at(steps, p);
    let words = value_at(steps, p);
    let d = side_step(
        wrapper, nodes, pool, side, rows, shelved, marks, o, x.kind, x.i, x.j, words,
    );
    mark_left(marks, side, d.said, d.value);
    d
}

// The step of a side by the words at a place, where what is lent is a state that is well formed for tables that load takes; 10
// where the wrapper lacks the side. The rest of no other side is copied.
pub fn step_at(
    wrapper: u32,
    nodes: &[u32],
    pool: &[u32],
    side: u32,
    rows: &mut [[u32; Rows::WORDS]; Sides::COUNT],
    shelved: [usize; Sides::COUNT],
    marks: &mut [[bool; Sides::MARKS]; Sides::COUNT],
    o: Rest,
    steps: &[u32],
    p: usize,
) -> RestStep
    requires { MayStep (setting_of wrapper side nodes.now pool.now) marks.old rows.old shelved o × StepStands steps.now p }
    ensures { StepMade (setting_of wrapper side nodes.now pool.now) o rows.old marks.old shelved (step_at steps.now p) rows.new marks.new result }
{
    if has_side(wrapper, side) {
        return own_step(
            wrapper, nodes, pool, side, rows, shelved, marks, o, steps, p,
        );
    }
    RestStep {
        said: Said::Refused(10),
        value: Value::none(),
        rest: o,
    }
}

// The answer to a step: the side that it asks for, what that says, and its value.
#[derive(Clone, Copy)]
pub struct Answer {
    pub side: u32,
    pub said: Said,
    pub value: Value,
}

impl Standing {
    // Makes the step whose words stand at a place, where all that is lent is a state that is well formed for tables that load takes.
    pub fn make_step(
        &mut self,
        wrapper: u32,
        nodes: [&[u32]; Sides::COUNT],
        pools: [&[u32]; Sides::COUNT],
        rows: &mut [[u32; Rows::WORDS]; Sides::COUNT],
        marks: &mut [[bool; Sides::MARKS]; Sides::COUNT],
        steps: &[u32],
        p: usize,
    ) -> Answer
        requires { MayRun (composition wrapper (map (λ x. x.now) nodes) (map (λ x. x.now) pools)) rows.old self.old.rests marks.old self.old.shelved × StepStands steps.now p }
        ensures { Makes (composition wrapper (map (λ x. x.now) nodes.entry) (map (λ x. x.now) pools.entry)) (state_in rows.old self.old.rests marks.old) (step_at steps.now p) rows.new self.new.rests marks.new self.new.shelved result.side result.said result.value }
    {
        let side = side_at(steps, p);
        let i = place_asked(wrapper, side);
        let d = step_at(
            wrapper,
            nodes[i],
            pools[i],
            side,
            rows,
            self.shelved,
            marks,
            self.rests[i],
            steps,
            p,
        );
        self.shelved[i] = d.rest.shelved;
        self.rests[i] = d.rest;
        Answer {
            side,
            said: d.said,
            value: d.value,
        }
    }
}
