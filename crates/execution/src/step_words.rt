// The words of a step at a place of a list: its kind, side, i, j, how many value words, and these.
ghost use Rattle.std.specs.Prelude.{◌≡◌, ◌+◌, ◌-◌, ◌≤◌, length, get_or};
ghost use Rattle.format.specs.Words.{step_at};

// The place behind the words of the step at a place.
pub fn next_place(steps: &[u32], p: usize) -> usize
    requires { (p + 5 ≤ length steps.now) × (get_or steps.now (p + 4) 0 ≤ length steps.now - (p + 5)) }
    ensures { result ≡ p + 5 + get_or steps.now (p + 4) 0 }
{
    p + 5 + steps[p + 4] as usize
}

// The side that is asked by the words at a place.
pub fn side_at(steps: &[u32], p: usize) -> u32
    requires { p + 5 ≤ length steps.now }
    ensures { result ≡ (step_at steps.now p).side }
{
    steps[p + 1]
}

// Kind and places of a step.
#[derive(Clone, Copy)]
pub(crate) struct Asked {
    pub(crate) kind: u32,
    pub(crate) i: usize,
    pub(crate) j: usize,
}

// Kind and places by the words at a place.
pub(crate) fn asked_at(steps: &[u32], p: usize) -> Asked
    requires { p + 5 ≤ length steps.now }
    ensures { (result.kind ≡ (step_at steps.now p).kind) × (result.i ≡ (step_at steps.now p).i) × (result.j ≡ (step_at steps.now p).j) }
{
    Asked {
        kind: steps[p],
        i: steps[p + 2] as usize,
        j: steps[p + 3] as usize,
    }
}

// The value words of the step at a place.
pub(crate) fn value_at(steps: &[u32], p: usize) -> &[u32]
    requires { (p + 5 ≤ length steps.now) × (get_or steps.now (p + 4) 0 ≤ length steps.now - (p + 5)) }
    ensures { result.now ≡ (step_at steps.now p).words }
{
    &steps[p + 5..next_place(steps, p)]
}
