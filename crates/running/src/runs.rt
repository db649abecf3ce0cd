// The steps of a list of words, from the sides at their start.
ghost use Rattle.std.specs.Prelude.{◌≡◌, true, map};
ghost use Rattle.model.specs.Load.{is_ok, load};
ghost use Rattle.wrappers.specs.Compositions.{composition};
ghost use Rattle.running.specs.Runs.{HasRoom, LoadedPut};

use crate::answer_words::put_answer;
use execution::{begin_all, next_place};
use sides::{Rows, Sides};

// The steps of a list of words, n of them, from where load leads.
pub(crate) fn run_loaded(
    wrapper: u32,
    nodes: [&[u32]; Sides::COUNT],
    pools: [&[u32]; Sides::COUNT],
    steps: &[u32],
    n: usize,
    out: &mut [u32],
)
    requires { (is_ok (load (composition wrapper (map (λ x. x.now) nodes) (map (λ x. x.now) pools))) ≡ true) × HasRoom steps.now n out.old }
    ensures { LoadedPut (composition wrapper (map (λ x. x.now) nodes.entry) (map (λ x. x.now) pools.entry)) steps.now n out.old out.new }
{
    let mut rows = [[0; Rows::WORDS]; Sides::COUNT];
    let mut marks = [[false; Sides::MARKS]; Sides::COUNT];
    let mut standing = begin_all(wrapper, nodes, pools, &mut rows);
    let mut p: usize = 0;
    for k in 0..n {
        let a = standing.make_step(wrapper, nodes, pools, &mut rows, &mut marks, steps, p);
        put_answer(out, k, a);
        p = next_place(steps, p);
    }
}
