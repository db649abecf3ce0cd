// A run: the tables loaded, and the steps of a list of words from there. Tables are checked once; each step after that keeps a
// state well formed.
#![tactic(auto)]

ghost use Rattle.std.specs.Prelude.{◌≡◌, map, length};
ghost use Rattle.format.specs.Words.{run_of};
ghost use Rattle.wrappers.specs.Compositions.{composition};
ghost use Rattle.running.specs.declared.RunError.TheVariants.{Refused};
ghost use Rattle.running.specs.Running.{RunIs};

use answer_words::Words;
use loading::{LoadRefusal, load_verdict};
use runs::run_loaded;
use sides::Sides;
use step_words::count_steps;

mod answer_words; // answers as words
mod runs; // the steps of a list of words
mod step_words; // words as steps

// Why there is no run: load refuses, the steps break off, or the lent words are too few.
#[derive(Clone, Copy, PartialEq, Eq)]
pub enum RunError {
    Refused(LoadRefusal),
    BrokenOff,
    TooShort,
}

impl From<LoadRefusal> for RunError {
    ghost from_gives = { λ f e. e ≡ Refused f };

    // Load's refusal, as it is.
    fn from(f: LoadRefusal) -> RunError {
        RunError::Refused(f)
    }
}

// A run: the tables loaded, and the steps of a list of words from there; 20 words for each answer. Gives how many answers there are.
pub fn run(
    wrapper: u32,
    nodes: [&[u32]; Sides::COUNT],
    pools: [&[u32]; Sides::COUNT],
    steps: &[u32],
    out: &mut [u32],
) -> Result<usize, RunError>
    ensures { RunIs (run_of (composition wrapper (map (λ x. x.now) nodes.entry) (map (λ x. x.now) pools.entry)) steps.now (length out.old)) out.old out.new result }
{
    let Some(n) = count_steps(steps) else {
        return Err(RunError::BrokenOff);
    };
    if out.len() / Words::COUNT < n {
        return Err(RunError::TooShort);
    }
    load_verdict(wrapper, nodes, pools)?;
    run_loaded(wrapper, nodes, pools, steps, n, out);
    Ok(n)
}
