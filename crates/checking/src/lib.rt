// A maker's own trace checked: the tables loaded, his steps made one after another from there, and each visible label held
// against the next that he claims. Nothing lent is written, and no trace is kept.
#![tactic(auto)]

ghost use Rattle.std.specs.Prelude.{◌≡◌, map};
ghost use Rattle.claims.specs.Claims.{check_trace};
ghost use Rattle.wrappers.specs.Compositions.{composition};
ghost use Rattle.checking.specs.declared.TraceError.TheVariants.{Unloaded};
ghost use Rattle.checking.specs.Checking.{verdict_of};

use checked_steps::check_loaded;
use loading::{LoadRefusal, load_verdict};
use sides::Sides;

mod checked_steps; // the steps of a list of words
mod claimed_labels; // the claimed labels beside those that come out

// Why a trace is not accepted: load refuses; the first step at fault, which is refusal 20; or the first label at fault, which is 21.
#[derive(Clone, Copy, PartialEq, Eq)]
pub enum TraceError {
    Unloaded(LoadRefusal),
    StepAt(usize),
    LabelAt(usize),
}

impl From<LoadRefusal> for TraceError {
    ghost from_gives = { λ f e. e ≡ Unloaded f };

    // Load's refusal, as it is.
    fn from(f: LoadRefusal) -> TraceError {
        TraceError::Unloaded(f)
    }
}

// Whether some steps are legal from where load leads, and the visible labels come out as claimed.
pub fn check_trace(
    wrapper: u32,
    nodes: [&[u32]; Sides::COUNT],
    pools: [&[u32]; Sides::COUNT],
    steps: &[u32],
    labels: &[u32],
) -> Result<(), TraceError>
    ensures { verdict_of result ≡ check_trace (composition wrapper (map (λ x. x.now) nodes.entry) (map (λ x. x.now) pools.entry)) steps.now labels.now }
{
    load_verdict(wrapper, nodes, pools)?;
    check_loaded(wrapper, nodes, pools, steps, labels)
}
