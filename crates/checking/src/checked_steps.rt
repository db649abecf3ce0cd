// The steps of a list of words, made from the sides at their start.
ghost use Rattle.std.specs.Prelude.{◌≡◌, true, map};
ghost use Rattle.model.specs.Load.{is_ok, load};
ghost use Rattle.wrappers.specs.Compositions.{composition};
ghost use Rattle.checking.specs.Checking.{CheckedFrom, is_refused};

use crate::TraceError;
use crate::claimed_labels::{Agreed, agreed_past, label_verdict};
use execution::{begin_all, record_end};
use sides::{Rows, Sides};
use steps::Said;

// A refusal is said.
fn is_refused(said: Said) -> bool
    ensures { result ≡ is_refused said }
{
    matches!(said, Said::Refused(_))
}

// The steps of a list of words from where load leads, up to the first at fault.
pub(crate) fn check_loaded(
    wrapper: u32,
    nodes: [&[u32]; Sides::COUNT],
    pools: [&[u32]; Sides::COUNT],
    steps: &[u32],
    labels: &[u32],
) -> Result<(), TraceError>
    requires { is_ok (load (composition wrapper (map (λ x. x.now) nodes) (map (λ x. x.now) pools))) ≡ true }
    ensures { CheckedFrom (composition wrapper (map (λ x. x.now) nodes.entry) (map (λ x. x.now) pools.entry)) steps.now labels.now (load (composition wrapper (map (λ x. x.now) nodes.entry) (map (λ x. x.now) pools.entry))) result }
{
    let mut rows = [[0; Rows::WORDS]; Sides::COUNT];
    let mut marks = [[false; Sides::MARKS]; Sides::COUNT];
    let mut standing = begin_all(wrapper, nodes, pools, &mut rows);
    let mut agreed = Ok(Agreed { at: 0, count: 0 });
    let mut p: usize = 0;
    let mut k: usize = 0;
    // Stays a loop by places: `successors` would give the ends of the records, and not that the last one breaks off.
    while p < steps.len() {
        let Some(e) = record_end(steps, p, 4) else {
            return Err(TraceError::StepAt(k)); // its record breaks off
        };
        let a = standing.make_step(wrapper, nodes, pools, &mut rows, &mut marks, steps, p);
        if is_refused(a.said) {
            return Err(TraceError::StepAt(k)); // it is refused
        }
        agreed = agreed_past(labels, agreed, a);
        p = e;
        k += 1;
    }
    label_verdict(labels, agreed)
}
