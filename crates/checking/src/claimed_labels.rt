// The claimed labels, record by record, beside the labels that come out.
ghost use Rattle.std.specs.Prelude.{◌≡◌, List, [], ◌∷◌, ◌++◌, ℕ, ◌+◌, ◌≤◌, length, get_or, take, drop, Ok};
ghost use Rattle.std.proofs.Math.Option.{none};
ghost use Rattle.claims.specs.Claims.{same_words, judged};
ghost use Rattle.values.specs.Env.{view_value};
ghost use Rattle.checking.specs.Checking.{verdict_of, channel_of, shown, fault_from, Counted};

use crate::TraceError;
use execution::{Answer, record_end};
use steps::Said;
use values::Value;

// How far the claimed labels agree: so many do, and the next record stands at `at`.
#[derive(Clone, Copy)]
pub(crate) struct Agreed {
    pub(crate) at: usize,
    pub(crate) count: usize,
}

// The public name of the channel of a visible label.
fn channel(said: Said) -> Option<u32>
    ensures { result ≡ channel_of said }
{
    match said {
        Said::In => Some(0),
        Said::Out => Some(1),
        Said::Log => Some(3),
        Said::Silent | Said::Refused(_) => None,
    }
}

// The record at a place is that of a label on a channel.
fn is_label(labels: &[u32], at: usize, channel: u32, side: u32, v: Value) -> bool
    requires { (at + 3 + get_or labels.now (at + 2) 0 ≤ length labels.now) × (v.len ≤ 16) }
    ensures { result ≡ same_words (channel ∷ side ∷ length (view_value v) ∷ view_value v) (take (3 + get_or labels.now (at + 2) 0) (drop at labels.now)) }
{
    labels[at] == channel
        && labels[at + 1] == side
        && labels[at + 2] as usize == v.len
        && v.words[..v.len] == labels[at + 3..at + 3 + v.len]
}

// How far they agree with one answer more; the index of the first label at fault where they part.
pub(crate) fn agreed_past(
    labels: &[u32],
    agreed: Result<Agreed, usize>,
    x: Answer,
) -> Result<Agreed, usize>
    requires { Counted labels.now agreed × (x.value.len ≤ 16) }
    ensures { Counted labels.now result × ((vs : List (List ℕ)) → fault_from labels.now result vs ≡ fault_from labels.now agreed (shown x.said x.side (view_value x.value) ++ vs)) }
{
    let Ok(a) = agreed else {
        return agreed;
    };
    let Some(channel) = channel(x.said) else {
        return agreed;
    };
    match record_end(labels, a.at, 2) {
        Some(e) if is_label(labels, a.at, channel, x.side, x.value) => Ok(Agreed {
            at: e,
            count: a.count + 1,
        }),
        _ => Err(a.count),
    }
}

// The verdict where no step is at fault and no label comes out any more.
pub(crate) fn label_verdict(labels: &[u32], agreed: Result<Agreed, usize>) -> Result<(), TraceError>
    ensures { verdict_of result ≡ judged none (fault_from labels.now agreed []) }
{
    match agreed {
        Err(k) => Err(TraceError::LabelAt(k)),
        Ok(a) => {
            if a.at < labels.len() {
                return Err(TraceError::LabelAt(a.count));
            }
            Ok(())
        },
    }
}
