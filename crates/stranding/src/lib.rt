// What is stranded after a load and a list of steps: the tables loaded, the steps made one after another from there, and the stranded
// positions of a side put into a lent list.
#![tactic(auto)]

ghost use Rattle.std.specs.Prelude.{◌≡◌, map};
ghost use Rattle.wrappers.specs.Compositions.{composition};
ghost use Rattle.stranding.specs.declared.AfterError.TheVariants.{Unloaded};
ghost use Rattle.stranding.specs.Stranding.{stranded_after, AfterIs};

use ended_steps::end_loaded;
use listing::list_stranded;
use loading::{LoadRefusal, load_verdict};
use sides::Sides;

mod ended_steps; // the steps of a list of words, and a side's lobby behind them

// Why nothing is put into the lent list: load refuses; the steps break off; or the list is too short, which is refusal 22.
// Stays beside `RunError` of running: what is too short there are lent words, which have no number.
#[derive(Clone, Copy, PartialEq, Eq)]
pub enum AfterError {
    Unloaded(LoadRefusal),
    BrokenOff,
    TooShort,
}

impl From<LoadRefusal> for AfterError {
    ghost from_gives = { λ f e. e ≡ Unloaded f };

    // Load's refusal, as it is.
    fn from(f: LoadRefusal) -> AfterError {
        AfterError::Unloaded(f)
    }
}

// The stranded positions of a side after a load and a list of steps, smallest first, at the start of the lent list, whose other words
// stay. Gives how many there are. Nothing is written where there is another answer than their count.
pub fn stranded_after(
    wrapper: u32,
    nodes: [&[u32]; Sides::COUNT],
    pools: [&[u32]; Sides::COUNT],
    steps: &[u32],
    side: u32,
    out: &mut [u32],
) -> Result<usize, AfterError>
    ensures { AfterIs (stranded_after (composition wrapper (map (λ x. x.now) nodes.entry) (map (λ x. x.now) pools.entry)) steps.now side) out.old out.new result }
{
    load_verdict(wrapper, nodes, pools)?;
    let Some(lobby) = end_loaded(wrapper, nodes, pools, steps, side) else {
        return Err(AfterError::BrokenOff);
    };
    match list_stranded(lobby, out) {
        Ok(n) => Ok(n),
        Err(_) => Err(AfterError::TooShort),
    }
}
