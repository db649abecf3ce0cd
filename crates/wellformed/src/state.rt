// A state: its sides one after another, side k + 1 at place k.
ghost use Rattle.std.specs.Prelude.{◌≡◌, map};
ghost use Rattle.model.specs.Basics.{◌&◌};
ghost use Rattle.model.specs.WellFormed.{wf_state};
ghost use Rattle.wrappers.specs.Compositions.{composition};
ghost use Rattle.sides.specs.Sides.{view_state, fits_arrays};
ghost use Rattle.wellformed.specs.Clauses.{TablesPass, minted_in, shelved_in};

use crate::side::{side_fits, side_stands};
use sides::{Sides, State};
use std::array::from_fn;

// How many names each side has minted, from side 1 on.
// Stays beside `shelved_in`: they differ in a field, and a closure that picks it would be longer than the line.
fn minted_in(s: &State) -> [usize; Sides::COUNT]
    ensures { result ≡ minted_in s.now }
{
    from_fn(|k| s.sides[k].rest.minted)
}

// How many values each side has on its shelf, from side 1 on.
pub fn shelved_in(s: &State) -> [usize; Sides::COUNT]
    ensures { result ≡ shelved_in s.now }
{
    from_fn(|k| s.sides[k].rest.shelved)
}

// The array test: whether every count is within its array.
fn arrays_fit(s: &State) -> bool
    ensures { result ≡ fits_arrays s.now }
{
    s.sides.iter().all(side_fits)
}

// Whether a state's counts are within their arrays, and it is well formed for its tables: each side where the wrapper has it, and
// nothing where the wrapper lacks it. The tables of the sides that it has pass checks 1 to 6.
pub fn well_formed(
    wrapper: u32,
    nodes: [&[u32]; Sides::COUNT],
    pools: [&[u32]; Sides::COUNT],
    s: State,
) -> bool
    requires { TablesPass (composition wrapper (map (λ x. x.now) nodes) (map (λ x. x.now) pools)) }
    ensures { result ≡ fits_arrays s & wf_state (composition wrapper (map (λ x. x.now) nodes.entry) (map (λ x. x.now) pools.entry)) (view_state s) }
{
    if !arrays_fit(&s) {
        return false;
    }
    let minted = minted_in(&s);
    let shelved = shelved_in(&s);
    // Stays a loop: tried `(0..Sides::COUNT).all(..)`, and the proof did not close: what each call asks of table k and side k stayed open.
    for k in 0..Sides::COUNT {
        let side = k as u32 + 1;
        if !side_stands(
            wrapper,
            side,
            nodes[k],
            pools[k],
            &minted,
            &shelved,
            &s.sides[k],
        ) {
            return false;
        }
    }
    true
}
