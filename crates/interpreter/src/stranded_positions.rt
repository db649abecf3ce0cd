// Stranded: where in a side's lobby a message stands that arrived on a channel other than `out`.
ghost use Rattle.std.specs.Prelude.{◌≡◌, map, ◌≤◌};
ghost use Rattle.model.specs.Stranded.{lobby_asked, stranded_all};
ghost use Rattle.sides.specs.Views.{view_lobby};
ghost use Rattle.sides.specs.Sides.{state_of};
ghost use Rattle.wrappers.specs.Compositions.{composition};
ghost use Rattle.listing.specs.Listing.{ListedIs};

use crate::step_state::is_ready;
use listing::{TooShort, list_stranded};
use loading::place_of;
use sides::{Lobby, Sides, State};
use wrappers::has_side;

// The lobby that is asked: none of a side that the wrapper lacks, with tables that load refuses or a state not well formed.
fn lobby_asked(
    wrapper: u32,
    nodes: [&[u32]; Sides::COUNT],
    pools: [&[u32]; Sides::COUNT],
    s: State,
    side: u32,
) -> Lobby
    ensures { (view_lobby result ≡ lobby_asked (composition wrapper (map (λ x. x.now) nodes.entry) (map (λ x. x.now) pools.entry)) (state_of s) side) × (result.len ≤ 16) }
{
    if is_ready(wrapper, nodes, pools, s) && has_side(wrapper, side) {
        s.sides[place_of(side)].rest.lobby
    } else {
        Lobby::empty()
    }
}

// Every stranded position of a side, smallest first, at the start of the lent list, whose other words stay, and how many they are;
// nothing is written where it is too short.
pub fn stranded(
    wrapper: u32,
    nodes: [&[u32]; Sides::COUNT],
    pools: [&[u32]; Sides::COUNT],
    s: State,
    side: u32,
    out: &mut [u32],
) -> Result<usize, TooShort>
    ensures { ListedIs (stranded_all (composition wrapper (map (λ x. x.now) nodes.entry) (map (λ x. x.now) pools.entry)) (state_of s) side) out.old out.new result }
{
    let l = lobby_asked(wrapper, nodes, pools, s, side);
    list_stranded(l, out)
}
