// The steps of a list of words, made from the sides at their start, and the lobby of a side behind them.
ghost use Rattle.std.specs.Prelude.{◌≡◌, true, map, ℕ, ◌<◌, ◌≤◌, length, get_or};
ghost use Rattle.model.specs.Wrapper.{all_sides};
ghost use Rattle.model.specs.Load.{is_ok, load};
ghost use Rattle.wrappers.specs.Compositions.{composition};
ghost use Rattle.sides.specs.declared.Rest.{Rest};
ghost use Rattle.sides.specs.Views.{view_lobby};
ghost use Rattle.stranding.specs.Ending.{lobby_in, loaded_behind, EndIs};

use execution::{begin_all, record_end};
use loading::place_of;
use sides::{Lobby, Rest, Rows, Sides};
use wrappers::has_side;

// The lobby of a side, an empty one where the wrapper lacks it.
fn lobby_of(wrapper: u32, rests: &[Rest; Sides::COUNT], side: u32) -> Lobby
    requires { (length rests.now ≡ length all_sides) × ((k : ℕ) (d : Rest) → k < length all_sides → (get_or rests.now k d).lobby.len ≤ 16) }
    ensures { (view_lobby result ≡ lobby_in wrapper side rests.now) × (result.len ≤ 16) }
{
    if has_side(wrapper, side) {
        return rests[place_of(side)].lobby;
    }
    Lobby::empty()
}

// The lobby of a side behind the steps of a list of words from where load leads; none where a record of a step breaks off. Refused
// steps change nothing, and those after them go on.
pub(crate) fn end_loaded(
    wrapper: u32,
    nodes: [&[u32]; Sides::COUNT],
    pools: [&[u32]; Sides::COUNT],
    steps: &[u32],
    side: u32,
) -> Option<Lobby>
    requires { is_ok (load (composition wrapper (map (λ x. x.now) nodes) (map (λ x. x.now) pools))) ≡ true }
    ensures { EndIs (composition wrapper (map (λ x. x.now) nodes.entry) (map (λ x. x.now) pools.entry)) (loaded_behind (composition wrapper (map (λ x. x.now) nodes.entry) (map (λ x. x.now) pools.entry)) steps.now (load (composition wrapper (map (λ x. x.now) nodes.entry) (map (λ x. x.now) pools.entry)))) side result }
{
    let mut rows = [[0; Rows::WORDS]; Sides::COUNT];
    let mut marks = [[false; Sides::MARKS]; Sides::COUNT];
    let mut standing = begin_all(wrapper, nodes, pools, &mut rows);
    let mut p: usize = 0;
    // Stays a loop by places: `successors` would give the ends of the records, and not that the last one breaks off.
    while p < steps.len() {
        let e = record_end(steps, p, 4)?;
        standing.make_step(wrapper, nodes, pools, &mut rows, &mut marks, steps, p);
        p = e;
    }
    Some(lobby_of(wrapper, &standing.rests, side))
}
