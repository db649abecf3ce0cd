// Load: the checks of the wrapper and of every side's table, and the sides at their start.
ghost use Rattle.std.specs.Prelude.{◌≡◌, true, cond, map};
ghost use Rattle.model.specs.Side.{start_side, no_side};
ghost use Rattle.model.specs.Wrapper.{all_sides, described, has_side};
ghost use Rattle.model.specs.Load.{start, start_of, load};
ghost use Rattle.tables.specs.Nodes.{table};
ghost use Rattle.wrappers.specs.Compositions.{composition};
ghost use Rattle.sides.specs.Sides.{SideIs};
ghost use Rattle.loading.specs.Starting.{Startable};
ghost use Rattle.interpreter.specs.Loaded.{StateIs, AllStartable, LoadIs};

use crate::LoadAnswer;
use loading::{load_verdict, number_of, start_of};
use sides::{Rows, Side, Sides, State};
use wrappers::has_side;

// No side has anything.
fn empty_state() -> State
    ensures { StateIs (record { sides = map (λ n. no_side) all_sides }) result }
{
    let o = Side::empty();
    State {
        sides: [o; Sides::COUNT],
    }
}

// A side that the wrapper has at its start.
fn start_side(nodes: &[u32], pool: &[u32], n: u32) -> Side
    requires { Startable n (table nodes.now pool.now) }
    ensures { SideIs (start_side (start n (table nodes.now pool.now))) result }
{
    let mut words = [0; Rows::WORDS];
    let rest = start_of(nodes, pool, n, &mut words);
    Side {
        words,
        rest,
        left: [false; Sides::MARKS],
    }
}

// Side n at its start: nothing where the wrapper lacks it.
fn side_at(wrapper: u32, nodes: &[u32], pool: &[u32], n: u32) -> Side
    requires { has_side (described wrapper) n ≡ true → Startable n (table nodes.now pool.now) }
    ensures { SideIs (cond (has_side (described wrapper) n) (start_side (start n (table nodes.now pool.now))) no_side) result }
{
    if has_side(wrapper, n) {
        start_side(nodes, pool, n)
    } else {
        Side::empty()
    }
}

// Every side at its start.
fn start_state(wrapper: u32, nodes: [&[u32]; Sides::COUNT], pools: [&[u32]; Sides::COUNT]) -> State
    requires { AllStartable (composition wrapper (map (λ x. x.now) nodes) (map (λ x. x.now) pools)) }
    ensures { StateIs (record { sides = map (start_of (composition wrapper (map (λ x. x.now) nodes.entry) (map (λ x. x.now) pools.entry))) all_sides }) result }
{
    let mut s = empty_state();
    for k in 0..Sides::COUNT {
        s.sides[k] = side_at(wrapper, nodes[k], pools[k], number_of(k));
    }
    s
}

// Load: the state at its start, or a refusal beside sides that have nothing.
pub fn load(
    wrapper: u32,
    nodes: [&[u32]; Sides::COUNT],
    pools: [&[u32]; Sides::COUNT],
) -> LoadAnswer
    ensures { LoadIs (load (composition wrapper (map (λ x. x.now) nodes.entry) (map (λ x. x.now) pools.entry))) result }
{
    let outcome = load_verdict(wrapper, nodes, pools);
    let state = match outcome {
        Ok(()) => start_state(wrapper, nodes, pools),
        Err(_) => empty_state(),
    };
    LoadAnswer { outcome, state }
}
