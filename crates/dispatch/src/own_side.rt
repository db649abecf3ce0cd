// Kinds 1 to 7: the side's own words are lent.
ghost use Rattle.std.specs.Prelude.{◌≡◌, List, ℕ, ◌≤◌, length};
ghost use Rattle.model.specs.Wrapper.{all_sides};
ghost use Rattle.model.specs.Step.{settled};
ghost use Rattle.wrappers.specs.Copies.{log_if};
ghost use Rattle.sides.specs.Sides.{core_of};
ghost use Rattle.steps.specs.Asked.{OfferIf, with_shelf};
ghost use Rattle.steps.specs.StepIs.{Sane, StepIs};
ghost use Rattle.dispatch.specs.Stepping.{setting_of, asked, ShelvesBy, LocalIs, OnePlaceKind, one_place, two_places, OwnReady};

use meeting::meet;
use sides::{Rest, Sides};
use steps::{Offer, RestStep, Said, descend, down, enter, leave, pass, up};
use wrappers::{has_log, has_shelf};

// Kinds 2, 3, 6 and 7: the steps that name one place. `shelving` says whether what goes up on `mid` goes to the shelf, `logging` whether
// copies leave of what passes.
fn one_place(
    shelving: bool,
    logging: bool,
    rows: &mut [u32],
    o: Rest,
    kind: u32,
    i: usize,
) -> RestStep
    requires { Sane rows.old o × OnePlaceKind kind }
    ensures { StepIs (settled (one_place (with_shelf shelving) (log_if logging) (core_of rows.old o) kind i)) rows.old o rows.new result }
{
    // Stays a number: the clause of `side_step` speaks of every number that is asked.
    match kind {
        2 => down(rows, o, i),
        3 => up(shelving, rows, o, i),
        6 => pass(rows, o, logging, i),
        _ => leave(rows, o, i),
    }
}

// Whether the kind is one of 2 to 7, and j, which those of one place do not use, is 0. The position is i.
fn place_offer(kind: u32, i: usize, j: usize) -> Offer
    ensures { OfferIf ((2 ≤ kind) × (kind ≤ 7) × (j ≡ 0)) i 10 result }
{
    // Stays a number: the clause of `side_step` speaks of every number that is asked.
    if kind < 2 || 7 < kind || j != 0 {
        return Offer::Refused(10);
    }
    Offer::At(i)
}

// Whether there are no value words, which kind 1 alone has. The position is i.
pub(crate) fn wordless(words: &[u32], i: usize) -> Offer
    ensures { OfferIf (length words.now ≡ 0) i 10 result }
{
    if !words.is_empty() {
        return Offer::Refused(10);
    }
    Offer::At(i)
}

// Whether i and j, which kind 1 does not use, are 0. The answer is the value length.
fn no_place_offer(i: usize, j: usize, words: &[u32]) -> Offer
    ensures { OfferIf ((i ≡ 0) × (j ≡ 0)) (length words.now) 10 result }
{
    if i != 0 || j != 0 {
        return Offer::Refused(10);
    }
    Offer::At(words.len())
}

// Kinds 2 to 7.
fn two_places(
    wrapper: u32,
    nodes: &[u32],
    pool: &[u32],
    side: u32,
    rows: &mut [u32],
    o: Rest,
    kind: u32,
    i: usize,
    j: usize,
) -> RestStep
    requires { OwnReady (setting_of wrapper side nodes.now pool.now) rows.old o }
    ensures { StepIs (settled (two_places (setting_of wrapper side nodes.now pool.now) (core_of rows.old o) kind i j)) rows.old o rows.new result }
{
    // Stays a number: the clause of `side_step` speaks of every number that is asked.
    match kind {
        4 => descend(rows, o, i, j),
        5 => meet(nodes, pool, side, rows, o, i, j),
        _ => {
            let a = place_offer(kind, i, j);
            let Offer::At(k) = a else {
                return RestStep::refused(a, o);
            };
            one_place(has_shelf(wrapper, side), has_log(wrapper), rows, o, kind, k)
        }
    }
}

// Kind 1: unused i and j must be 0.
fn entering(
    wrapper: u32,
    rows: &[u32],
    o: Rest,
    marks: &[[bool; Sides::MARKS]; Sides::COUNT],
    i: usize,
    j: usize,
    words: &[u32],
) -> RestStep
    requires { (Sane rows.now o) × (length marks.now ≡ length all_sides) }
    ensures { (side : ℕ) (ns ps : List ℕ) (sh : ShelvesBy) (n : ℕ) → LocalIs (setting_of wrapper side ns ps) marks.now sh (asked 1 n i j words.now) rows.now o rows.now result }
{
    let a = no_place_offer(i, j, words);
    let Offer::At(n) = a else {
        return RestStep::refused(a, o);
    };
    enter(rows, o, has_log(wrapper), marks, &words[..n])
}

// Kinds 1 to 7.
pub(crate) fn own_step(
    wrapper: u32,
    nodes: &[u32],
    pool: &[u32],
    side: u32,
    rows: &mut [u32],
    marks: &[[bool; Sides::MARKS]; Sides::COUNT],
    o: Rest,
    kind: u32,
    i: usize,
    j: usize,
    words: &[u32],
) -> RestStep
    requires { (OwnReady (setting_of wrapper side nodes.now pool.now) rows.old o) × (length marks.now ≡ length all_sides) × (kind ≡ 8 → ⊥) }
    ensures { (sh : ShelvesBy) (n : ℕ) → LocalIs (setting_of wrapper side nodes.now pool.now) marks.now sh (asked kind n i j words.now) rows.old o rows.new result }
{
    // Stays a number: the clause of `side_step` speaks of every number that is asked.
    if kind == 1 {
        return entering(wrapper, rows, o, marks, i, j, words);
    }
    let a = wordless(words, i);
    let Offer::At(k) = a else {
        return RestStep::refused(a, o);
    };
    two_places(wrapper, nodes, pool, side, rows, o, kind, k, j)
}
