// A step where the words and the marks of all sides are lent: the words of the side that makes it change, and no others.
ghost use Rattle.std.specs.Prelude.{◌≡◌, Bool, List, [], ℕ, ◌-◌, ◌<◌, ◌≤◌, length, get_or};
ghost use Rattle.model.specs.Wrapper.{all_sides, described};
ghost use Rattle.values.specs.Env.{view_value};
ghost use Rattle.steps.specs.StepIs.{Sane};
ghost use Rattle.dispatch.specs.Stepping.{setting_of, asked, RouteOffer};
ghost use Rattle.dispatch.specs.Sharing.{Shelves, SideReady, StillAt, LocalAt, says_left, MarkedAt};

use crate::own_side::{own_step, wordless};
use loading::place_of;
use sides::{Rest, Rows, Sides};
use steps::{Offer, RestStep, Said, mark_all, take};
use values::Value;
use wrappers::source_of;

// Whether a route leads to the side by j. The position is the place of the side that it leads from.
fn route_offer(wrapper: u32, side: u32, j: usize) -> Offer
    ensures { RouteOffer (described wrapper) side j result }
{
    let Some(m) = source_of(wrapper, side, j) else {
        return Offer::Refused(10);
    };
    Offer::At(place_of(m))
}

// Kind 8 of the side at place k: there are no value words, and j names a route. No word changes.
fn taking(
    wrapper: u32,
    side: u32,
    rows: &[[u32; Rows::WORDS]; Sides::COUNT],
    k: usize,
    shelved: [usize; Sides::COUNT],
    o: Rest,
    i: usize,
    j: usize,
    words: &[u32],
) -> RestStep
    requires { (length rows.now ≡ length all_sides) × (k < length all_sides) × (Sane (get_or rows.now k []) o) × Shelves rows.now shelved }
    ensures { (nodes pool : List ℕ) (ms : List (List Bool)) (n : ℕ) → StillAt (setting_of wrapper side nodes pool) ms rows.now shelved (asked 8 n i j words.now) k o result }
{
    let a = wordless(words, i);
    let Offer::At(q) = a else {
        return RestStep::refused(a, o);
    };
    let f = route_offer(wrapper, side, j);
    let Offer::At(p) = f else {
        return RestStep::refused(f, o);
    };
    take(&rows[k], o, &rows[p], shelved[p], p + 1, q)
}

// Kinds 1 to 8 of a side. `shelved` says how many values each side has on its shelf.
// Stays a number for the kind: the clause of side_step is of any number that is asked (`asked kind ..`), others than 1 to 8 too.
pub fn side_step(
    wrapper: u32,
    nodes: &[u32],
    pool: &[u32],
    side: u32,
    rows: &mut [[u32; Rows::WORDS]; Sides::COUNT],
    shelved: [usize; Sides::COUNT],
    marks: &[[bool; Sides::MARKS]; Sides::COUNT],
    o: Rest,
    kind: u32,
    i: usize,
    j: usize,
    words: &[u32],
) -> RestStep
    requires { SideReady (setting_of wrapper side nodes.now pool.now) marks.now rows.old shelved o }
    ensures { (n : ℕ) → LocalAt (setting_of wrapper side nodes.now pool.now) marks.now rows.old shelved (asked kind n i j words.now) o rows.new result }
{
    let k = place_of(side);
    // Stays a number: the clause speaks of every number that is asked, as above.
    if kind == 8 {
        return taking(wrapper, side, rows, k, shelved, o, i, j, words);
    }
    own_step(
        wrapper,
        nodes,
        pool,
        side,
        &mut rows[k],
        marks,
        o,
        kind,
        i,
        j,
        words,
    )
}

// Whether what is said is that a value left, on `out` or on `log`.
fn says_left(said: Said) -> bool
    ensures { result ≡ says_left said }
{
    matches!(said, Said::Out | Said::Log)
}

// The marks of a side after what it said: the minted names of a value that left are marked. The caller has seen that v fits its array.
pub fn mark_left(marks: &mut [[bool; Sides::MARKS]; Sides::COUNT], side: u32, said: Said, v: Value)
    requires { (length marks.old ≡ length all_sides) × (0 < side) × (side - 1 < length all_sides) × (v.len ≤ 16) }
    ensures { MarkedAt said (view_value v) marks.old (side - 1) marks.new }
{
    let k = place_of(side);
    if says_left(said) {
        mark_all(&mut marks[k], v);
    }
}
