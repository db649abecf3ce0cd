// A side.
ghost use Rattle.std.specs.Prelude.{◌≡◌, true, List, ℕ, ◌*◌, leb, length};
ghost use Rattle.model.specs.Wrapper.{described, all_sides, has_side};
ghost use Rattle.model.specs.WellFormed.{wf_contents, wf_core, is_no_side};
ghost use Rattle.tables.specs.Nodes.{table};
ghost use Rattle.tables.specs.Checks.{Passes};
ghost use Rattle.sides.specs.Layout.{fits_rows};
ghost use Rattle.sides.specs.Sides.{contents_of, core_of, fits_side, side_of, view_side};
ghost use Rattle.wellformed.specs.Clauses.{all_zero, setting_of, side_fits, side_stands};

use crate::boxes::boxes_ok;
use crate::lobby::lobby_ok;
use crate::marks::{left_ok, none_marked, taken_ok};
use crate::particles::rows_ok;
use crate::shelf::shelf_ok;
use sides::{Rest, Side, rows_fit, shelf_fits};
use wrappers::{has_log, has_shelf, has_side, takes_any};

// The array test: whether every count is within its array.
pub(crate) fn side_fits(o: &Side) -> bool
    ensures { result ≡ fits_side o.now.words o.now.rest }
{
    rows_fit(&o.words, o.rest.particles)
        && Side::boxes_within(o.rest.boxes)
        && o.rest.lobby.fits()
        && shelf_fits(&o.words, o.rest.shelved)
}

// Whether box 0 stands, and boxes and particles are well formed.
fn contents_ok(
    nodes: &[u32],
    pool: &[u32],
    counts: &[usize],
    words: &[u32],
    particles: usize,
    boxes: usize,
) -> bool
    requires { Passes (table nodes.now pool.now) × (length words.now ≡ 5184) × (fits_rows words.now particles ≡ true) × (leb boxes 16 ≡ true) }
    ensures { (minted : ℕ) → result ≡ wf_contents (table nodes.now pool.now) counts.now (contents_of words.now particles boxes minted) }
{
    1 <= boxes
        && boxes_ok(counts, words, boxes)
        && rows_ok(nodes, pool, counts, boxes, words, particles)
}

// A side but for its marks.
// Stays by value, `o: Rest`: tried by reference, behind which the prover does not find the lengths of the lobby and of `taken`.
fn core_ok(
    wrapper: u32,
    side: u32,
    nodes: &[u32],
    pool: &[u32],
    counts: &[usize],
    words: &[u32],
    o: Rest,
) -> bool
    requires { Passes (table nodes.now pool.now) × (length words.now ≡ 5184) × (fits_side words.now o ≡ true) }
    ensures { result ≡ wf_core (setting_of wrapper side (table nodes.now pool.now)) counts.now (core_of words.now o) }
{
    let shelved = has_shelf(wrapper, side);
    let logging = has_log(wrapper);
    Side::minted_within(o.minted)
        && contents_ok(nodes, pool, counts, words, o.particles, o.boxes)
        && lobby_ok(shelved, logging, counts, &o.lobby)
        && shelf_ok(shelved, counts, words, o.shelved)
}

// A side with its marks: `counts` has the minted names of each side, `shelved` the values on each side's shelf.
fn side_ok(
    wrapper: u32,
    side: u32,
    nodes: &[u32],
    pool: &[u32],
    counts: &[usize],
    shelved: &[usize],
    o: &Side,
) -> bool
    requires { Passes (table nodes.now pool.now) × (fits_side o.now.words o.now.rest ≡ true) }
    ensures { result ≡ side_fits (setting_of wrapper side (table nodes.now pool.now)) counts.now shelved.now (view_side o.now) }
{
    core_ok(wrapper, side, nodes, pool, counts, &o.words, o.rest)
        && left_ok(counts, &o.left)
        && taken_ok(takes_any(wrapper, side), shelved, &o.rest.taken)
}

// Whether there are no particles, boxes, minted names, lobby messages and shelf values, by their numbers.
fn all_zero(particles: usize, boxes: usize, minted: usize, lobby: usize, shelf: usize) -> bool
    ensures { result ≡ all_zero particles boxes minted lobby shelf }
{
    particles == 0 && boxes == 0 && minted == 0 && lobby == 0 && shelf == 0
}

// Whether nothing is there: a side that the wrapper lacks. Its words do not matter.
// Stays by value, `o: Rest`, as above.
fn is_no_side(o: Rest, left: &[bool]) -> bool
    requires { length left.now ≡ 256 * length all_sides }
    ensures { (words : List ℕ) → result ≡ is_no_side (side_of words o left.now) }
{
    all_zero(o.particles, o.boxes, o.minted, o.lobby.len, o.shelved)
        && none_marked(left)
        && none_marked(&o.taken)
}

// Whether a side is well formed where the wrapper has it, and nothing where the wrapper lacks it. Its counts are within their arrays.
#[tactic(auto, unfolding(crate::specs::Clauses::side_stands))]
pub(crate) fn side_stands(
    wrapper: u32,
    side: u32,
    nodes: &[u32],
    pool: &[u32],
    counts: &[usize],
    shelved: &[usize],
    o: &Side,
) -> bool
    requires { (has_side (described wrapper) side ≡ true → Passes (table nodes.now pool.now)) × (fits_side o.now.words o.now.rest ≡ true) }
    ensures { result ≡ side_stands (setting_of wrapper side (table nodes.now pool.now)) counts.now shelved.now (view_side o.now) }
{
    if has_side(wrapper, side) {
        side_ok(wrapper, side, nodes, pool, counts, shelved, o)
    } else {
        is_no_side(o.rest, &o.left)
    }
}
