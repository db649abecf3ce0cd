// A side's marks: minted names that have left, shelf places taken; for each side as many places as it may have.
ghost use Rattle.std.specs.Prelude.{◌≡◌};
ghost use Rattle.model.specs.WellFormed.{wf_left, clear};
ghost use Rattle.wellformed.specs.Clauses.{every_from, left_at, taken_at};

use crate::held::below;
use sides::Side;

// Whether place k is not marked, or a name of that serial is below its side's count.
#[tactic(auto, unfolding(crate::specs::Clauses::left_at))]
fn left_fits(counts: &[usize], k: usize, marked: bool) -> bool
    ensures { result ≡ left_at counts.now k marked }
{
    !marked || below(counts, k / Side::MINTED + 1, k % Side::MINTED)
}

// Whether the names marked as left are below their side's count.
pub(crate) fn left_ok(counts: &[usize], left: &[bool]) -> bool
    ensures { result ≡ wf_left counts.now 0 left.now }
{
    left.iter()
        .enumerate()
        .all(|(k, &marked)| left_fits(counts, k, marked))
}

// Whether place k is not marked, or is a taker's and filled: `shelved` has how many places are filled, from side 1 on.
fn taken_fits(taker: bool, shelved: &[usize], k: usize, marked: bool) -> bool
    ensures { result ≡ taken_at taker shelved.now k marked }
{
    !marked || taker && below(shelved, k / Side::SHELF + 1, k % Side::SHELF)
}

// Whether the places marked as taken are a taker's, and filled.
pub(crate) fn taken_ok(taker: bool, shelved: &[usize], taken: &[bool]) -> bool
    ensures { result ≡ every_from (taken_at taker shelved.now) 0 taken.now }
{
    taken
        .iter()
        .enumerate()
        .all(|(k, &marked)| taken_fits(taker, shelved, k, marked))
}

// Whether nothing is marked.
pub(crate) fn none_marked(marks: &[bool]) -> bool
    ensures { result ≡ clear marks.now }
{
    !marks.contains(&true)
}
