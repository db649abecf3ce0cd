// A side's shelf.
ghost use Rattle.std.specs.Prelude.{◌≡◌, true, length};
ghost use Rattle.model.specs.Basics.{every};
ghost use Rattle.model.specs.WellFormed.{wf_value};
ghost use Rattle.sides.specs.Layout.{view_shelf, fits_shelf};
ghost use Rattle.wellformed.specs.Clauses.{shelf_allowed};

use crate::held::held_value;
use sides::shelf_value;

// Whether each of the first n values is held.
fn values_held(counts: &[usize], words: &[u32], n: usize) -> bool
    requires { (length words.now ≡ 5184) × (fits_shelf words.now n ≡ true) }
    ensures { result ≡ every (wf_value counts.now) (view_shelf words.now n) }
{
    (0..n).all(|k| held_value(counts, shelf_value(words, k)))
}

// Whether the shelf is empty, or `shelved` and its values are held.
pub(crate) fn shelf_ok(shelved: bool, counts: &[usize], words: &[u32], n: usize) -> bool
    requires { (length words.now ≡ 5184) × (fits_shelf words.now n ≡ true) }
    ensures { result ≡ shelf_allowed shelved counts.now (view_shelf words.now n) }
{
    if shelved {
        values_held(counts, words, n)
    } else {
        n == 0
    }
}
