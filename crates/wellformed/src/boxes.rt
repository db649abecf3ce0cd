// A side's boxes.
ghost use Rattle.std.specs.Prelude.{◌≡◌, ◌≤◌, length};
ghost use Rattle.model.specs.WellFormed.{wf_boxes};
ghost use Rattle.sides.specs.Layout.{view_boxes};
ghost use Rattle.wellformed.specs.Clauses.{box_at};

use crate::held::held;
use sides::{box_name, box_parent};

// Whether box i is box 0, or has an earlier box as parent and a name that is held.
fn box_ok(counts: &[usize], i: usize, name: u32, parent: usize) -> bool
    ensures { result ≡ box_at counts.now i (record { name = name; parent = parent }) }
{
    i == 0 || parent < i && held(counts, name)
}

// Whether each of the first n boxes is so.
pub(crate) fn boxes_ok(counts: &[usize], words: &[u32], n: usize) -> bool
    requires { (length words.now ≡ 5184) × (n ≤ 16) }
    ensures { result ≡ wf_boxes counts.now 0 (view_boxes words.now n) }
{
    (0..n).all(|k| box_ok(counts, k, box_name(words, k), box_parent(words, k)))
}
