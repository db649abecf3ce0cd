// Which minted names have left by each side's outlet: marks for every side's names, for each side.
ghost use Rattle.std.specs.Prelude.{◌≡◌, false, ◌*◌, ◌<◌, ◌≤◌, length, get_or};
ghost use Rattle.model.specs.Basics.{one_of};
ghost use Rattle.model.specs.Wrapper.{all_sides};
ghost use Rattle.model.specs.Step.{mark_of, mark1, mark_all};
ghost use Rattle.values.specs.Env.{view_value};
ghost use Rattle.steps.specs.Asked.{may_enter};

use sides::{Side, Sides};
use values::{Value, is_minted};

// The place of a minted name among a side's marks.
fn mark_of(w: u32) -> usize
    ensures { result ≡ mark_of w }
{
    let side = (w / 65536) as usize;
    let serial = (w % 65536) as usize;
    Side::MINTED * side.saturating_sub(1) + serial
}

// Whether the mark at a place is set in one side's marks or more.
fn is_set_in_any(marks: &[[bool; Sides::MARKS]; Sides::COUNT], m: usize) -> bool
    requires { (length marks.now ≡ length all_sides) × (m < 256 * length all_sides) }
    ensures { result ≡ one_of (λ l. get_or l m false) marks.now }
{
    marks.iter().any(|left| left[m])
}

// Whether w is no minted name, or one that has left by an outlet.
pub(crate) fn may_enter(marks: &[[bool; Sides::MARKS]; Sides::COUNT], w: u32) -> bool
    requires { length marks.now ≡ length all_sides }
    ensures { result ≡ may_enter marks.now w }
{
    !is_minted(w) || is_set_in_any(marks, mark_of(w))
}

// Marks w where it is a minted name.
fn mark(left: &mut [bool], w: u32)
    requires { length left.old ≡ 256 * length all_sides }
    ensures { left.new ≡ mark1 left.old w }
{
    if is_minted(w) {
        left[mark_of(w)] = true;
    }
}

// Marks the minted names of v. The caller has seen that v fits its array.
pub fn mark_all(left: &mut [bool], v: Value)
    requires { (length left.old ≡ 256 * length all_sides) × (v.len ≤ 16) }
    ensures { left.new ≡ mark_all left.old (view_value v) }
{
    for &w in &v.words[..v.len] {
        mark(left, w);
    }
}
