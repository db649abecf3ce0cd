// Each count of a side.
use test_states::{Start, case, wrapper_of};
use wrappers::has_shelf;

// The most that there may be of each.
const LIMITS: [usize; 10] = [32, 16, 8, 16, 16, 16, 16, 32, 16, 256];

// Whether a side has what is counted.
fn is_counted(what: usize, start: Start, side: u32) -> bool {
    !matches!(what, 7 | 8) || has_shelf(wrapper_of(start), side)
}

// Each count at its limit, past it, and the largest number (of a count that is a word, the largest word); the shelf's where the side may
// have one.
pub fn counts(start: Start, side: u32) {
    for (what, &n) in LIMITS.iter().enumerate() {
        if is_counted(what, start, side) {
            case(true, start, side, what, n);
            case(false, start, side, what, n.saturating_add(1));
            case(false, start, side, what, usize::MAX);
        }
    }
}
