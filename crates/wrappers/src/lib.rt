// The wrappers by their numbers, 1 the filter, 2 the pipeline and 3 the logging wrapper: which sides they have, who takes from whose
// shelf, and whether copies leave. The code asks this crate and nothing else about a wrapper.
#![tactic(auto)]

ghost use Rattle.std.specs.Prelude.{◌≡◌};
ghost use Rattle.model.specs.Basics.{has};
ghost use Rattle.model.specs.Wrapper.{is_wrapper, described, has_side, shelves, takes_any};
ghost use Rattle.wrappers.specs.Routes.{source_for};

// Whether w is the number of a wrapper.
pub fn is_wrapper(w: u32) -> bool
    ensures { result ≡ is_wrapper w }
{
    matches!(w, 1..=3)
}

// Whether the wrapper has a side n.
pub fn has_side(w: u32, n: u32) -> bool
    ensures { result ≡ has_side (described w) n }
{
    matches!((w, n), (1, 1) | (2, 1) | (2, 2) | (3, 1))
}

// Whether copies of what enters and passes leave on `log`.
pub fn has_log(w: u32) -> bool
    ensures { result ≡ has 3 (described w).copies }
{
    w == 3
}

// Whether somebody takes from side n, so that what it sends up on `mid` goes to its shelf.
pub fn has_shelf(w: u32, n: u32) -> bool
    ensures { result ≡ shelves (described w) n }
{
    w == 2 && n == 1
}

// Whether side n takes from somebody.
pub fn takes_any(w: u32, n: u32) -> bool
    ensures { result ≡ takes_any (described w) n }
{
    w == 2 && n == 2
}

// The side that side n takes from with this j, if it takes from one.
pub fn source_of(w: u32, n: u32, j: usize) -> Option<u32>
    ensures { result ≡ source_for (described w) n j }
{
    if w == 2 && n == 2 && j == 0 {
        Some(1)
    } else {
        None
    }
}
