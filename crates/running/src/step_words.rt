// A list of words as steps: for each its kind, side, i, j, how many value words, and these.
ghost use Rattle.std.specs.Prelude.{◌≡◌};
ghost use Rattle.format.specs.Words.{steps_of};
ghost use Rattle.running.specs.Running.{count_of};

use execution::record_end;

// How many steps a list of words has; none where it breaks off.
pub(crate) fn count_steps(steps: &[u32]) -> Option<usize>
    ensures { result ≡ count_of (steps_of steps.now) }
{
    let mut p: usize = 0;
    let mut n: usize = 0;
    // Stays a loop by places: `successors` would give the ends of the records, and not that the last one breaks off.
    while p < steps.len() {
        p = record_end(steps, p, 4)?;
        n += 1;
    }
    Some(n)
}
