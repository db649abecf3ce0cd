// Unfolding the term at a node straight into a side's words, by one recursive walk over the nodes.
#![tactic(auto)]

ghost use Rattle.std.specs.Prelude.{◌≡◌};
ghost use Rattle.unfolding.specs.Unfolded.{put_counts};

use sides::Rest;

mod at_node; // what one node adds
mod walk; // the walk

pub use walk::unfold_at;

// How many particles, boxes and minted names a side has.
#[derive(Clone, Copy)]
pub struct Counts {
    pub particles: usize,
    pub boxes: usize,
    pub minted: usize,
}

impl Counts {
    // A side's rest with these counts.
    pub fn put_into(self, o: Rest) -> Rest
        ensures { result ≡ put_counts o self }
    {
        Rest {
            particles: self.particles,
            boxes: self.boxes,
            minted: self.minted,
            ..o
        }
    }
}
