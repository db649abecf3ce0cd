// The limits of a side.
// Stays: document 01 names "associated constants of the side's type, with associated functions for an empty side and for each limit test".
ghost use Rattle.std.specs.Prelude.{◌≡◌, leb};
ghost use Rattle.model.specs.Basics.{◌&◌};

use crate::Side;

impl Side {
    pub const PARTICLES: usize = 32;

    pub const BOXES: usize = 16;

    pub const MINTED: usize = 256;

    pub const LOBBY: usize = 16;

    pub const SHELF: usize = 32;

    // Whether a side may have n particles.
    // Stays: document 01 names a function for each limit test.
    pub fn particles_within(n: usize) -> bool
        ensures { result ≡ leb n 32 }
    {
        n <= Side::PARTICLES
    }

    // Whether a side may have n boxes.
    // Stays: document 01 names a function for each limit test.
    pub fn boxes_within(n: usize) -> bool
        ensures { result ≡ leb n 16 }
    {
        n <= Side::BOXES
    }

    // Whether a side may have n minted names.
    // Stays: document 01 names a function for each limit test.
    pub fn minted_within(n: usize) -> bool
        ensures { result ≡ leb n 256 }
    {
        n <= Side::MINTED
    }

    // Whether a side may have so many particles, boxes and minted names.
    #[tactic(auto, using(crate::proofs::Lists::and_then, crate::proofs::Lists::and_else))]
    pub fn contents_within(particles: usize, boxes: usize, minted: usize) -> bool
        ensures { result ≡ leb particles 32 & (leb boxes 16 & leb minted 256) }
    {
        Side::particles_within(particles)
            && Side::boxes_within(boxes)
            && Side::minted_within(minted)
    }

    // Whether a side may have n lobby messages.
    // Stays: document 01 names a function for each limit test.
    pub fn lobby_within(n: usize) -> bool
        ensures { result ≡ leb n 16 }
    {
        n <= Side::LOBBY
    }

    // Whether a side may have n values on the shelf.
    // Stays: document 01 names a function for each limit test.
    pub fn shelf_within(n: usize) -> bool
        ensures { result ≡ leb n 32 }
    {
        n <= Side::SHELF
    }
}
