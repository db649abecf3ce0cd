// Steps, each added to a list of words; the place behind it is given back.
ghost use Rattle.std.specs.Prelude.{[], ◌∷◌, ◌++◌};
ghost use Rattle.test_schedules.specs.Lists.{Added, step};

use crate::lists::{append, narrow};

// The kinds of steps.
#[derive(Clone, Copy)]
struct Kind;

impl Kind {
    const ENTER: u32 = 1;

    const DOWN: u32 = 2;

    const UP: u32 = 3;

    const DESCEND: u32 = 4;

    const MEET: u32 = 5;

    const PASS: u32 = 6;

    const LEAVE: u32 = 7;

    const TAKE: u32 = 8;
}

// A step without value words.
fn add(list: &mut [u32; 4400], at: usize, kind: u32, side: u32, i: u32, j: u32) -> usize
    ensures { Added list.old at (step kind side i j []) result list.new }
{
    append(list, at, &[kind, side, i, j, 0])
}

pub fn enter(list: &mut [u32; 4400], at: usize, side: u32, words: &[u32]) -> usize
    ensures { Added list.old at (step 1 side 0 0 words.now) result list.new }
{
    let end = append(list, at, &[Kind::ENTER, side, 0, 0, narrow(words.len())]);
    append(list, end, words)
}

// Stays a function: a call names its step; one function that is given the kind is no plainer.
pub fn down(list: &mut [u32; 4400], at: usize, side: u32, i: u32) -> usize
    ensures { Added list.old at (step 2 side i 0 []) result list.new }
{
    add(list, at, Kind::DOWN, side, i, 0)
}

// Stays a function, as `down`.
pub fn up(list: &mut [u32; 4400], at: usize, side: u32, i: u32) -> usize
    ensures { Added list.old at (step 3 side i 0 []) result list.new }
{
    add(list, at, Kind::UP, side, i, 0)
}

// Stays a function, as `down`.
pub fn descend(list: &mut [u32; 4400], at: usize, side: u32, i: u32, j: u32) -> usize
    ensures { Added list.old at (step 4 side i j []) result list.new }
{
    add(list, at, Kind::DESCEND, side, i, j)
}

// Stays a function, as `down`.
pub fn meet(list: &mut [u32; 4400], at: usize, side: u32, i: u32, j: u32) -> usize
    ensures { Added list.old at (step 5 side i j []) result list.new }
{
    add(list, at, Kind::MEET, side, i, j)
}

// Stays a function, as `down`.
pub fn pass(list: &mut [u32; 4400], at: usize, side: u32, i: u32) -> usize
    ensures { Added list.old at (step 6 side i 0 []) result list.new }
{
    add(list, at, Kind::PASS, side, i, 0)
}

// Stays a function, as `down`.
pub fn leave(list: &mut [u32; 4400], at: usize, side: u32, i: u32) -> usize
    ensures { Added list.old at (step 7 side i 0 []) result list.new }
{
    add(list, at, Kind::LEAVE, side, i, 0)
}

// Stays a function, as `down`.
pub fn take(list: &mut [u32; 4400], at: usize, side: u32, i: u32) -> usize
    ensures { Added list.old at (step 8 side i 0 []) result list.new }
{
    add(list, at, Kind::TAKE, side, i, 0)
}

// A message of one word enters.
pub fn enter_word(list: &mut [u32; 4400], at: usize, side: u32, w: u32) -> usize
    ensures { Added list.old at (step 1 side 0 0 (w ∷ [])) result list.new }
{
    enter(list, at, side, &[w])
}

// Two steps: a message of one word enters, and the first of the queue goes down.
pub fn send(list: &mut [u32; 4400], at: usize, side: u32, w: u32) -> usize
    ensures { Added list.old at (step 1 side 0 0 (w ∷ []) ++ step 2 side 0 0 []) result list.new }
{
    let end = enter_word(list, at, side, w);
    down(list, end, side, 0)
}

// Two steps: the first of the queue goes down, and i meets j.
pub fn land(list: &mut [u32; 4400], at: usize, side: u32, i: u32, j: u32) -> usize
    ensures { Added list.old at (step 2 side 0 0 [] ++ step 5 side i j []) result list.new }
{
    let end = down(list, at, side, 0);
    meet(list, end, side, i, j)
}

// Three steps: a message of one word enters, the first of the queue goes down, and i meets j.
pub fn arrive(list: &mut [u32; 4400], at: usize, side: u32, w: u32, i: u32, j: u32) -> usize
    ensures { Added list.old at (step 1 side 0 0 (w ∷ []) ++ step 2 side 0 0 [] ++ step 5 side i j []) result list.new }
{
    let end = enter_word(list, at, side, w);
    land(list, end, side, i, j)
}

// Three steps: message i goes up, and the first that is there passes and leaves.
pub fn depart(list: &mut [u32; 4400], at: usize, side: u32, i: u32) -> usize
    ensures { Added list.old at (step 3 side i 0 [] ++ step 6 side 0 0 [] ++ step 7 side 0 0 []) result list.new }
{
    let end = up(list, at, side, i);
    let end = pass(list, end, side, 0);
    leave(list, end, side, 0)
}
