// The same steps many times, added to a list of words; the place behind them is given back.
use test_schedules::lists::{each, narrow};
use test_schedules::named_steps::{arrive, down, enter_word, take, up};

// Shelf message k is taken, and goes down on side 2.
fn taken(list: &mut [u32; 4400], at: usize, k: usize) -> usize {
    let end = take(list, at, 2, narrow(k));
    down(list, end, 2, 0)
}

// The same for the first n shelf messages.
pub fn takes(list: &mut [u32; 4400], at: usize, n: usize) -> usize {
    each(list, at, 0, n, taken)
}

// A message enters, goes down and meets, and two messages go up.
pub fn two(list: &mut [u32; 4400], at: usize) -> usize {
    let end = arrive(list, at, 1, 20, 1, 0);
    let end = up(list, end, 1, 1);
    up(list, end, 1, 1)
}

// The same with a third that goes up.
fn three(list: &mut [u32; 4400], at: usize) -> usize {
    let end = two(list, at);
    up(list, end, 1, 1)
}

// The same n times.
pub fn threes(list: &mut [u32; 4400], at: usize, n: usize) -> usize {
    each(list, at, 0, n, |list, at, _| three(list, at))
}

// The name 20 enters on side 1, n times.
pub fn enters(list: &mut [u32; 4400], at: usize, n: usize) -> usize {
    each(list, at, 0, n, |list, at, _| enter_word(list, at, 1, 20))
}
