// The same steps many times, added to a list of words; the place behind them is given back.
use test_schedules::lists::{each, narrow};
use test_schedules::named_steps::{arrive, depart};

// A message enters, goes down to place k + 1, and meets the input at k; for k from a to below b.
pub fn meetings(list: &mut [u32; 4400], at: usize, a: usize, b: usize) -> usize {
    each(list, at, a, b, |list, at, k| {
        arrive(list, at, 1, 20, narrow(k.wrapping_add(1)), narrow(k))
    })
}

// A message enters, goes down and meets, and another goes up, passes and leaves.
fn round(list: &mut [u32; 4400], at: usize) -> usize {
    let end = arrive(list, at, 1, 20, 1, 0);
    depart(list, end, 1, 1)
}

// The same n times.
pub fn rounds(list: &mut [u32; 4400], at: usize, n: usize) -> usize {
    each(list, at, 0, n, |list, at, _| round(list, at))
}
