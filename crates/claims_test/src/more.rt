// Beyond the table: both lists of listing A cut at every place, and wrappers that are none.
use crate::claim::{copier, first, listing, part};
use test_output::{number, write};

// A line for each place of a list, and one behind its last word: the claim with the list cut there.
fn all_cuts<F: Fn(&[u32])>(name: &[u8], list: &[u32], claim: F)
    requires { F.IsAlwaysCallable claim }
{
    for n in 0..=list.len() {
        write(name);
        number(n);
        claim(&list[..n]);
    }
}

// Whole lists under wrapper 0, 4 and the largest number, and lists that break off.
fn no_wrapper(steps: &[u32], labels: &[u32]) {
    write(b"wrapper 0");
    copier(0, steps, labels);
    write(b"wrapper 4");
    copier(4, steps, labels);
    write(b"wrapper 4294967295");
    copier(4294967295, steps, labels);
    write(b"wrapper 4, both lists broken off");
    copier(4, part(steps, 0, 30), part(labels, 0, 9));
}

// All of them, with the words of the steps.
fn rows(steps: &[u32]) {
    let labels = [0u32, 1, 1, 20, 1, 1, 3, 4000002, 20, 20];
    all_cuts(b"steps cut at", steps, |part| copier(1, part, &labels));
    all_cuts(b"labels cut at", &labels, |part| copier(1, steps, part));
    no_wrapper(steps, &labels);
}

// The rows beyond the table.
pub fn claims() {
    let mut list = [0u32; 4400];
    let n = listing(&mut list);
    rows(first(&list, n));
}
