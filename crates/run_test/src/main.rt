// What `run` does with a list of steps that breaks off, with lent words that are too few, with a load that is refused and with no
// step. The lent words are 7 before. Then runs beside the trials, and last, what trial B strands, by words.
#![tactic(auto)]

ghost use Rattle.std.specs.Prelude.{◌≤◌};

mod more; // lengths, uses of bound names, descending, minted names
mod stranded; // trial B

use running::run;
use test_output::{number, write};
use test_schedules::shown::outcome;

// From which place on all words are 7.
fn unchanged_from(out: &[u32]) -> usize {
    for n in (0..out.len()).rev() {
        if out[n] != 7 {
            return n + 1;
        }
    }
    0
}

// A run of the copier on both sides, each with its pool, under a wrapper, with its outcome and from where on the lent words are
// unchanged.
fn lent<'a>(wrapper: u32, pool1: &'a [u32], pool2: &'a [u32], steps: &[u32], out: &mut [u32]) {
    // !in^parent y. out^parent (y y)
    let words = [6u32, 0, 1, 0, 1, 4, 1, 1, 1, 0];
    let nodes = &words[..];
    write(b"run");
    number(steps.len());
    write(b" words");
    number(out.len());
    write(b" lent:");
    outcome(run(wrapper, [nodes, nodes], [pool1, pool2], steps, out));
    write(b", unchanged from");
    number(unchanged_from(out));
    write(b"\n");
}

// The same with the first n words of a list of steps, and N lent words, at most 60.
fn lent_words<'a, const N: usize>(
    wrapper: u32,
    pool1: &'a [u32],
    pool2: &'a [u32],
    steps: &[u32],
    n: usize,
)
    requires { N ≤ 60 }
{
    let mut out = [7u32; N];
    if n <= steps.len() {
        lent(wrapper, pool1, pool2, &steps[..n], &mut out);
    }
}

// A list of two steps, cut after each of its 13 words.
fn cut(pool: &[u32], steps: &[u32]) {
    for k in 0..14 {
        lent_words::<60>(2, pool, pool, steps, k);
    }
}

// Lent words for two answers and for one: too few, just enough, and more.
fn too_few(pool: &[u32], steps: &[u32]) {
    lent_words::<39>(2, pool, pool, steps, 13);
    lent_words::<40>(2, pool, pool, steps, 13);
    lent_words::<45>(2, pool, pool, steps, 13);
    lent_words::<19>(2, pool, pool, steps, 6);
    lent_words::<20>(2, pool, pool, steps, 6);
    lent_words::<19>(2, pool, pool, steps, 0);
}

// A wrapper that is none, a pool that is too short on side 2, and how these stand to a list that breaks off and to lent words
// that are too few.
fn refused<'a>(pool: &'a [u32], short: &'a [u32], steps: &[u32]) {
    lent_words::<60>(4, pool, pool, steps, 13);
    lent_words::<60>(2, pool, short, steps, 13);
    lent_words::<60>(4, pool, pool, steps, 0);
    lent_words::<39>(4, pool, pool, steps, 13);
    lent_words::<39>(4, pool, pool, steps, 12);
}

fn parts() {
    let pool = [10u32, 4000002, 10, 10];
    let short = [10u32, 4000002, 10];
    // two messages enter
    let steps = [1u32, 1, 0, 0, 1, 20, 1, 1, 0, 0, 2, 4000001, 21];
    cut(&pool, &steps);
    too_few(&pool, &steps);
    refused(&pool, &short, &steps);
    // a count that no list has words for
    let most = [1u32, 1, 0, 0, 4294967295];
    lent_words::<60>(2, &pool, &pool, &most, 5);
}

fn main() {
    parts();
    more::runs();
    stranded::trial();
}
