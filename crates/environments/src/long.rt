// Refusal 16: whether an output that unfolds from a node has a value over 16 words.
ghost use Rattle.std.specs.Prelude.{◌≡◌, ℕ, ◌<◌, ltb, length, get_or, set};
ghost use Rattle.model.specs.Table.{count, term};
ghost use Rattle.tables.specs.Nodes.{table};
ghost use Rattle.tables.specs.Scope.{Walks};
ghost use Rattle.tables.specs.Checks.{Passes};
ghost use Rattle.sides.specs.Environments.{env_of};
ghost use Rattle.environments.specs.Fits.{Fits};
ghost use Rattle.environments.specs.Named.{OfNames};
ghost use Rattle.environments.specs.Long.{long_in, size_for, size_by, long_by};

use crate::named::by_names;
use sides::Rows;
use tables::name_set::NameSet;
use tables::nodes::{Kind, node_at};
use tables::pool::words_at;
use values::{Leaf, Value};

// How many words each name of a table, 0 to 63, stands for.
// Stays a struct of one array: its methods answer for a number past 63 too, and their clauses name the array, `of`.
#[derive(Clone, Copy)]
pub(crate) struct Sizes {
    of: [u8; NameSet::NAMES],
}

impl Sizes {
    // The name x stands for m words. A number past 63 is no name of a table.
    // Stays beside NameSet::put: the contracts of both crates name each struct's own array, `of` and `on`.
    fn put(mut self, x: usize, m: u8) -> Sizes
        ensures { result.of ≡ set self.of x m }
    {
        if x < NameSet::NAMES {
            self.of[x] = m;
        }
        self
    }

    // How many words a word of a table's value stands for.
    fn size_for(self, w: u32) -> usize
        ensures { (result ≡ size_for self.of w) × (result < 256) }
    {
        if w <= 63 {
            self.of[w as usize] as usize
        } else {
            1
        }
    }
}

// The sizes of what the names stand for in an environment.
fn sizes_of(e: &[u32], n: usize) -> Sizes
    requires { Fits e.now n }
    ensures { OfNames result.of 0 length (env_of e.now n) }
{
    Sizes {
        of: by_names(e, n, 1, |k| e[Rows::HEAD + Rows::PLACE * k] as u8),
    }
}

// Whether a table's value stands for over 16 words.
fn over_long(t: Sizes, s: &[u32]) -> bool
    ensures { result ≡ ltb 16 (size_by t.of s.now) }
{
    let mut n: usize = 0;
    for &w in s {
        n += t.size_for(w);
        if !Value::length_within(n) {
            // Stays a loop that returns: it stops past 16 words, so that the sum fits for a slice of any length.
            return true;
        }
    }
    false
}

// Whether an output that unfolds from node n has a value over 16 words. The nodes above n are the falling measure.
fn long_in(nodes: &[u32], pool: &[u32], n: usize, t: Sizes) -> bool
    requires { Walks (table nodes.now pool.now) n }
    ensures { result ≡ long_by (term (table nodes.now pool.now) n) t.of }
{
    let x = node_at(nodes, n);
    match x.kind() {
        Kind::Par => long_in(nodes, pool, x.a, t) || long_in(nodes, pool, x.b, t),
        Kind::Box => long_in(nodes, pool, x.b, t),
        Kind::New => long_in(nodes, pool, x.b, t.put(x.a, 1)),
        Kind::Out => over_long(t, words_at(Leaf::Public, pool, x.c)),
        // Stays an arm: no output unfolds from these, and the other arms ask more.
        Kind::Nil | Kind::In | Kind::Rep => false,
    }
}

// Whether an output that unfolds from a node has a value over 16 words in an environment.
pub fn too_long(nodes: &[u32], pool: &[u32], node: usize, e: &[u32], n: usize) -> bool
    requires { Passes (table nodes.now pool.now) × (node < count (table nodes.now pool.now)) × Fits e.now n }
    ensures { result ≡ long_in (term (table nodes.now pool.now) node) (env_of e.now n) }
{
    long_in(nodes, pool, node, sizes_of(e, n))
}
