// A pattern matched with a value: the parts of the value are bound in the environment.
ghost use Rattle.std.specs.Prelude.{◌≡◌, ◌+◌, length};
ghost use Rattle.model.specs.Values.{binders};
ghost use Rattle.values.specs.Env.{view_value};
ghost use Rattle.values.specs.Match.{view_bound};
ghost use Rattle.environments.specs.Matching.{pattern_at, bound_all, Bindable, Matchable, BindingIs};

use sides::bind_words;
use tables::pool::words_at;
use values::{Bound, Leaf, Value, part_words};

// The names of the pattern p, bound to the parts of v behind n names, and how many names are in force then.
fn bind_parts(e: &mut [u32], n: usize, p: &[u32], v: &[u32], b: Bound) -> usize
    requires { Bindable e.old n (binders p.now) v.now b }
    ensures { (result ≡ n + length (binders p.now)) × (e.new ≡ bound_all e.old n (binders p.now) (view_bound v.now b)) }
{
    let mut k: usize = 0;
    for &w in p {
        if w <= 63 {
            bind_words(e, n + k, w, part_words(v, b.rows[k]));
            k += 1;
        }
    }
    n + k
}

// The pattern at a place of the pool against v: where it takes v, its names are bound behind the n names of e, and the answer is
// how many names are in force then.
pub fn match_value(pool: &[u32], place: usize, e: &mut [u32], n: usize, v: Value) -> Option<usize>
    requires { Matchable e.old n (pattern_at pool.now place) v }
    ensures { BindingIs (pattern_at pool.now place) (view_value v) e.old n e.new result }
{
    let s = words_at(Leaf::Pattern, pool, place);
    let words = &v.words[..v.len];
    let m = values::matching(s, words)?;
    Some(bind_parts(e, n, s, words, m.bound))
}
