// Names, values and tags that pass 11, where minted names are below their side's count. `counts` has the counts from side 1 on.
ghost use Rattle.std.specs.Prelude.{◌≡◌, ◌≤◌, ltb};
ghost use Rattle.model.specs.Basics.{every};
ghost use Rattle.model.specs.WellFormed.{count_of, held as heldName, held_word, wf_value, wf_tag};
ghost use Rattle.values.specs.Env.{view_value};
ghost use Rattle.sides.specs.Views.{view_tag};

use sides::Tag;
use values::{Value, is_minted, is_outside, is_value};

// Whether n is below the count of a side; no side without a count has one.
pub(crate) fn below(counts: &[usize], side: usize, n: usize) -> bool
    ensures { result ≡ ltb n (count_of counts.now side) }
{
    0 < side && side <= counts.len() && n < counts[side - 1]
}

// Whether w is a name: public, from outside, or minted and below its side's count.
pub(crate) fn held(counts: &[usize], w: u32) -> bool
    ensures { result ≡ heldName counts.now w }
{
    w <= 63
        || is_outside(w)
        || is_minted(w) && below(counts, (w / 65536) as usize, (w % 65536) as usize)
}

// Whether a word of a value is a tuple word or such a name.
fn held_word(counts: &[usize], w: u32) -> bool
    ensures { result ≡ held_word counts.now w }
{
    4000000 <= w || held(counts, w)
}

// Whether every word is.
fn held_words(counts: &[usize], s: &[u32]) -> bool
    ensures { result ≡ every (held_word counts.now) s.now }
{
    s.iter().all(|&w| held_word(counts, w))
}

// Whether the words are a value that passes 11, its minted names below their side's count.
fn value_held(counts: &[usize], s: &[u32]) -> bool
    ensures { result ≡ wf_value counts.now s.now }
{
    is_value(s) && held_words(counts, s)
}

// The same of a value by itself.
pub(crate) fn held_value(counts: &[usize], v: Value) -> bool
    requires { v.len ≤ 16 }
    ensures { result ≡ wf_value counts.now (view_value v) }
{
    value_held(counts, &v.words[..v.len])
}

// Whether a tag's name is held, where it has one.
#[tactic(auto, unfolding(model::specs::WellFormed::wf_tag))]
pub(crate) fn held_tag(counts: &[usize], t: Tag) -> bool
    ensures { result ≡ wf_tag counts.now (view_tag t) }
{
    match t {
        // Stays an arm: these tags have no name, and the others ask for it.
        Tag::Within | Tag::ToParent | Tag::FromParent => true,
        Tag::ToChild(n) | Tag::FromChild(n) => held(counts, n),
    }
}
