// An environment in 144 lent words: eight names, then the places for their values. Values substituted straight into their places.
ghost use Rattle.std.specs.Prelude.{IfSome, IfNone, ◌≢◌, ℕ, get_or, ◌≡◌, true, [], ◌∷◌, ◌+◌, ◌<◌, ◌≤◌, length, take};
ghost use Rattle.std.proofs.lemmas.List.Edits.{sets};
ghost use Rattle.model.specs.Basics.{every};
ghost use Rattle.model.specs.Values.{value, word, substitute};
ghost use Rattle.model.specs.Unfolding.{tag_of};
ghost use Rattle.sides.specs.Views.{view_tag};
ghost use Rattle.sides.specs.Layout.{places_of, fits_place};
ghost use Rattle.sides.specs.Stored.{placed};
ghost use Rattle.sides.specs.Environments.{env_of, last_of, bound};

use crate::places::{append_words, put_words};
use crate::{Rows, Tag};

// Which of the n names is w: the last one.
fn slot_of(e: &[u32], n: usize, w: u32) -> Option<usize>
    requires { (length e.now ≡ 144) × (n ≤ 8) }
    ensures found { IfSome result (λ k. (k < n) × (get_or e.now k 0 ≡ w)) }
    ensures last { IfSome result (λ k. (j : ℕ) → k < j → j < n → get_or e.now j 0 ≢ w) }
    ensures none { IfNone result ((j : ℕ) → j < n → get_or e.now j 0 ≢ w) }
{
    e[..n].iter().rposition(|&x| x == w)
}

// The first word of what the name w stands for.
pub fn word_in(e: &[u32], n: usize, w: u32) -> u32
    requires { (length e.now ≡ 144) × (n ≤ 8) }
    ensures { result ≡ word (env_of e.now n) w }
{
    match slot_of(e, n, w) {
        Some(k) => {
            let a = Rows::HEAD + Rows::PLACE * k;
            if e[a] == 0 { 0 } else { e[a + 1] }
        }
        None => w,
    }
}

// The tag of a tag word.
pub fn tag_in(e: &[u32], n: usize, g: u32) -> Tag
    requires { (length e.now ≡ 144) × (n ≤ 8) }
    ensures { view_tag result ≡ tag_of (env_of e.now n) g }
{
    match g {
        0 => Tag::Within,
        1 => Tag::ToParent,
        _ => Tag::ToChild(word_in(e, n, g - 2)),
    }
}

// Name n, and its value: one word.
pub fn bind_name(e: &mut [u32], n: usize, name: u32, w: u32)
    requires { (length e.old ≡ 144) × (n < 8) }
    ensures { e.new ≡ bound e.old n name (w ∷ []) }
{
    let a = Rows::HEAD + Rows::PLACE * n;
    e[n] = name;
    e[a] = 1;
    e[a + 1] = w;
}

// Name n, and its value: the words s.
pub fn bind_words(e: &mut [u32], n: usize, name: u32, s: &[u32])
    requires { (length e.old ≡ 144) × (n < 8) × (length s.now ≤ 16) }
    ensures { e.new ≡ bound e.old n name s.now }
{
    let a = Rows::HEAD + Rows::PLACE * n;
    let z = a + Rows::PLACE;
    e[n] = name;
    put_words(&mut e[a..z], s);
}

// What the name w stands for behind the m words of a place, and how many there are then.
fn append_value(v: &mut [u32], m: usize, e: &[u32], n: usize, w: u32) -> usize
    requires { (length v.old ≡ 17) × (length e.now ≡ 144) × (n ≤ 8) × (every fits_place (take n (places_of e.now)) ≡ true) × (m + length (value (env_of e.now n) w) ≤ 16) }
    ensures { (result ≡ m + length (value (env_of e.now n) w)) × (v.new ≡ sets v.old (1 + m) (value (env_of e.now n) w)) }
{
    match slot_of(e, n, w) {
        Some(k) => {
            let a = Rows::HEAD + Rows::PLACE * k;
            let b = a + 1;
            let c = b + e[a] as usize;
            append_words(v, m, &e[b..c])
        }
        None => append_words(v, m, &[w]),
    }
}

// A table's value into a place, its bound names (words up to 63) replaced. The caller has seen that it has at most 16 words then.
pub(crate) fn put_substituted(v: &mut [u32], e: &[u32], n: usize, s: &[u32])
    requires { (length v.old ≡ 17) × (length e.now ≡ 144) × (n ≤ 8) × (every fits_place (take n (places_of e.now)) ≡ true) × (length (substitute (env_of e.now n) s.now) ≤ 16) }
    ensures { v.new ≡ placed v.old 0 (substitute (env_of e.now n) s.now) }
{
    let mut m = 0;
    for &w in s {
        if w <= 63 {
            m = append_value(v, m, e, n, w);
        } else {
            v[1 + m] = w;
            m += 1;
        }
    }
    v[0] = m as u32;
}
