// Values and patterns as words: where one ends, and what a pattern takes of a value.
#![tactic(auto)]

ghost use Rattle.std.specs.Prelude.{◌≡◌, List, [], ◌∷◌, ◌++◌, ℕ, ◌≤◌, leb, length, take, drop};
ghost use Rattle.model.specs.Values.{is_tuple, is_minted, is_outside, matches, binders, distinct, at, is_value};
ghost use Rattle.values.specs.Span.{leaf_of, span_of, end_of, size_of};
ghost use Rattle.values.specs.Match.{view_bound, part_of, fit_of, stored_after};
ghost use Rattle.values.specs.Env.{view_value, Stores};

// Which words are items by themselves: in a table's value, in a table's pattern, in a value that a step handles.
#[derive(Clone, Copy)]
pub enum Leaf {
    Public,
    Pattern,
    Name,
}

// How many sides mint names.
#[derive(Clone, Copy)]
pub struct Minting;

impl Minting {
    pub const SIDES: usize = 2;
}

// Whether w is a minted name: 65,536 × side + serial, a side's number from 1 on, serial up to 255.
pub fn is_minted(w: u32) -> bool
    ensures { result ≡ is_minted w }
{
    let side = (w / 65536) as usize;
    1 <= side && side <= Minting::SIDES && w % 65536 <= 255
}

// Whether w is a name from outside: 196,608 + serial, serial up to 255.
pub fn is_outside(w: u32) -> bool
    ensures { result ≡ is_outside w }
{
    196608 <= w && w <= 196863
}

// Whether w is an item by itself.
fn is_leaf(l: Leaf, w: u32) -> bool
    ensures { result ≡ leaf_of l w }
{
    w <= 63
        || match l {
            Leaf::Public => false,
            Leaf::Pattern => w == 4999999,
            Leaf::Name => is_minted(w) || is_outside(w),
        }
}

// Whether w is a tuple word, 4,000,000 + k with k up to 15.
pub fn is_tuple(w: u32) -> bool
    ensures { result ≡ is_tuple w }
{
    4000000 <= w && w <= 4000015
}

// Where the item at place i ends; none where it is malformed. The words before place j are read; n items and at least n words are to come.
fn item_end(l: Leaf, s: &[u32], i: usize) -> Option<usize>
    ensures { result ≡ span_of (leaf_of l) s.now i 1 }
{
    if s.len() <= i {
        return None;
    }
    let mut j = i;
    let mut n: usize = 1;
    // Stays a loop: n counts the items to come, of which a tuple adds some, and the place j moves along.
    while 0 < n {
        let w = s[j];
        j += 1;
        n -= 1;
        if is_leaf(l, w) {
            continue;
        }
        if !is_tuple(w) {
            return None;
        }
        let k = (w - 4000000) as usize;
        if s.len() - j - n < k {
            return None;
        }
        n += k;
    }
    Some(j)
}

// How many words the value or pattern at place p of a pool has; none where it has over 16 or passes the pool's end.
pub fn size_at(l: Leaf, pool: &[u32], p: usize) -> Option<usize>
    ensures { result ≡ size_of (at (leaf_of l) pool.now p) }
{
    let rest = pool.get(p..)?;
    item_end(l, &rest[..rest.len().min(Value::LONGEST)], 0)
}

// Whether the words are one value of at most 16 words.
pub fn is_value(s: &[u32]) -> bool
    ensures { result ≡ is_value s.now }
{
    Value::length_within(s.len()) && item_end(Leaf::Name, s, 0) == Some(s.len())
}

// Where the first value from place j on ends; the end of v where none stands there, and j past the end.
fn value_end(v: &[u32], j: usize) -> usize
    ensures { result ≡ end_of v.now j }
{
    item_end(Leaf::Name, v, j).unwrap_or(v.len().max(j))
}

// How many names a pattern has.
pub fn names_in(s: &[u32]) -> usize
    ensures { (result ≡ length (binders s.now)) × (result ≤ length s.now) }
{
    s.iter().filter(|w| **w <= 63).count()
}

// Whether no name stands twice in a pattern.
pub fn distinct_in(s: &[u32]) -> bool
    ensures { result ≡ distinct (binders s.now) }
{
    for (i, &w) in s.iter().enumerate() {
        if w <= 63 && s[..i].contains(&w) {
            return false;
        }
    }
    true
}

// A part of a value that a name is bound to: where it starts, and how many words it has.
#[derive(Clone, Copy)]
pub struct Part {
    pub start: usize,
    pub len: usize,
}

// The parts bound so far, in the order of the names.
// Stays an array with a length beside it: fixed memory, without a heap.
#[derive(Clone, Copy)]
pub struct Bound {
    pub rows: [Part; Bound::MOST],
    pub n: usize,
}

// How far a pattern takes a value: the next places in both, and the parts bound.
#[derive(Clone, Copy)]
pub struct Matched {
    pub pattern: usize,
    pub value: usize,
    pub bound: Bound,
}

impl Bound {
    // The most names that a loaded pattern has.
    pub const MOST: usize = 8;

    // No parts.
    fn none() -> Bound
        ensures { result.n ≡ 0 }
    {
        Bound {
            rows: [Part { start: 0, len: 0 }; Bound::MOST],
            n: 0,
        }
    }

    // One part more; past the eighth none is stored.
    fn push(mut self, start: usize, len: usize) -> Bound
        ensures { (v : List ℕ) → view_bound v result ≡ take 8 (view_bound v self ++ (part_of v (record { start = start; len = len }) ∷ [])) }
    {
        if self.n < Bound::MOST {
            self.rows[self.n] = Part { start, len };
            self.n += 1;
        }
        self
    }
}

// One item of the pattern p, at place i, against one value of the words v, at place j, after the parts b.
#[cycle(match_item_match_parts)]
fn match_item(p: &[u32], v: &[u32], i: usize, j: usize, b: Bound) -> Option<Matched>
    ensures { fit_of p.now v.now result ≡ stored_after (view_bound v.now b) (matches (drop i p.now) 1 (drop j v.now)) }
{
    let w = *p.get(i)?;
    if is_tuple(w) {
        if *v.get(j)? != w {
            return None;
        }
        return match_parts(p, v, i + 1, j + 1, w - 4000000, b);
    }
    let e = value_end(v, j);
    let bound = if w <= 63 { b.push(j, e - j) } else { b };
    Some(Matched {
        pattern: i + 1,
        value: e,
        bound,
    })
}

// The remaining k parts of a tuple, one after the other.
#[cycle(match_item_match_parts)]
fn match_parts(p: &[u32], v: &[u32], i: usize, j: usize, k: u32, b: Bound) -> Option<Matched>
    ensures { fit_of p.now v.now result ≡ stored_after (view_bound v.now b) (matches (drop i p.now) k (drop j v.now)) }
{
    if k == 0 {
        return Some(Matched {
            pattern: i,
            value: j,
            bound: b,
        });
    }
    let m = match_item(p, v, i, j, b)?;
    match_parts(p, v, m.pattern, m.value, k - 1, m.bound)
}

// A whole pattern against a value; none where it does not take the value.
pub fn matching(p: &[u32], v: &[u32]) -> Option<Matched>
    ensures { fit_of p.now v.now result ≡ stored_after [] (matches p.now 1 v.now) }
{
    match_item(p, v, 0, 0, Bound::none())
}

// The words of a part of v.
pub fn part_words(v: &[u32], p: Part) -> &[u32]
    ensures { result.now ≡ part_of v.now p }
{
    let rest = &v[p.start.min(v.len())..];
    &rest[..p.len.min(rest.len())]
}

// A value of at most 16 words. A length of 17 says that the list which was to be stored is longer.
// Stays an array with a length beside it: fixed memory, and a state may hold a value with any length (view_value, Stores).
#[derive(Clone, Copy)]
pub struct Value {
    pub words: [u32; Value::LONGEST],
    pub len: usize,
}

impl Value {
    // The most words of a value.
    pub const LONGEST: usize = 16;

    // Whether a value may have n words.
    // Stays: document 01 names a function for each limit test.
    pub fn length_within(n: usize) -> bool
        ensures { result ≡ leb n 16 }
    {
        n <= Value::LONGEST
    }

    // No words.
    pub fn none() -> Value
        ensures { Stores [] result }
    {
        Value {
            words: [0; Value::LONGEST],
            len: 0,
        }
    }

    // How many words are stored.
    pub fn count(self) -> usize
        ensures { (result ≡ length (view_value self)) × (result ≤ 16) }
    {
        self.len.min(Value::LONGEST)
    }

    // The words of a slice.
    pub fn of(s: &[u32]) -> Value
        ensures { Stores s.now result }
    {
        let stored = s.len().min(Value::LONGEST);
        let mut words = [0u32; Value::LONGEST];
        words[..stored].copy_from_slice(&s[..stored]);
        Value {
            words,
            len: s.len().min(Value::LONGEST + 1),
        }
    }

    // A name alone.
    pub fn name(w: u32) -> Value
        ensures { view_value result ≡ w ∷ [] }
    {
        Value::of(&[w])
    }
}
