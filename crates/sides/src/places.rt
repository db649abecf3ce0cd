// A value in its place of 17 words: its length, then its words.
ghost use Rattle.std.specs.Prelude.{◌≡◌, true, ◌+◌, ◌≤◌, length};
ghost use Rattle.std.proofs.lemmas.List.Edits.{sets};
ghost use Rattle.values.specs.Env.{view_value};
ghost use Rattle.sides.specs.Layout.{view_place, fits_place, ValueIs};
ghost use Rattle.sides.specs.Stored.{placed};

use values::Value;

// The value in a place.
pub(crate) fn value_in(v: &[u32]) -> Value
    requires { (length v.now ≡ 17) × (fits_place v.now ≡ true) }
    ensures { ValueIs (view_place v.now) result }
{
    let n = v[0] as usize;
    Value::of(&v[1..=n])
}

// A value into a place: the words behind it stay.
pub(crate) fn put_value(v: &mut [u32], x: Value)
    requires { (length v.old ≡ 17) × (x.len ≤ 16) }
    ensures { v.new ≡ placed v.old 0 (view_value x) }
{
    put_words(v, &x.words[..x.len]);
}

// The words s into a place: the words behind them stay.
pub(crate) fn put_words(v: &mut [u32], s: &[u32])
    requires { (length v.old ≡ 17) × (length s.now ≤ 16) }
    ensures { v.new ≡ placed v.old 0 s.now }
{
    let n = append_words(v, 0, s);
    v[0] = n as u32;
}

// The words s behind the m words of a place, and how many there are then. The length is not written.
pub(crate) fn append_words(v: &mut [u32], m: usize, s: &[u32]) -> usize
    requires { (length v.old ≡ 17) × (m + length s.now ≤ 16) }
    ensures { (result ≡ m + length s.now) × (v.new ≡ sets v.old (1 + m) s.now) }
{
    // Stays a loop, as that of `copy_values`: `copy_from_slice` calls memmove here.
    for k in 0..s.len() {
        v[1 + m + k] = s[k];
    }
    m + s.len()
}
