// Bytes, numbers and fields at a place of a buffer.
ghost use Rattle.std.specs.Prelude.{◌≡◌, [], ◌∷◌, ◌+◌, ◌≤◌, ◌<◌, length};
ghost use Rattle.format.specs.Output.{decimal, fields};
ghost use Rattle.writing.specs.Written.{Written};

// A number's decimal digits.
#[derive(Clone, Copy)]
struct Digits;

impl Digits {
    // The most that a number of 64 bits has.
    const MOST: usize = 20;
}

// Bytes as they are.
pub(crate) fn put(out: &mut [u8], at: usize, text: &[u8]) -> usize
    requires { at + length text.now ≤ length out.old }
    ensures { Written out.old at text.now result out.new }
{
    let end = at + text.len();
    out[at..end].copy_from_slice(text);
    end
}

// A number in decimal digits.
pub(crate) fn put_number(out: &mut [u8], at: usize, n: u64) -> usize
    requires { at + 20 ≤ length out.old }
    ensures written { Written out.old at (decimal n) result out.new }
    ensures upper_bound { result ≤ at + 20 }
    ensures upper_bound_2 { n < 4294967296 → result ≤ at + 10 }
{
    let mut text = [0u8; Digits::MOST];
    let k = io::decimal(n, &mut text);
    put(out, at, &text[..k])
}

// A tab and a number.
pub(crate) fn put_field(out: &mut [u8], at: usize, n: u64) -> usize
    requires { at + 21 ≤ length out.old }
    ensures written { Written out.old at (fields (n ∷ [])) result out.new }
    ensures upper_bound { result ≤ at + 21 }
    ensures upper_bound_2 { n < 4294967296 → result ≤ at + 11 }
{
    let p = put(out, at, b"\t");
    put_number(out, p, n)
}

// Words, each behind a tab.
pub(crate) fn put_fields(out: &mut [u8], at: usize, words: &[u32]) -> usize
    requires words_len_bound { length words.now ≤ 16 }
    requires at_in_bounds { at + 200 ≤ length out.old }
    ensures written { Written out.old at (fields words.now) result out.new }
    ensures upper_bound { result ≤ at + 176 }
{
    let mut p = at;
    for &w in words {
        p = put_field(out, p, u64::from(w));
    }
    p
}
