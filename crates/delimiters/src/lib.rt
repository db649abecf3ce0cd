// The search for the next tab or newline, by which a field or a line ends.
#![tactic(auto)]

mod words;

ghost use Rattle.std.specs.Prelude.{◌≡◌};
ghost use Rattle.delimiters.specs.Delimiters.{delimiter_from};

use words::{flags, word_at};

// The search byte by byte.
fn by_bytes(s: &[u8], start: usize) -> usize
    ensures { result ≡ delimiter_from start s.now }
{
    for at in start..s.len() {
        if s[at] == b'\t' || s[at] == b'\n' {
            return at;
        }
    }
    s.len()
}

// The first place from `start` on with a tab or a newline, or the length where there is none; so it is the length too where the
// start is past the end. Eight bytes are looked at as one word, the last few by themselves.
pub fn next_delimiter(s: &[u8], start: usize) -> usize
    ensures { result ≡ delimiter_from start s.now }
{
    let end = s.len().saturating_sub(7);
    let mut at = start;
    // Stays a `while`: the place where it ends is the one from which the last bytes are looked at; a `for` would not keep it.
    while at < end {
        let found = flags(word_at(s, at));
        if found != 0 {
            return at + (u64::trailing_zeros(found) / 8) as usize;
        }
        at += 8;
    }
    by_bytes(s, at)
}
