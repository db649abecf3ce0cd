// Eight bytes as one word, and which of them are a tab or a newline.
ghost use Rattle.std.specs.Prelude.{◌≡◌, ◌+◌, ◌≤◌, length};
ghost use Rattle.format.specs.Bytes.{slice};
ghost use Rattle.delimiters.specs.Delimiters.{word, flagged};

// The eight bytes from a place on as one word, the first of them lowest.
pub(crate) fn word_at(s: &[u8], at: usize) -> u64
    requires { at + 8 ≤ length s.now }
    ensures { result ≡ word (slice at (at + 8) s.now) }
{
    let mut w: u64 = 0;
    for k in (0..8).rev() {
        w = w * 256 + u64::from(s[at + k]);
    }
    w
}

// The word with each byte replaced by its flag: bit 7 where the byte is a tab or a newline. Without its own bit 7 a byte is at
// most 127, so that each sum stays within its byte: the first has bit 7 where the byte is 9 or more (9 + 0x77 is 128), the second
// where it is 11 or more (11 + 0x75 is 128).
pub(crate) fn flags(x: u64) -> u64
    ensures { result ≡ flagged 8 x }
{
    let low = x & 0x7f7f_7f7f_7f7f_7f7f;
    let from_tab = low + 0x7777_7777_7777_7777;
    let above_newline = low + 0x7575_7575_7575_7575;
    (from_tab ^ above_newline) & (x ^ 0x8080_8080_8080_8080) & 0x8080_8080_8080_8080
}
