// A line's fields: its letter, and its numbers.
ghost use Rattle.std.specs.Prelude.{◌≡◌, ◌≤◌, length, IfSome};
ghost use Rattle.format.specs.Bytes.{slice};
ghost use Rattle.format.specs.Lines.{tab, number, pieces, numbers, line_of};
ghost use Rattle.reading.specs.Fields.{option_of, view_line, LineEnds, short, line_with, line_end, ended};

use delimiters::next_delimiter;

// A line's letter and numbers, and the place of its newline.
// Stays an array with a length beside it: fixed memory, no heap.
#[derive(Clone, Copy)]
pub(crate) struct Line {
    pub(crate) letter: u8,
    pub(crate) words: [u32; Line::MOST],
    pub(crate) len: usize,
    pub(crate) end: usize,
}

impl Line {
    // The most numbers of a line: a step of kind 1 with 17 value words.
    const MOST: usize = 21;
}

// The number that a field is.
fn number_in(field: &[u8]) -> Option<u32>
    ensures { option_of result ≡ number field.now }
{
    if field.is_empty() {
        return None;
    }
    let mut v: u64 = 0;
    for &b in field {
        if !b.is_ascii_digit() {
            return None;
        }
        v = 10 * v + u64::from(b - b'0');
        if u64::from(u32::MAX) < v {
            return None;
        }
    }
    Some(v as u32)
}

// A letter's line with the numbers of the fields from a place on. There is none with more than 21 of them, or without a newline.
fn with_numbers(letter: u8, s: &[u8], from: usize) -> Option<Line>
    requires { from ≤ length s.now }
    ensures value { view_line result ≡ ended from s.now (short (line_with letter (numbers (pieces tab (slice from (line_end from s.now) s.now))))) }
    ensures ends { IfSome result (LineEnds from s.now) }
{
    let mut words = [0u32; Line::MOST];
    let mut len: usize = 0;
    let mut at = from;
    // Stays a loop by places: `next_delimiter` finds a field's end by eight bytes at once; a split would look at each byte by itself.
    loop {
        let q = next_delimiter(s, at);
        let w = number_in(&s[at..q])?;
        if q == s.len() || len == Line::MOST {
            return None;
        }
        words[len] = w;
        len += 1;
        if s[q] == b'\n' {
            return Some(Line {
                letter,
                words,
                len,
                end: q,
            });
        }
        at = q + 1;
    }
}

// The line from a place on, up to its newline.
pub(crate) fn line_at(s: &[u8], from: usize) -> Option<Line>
    requires { from ≤ length s.now }
    ensures value { view_line result ≡ ended from s.now (short (line_of (slice from (line_end from s.now) s.now))) }
    ensures ends { IfSome result (LineEnds from s.now) }
{
    let q = next_delimiter(s, from);
    if q - from != 1 || q == s.len() {
        return None;
    }
    let letter = s[from];
    if s[q] == b'\n' {
        return Some(Line {
            letter,
            words: [0; Line::MOST],
            len: 0,
            end: q,
        });
    }
    with_numbers(letter, s, q + 1)
}
