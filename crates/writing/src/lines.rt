// The line of an answer that is given in 20 words.
ghost use Rattle.std.specs.Prelude.{◌≡◌, ◌++◌, ◌+◌, ◌*◌, ◌≤◌, ◌<◌, length};
ghost use Rattle.writing.specs.Written.{Written};
ghost use Rattle.writing.specs.Words.{value_in, saying_in, line_in, answer_at};

use super::AnswerWords;
use super::numbers::{put, put_field, put_fields, put_number};

// The side and the value words; a length above 16 counts as 16.
fn put_value(out: &mut [u8], at: usize, words: &[u32]) -> usize
    requires words_len { length words.now ≡ 20 }
    requires at_in_bounds { at + 210 ≤ length out.old }
    ensures written { Written out.old at (value_in words.now) result out.new }
    ensures upper_bound { result ≤ at + 186 }
{
    let p = put_number(out, at, u64::from(words[2]));
    let e = AnswerWords::HEAD + (words[3] as usize).min(AnswerWords::VALUE);
    put_fields(out, p, &words[AnswerWords::HEAD..e])
}

// A label's word, the side and the value words.
fn put_label(out: &mut [u8], at: usize, word: &[u8], words: &[u32]) -> usize
    requires words_len { length words.now ≡ 20 }
    requires word_len_bound { length word.now ≤ 3 }
    requires at_in_bounds { at + 220 ≤ length out.old }
    ensures written { Written out.old at (word.now ++ value_in words.now) result out.new }
    ensures upper_bound { result ≤ at + 189 }
{
    let p = put(out, at, word);
    put_value(out, p, words)
}

// What the answer says.
fn put_saying(out: &mut [u8], at: usize, words: &[u32]) -> usize
    requires words_len { length words.now ≡ 20 }
    requires at_in_bounds { at + 220 ≤ length out.old }
    ensures written { Written out.old at (saying_in words.now) result out.new }
    ensures upper_bound { result ≤ at + 189 }
{
    match words[0] {
        AnswerWords::SILENT => put(out, at, b"tau"),
        AnswerWords::ENTERS => put_label(out, at, b"in", words),
        AnswerWords::LEAVES => put_label(out, at, b"out", words),
        AnswerWords::LOGS => put_label(out, at, b"log", words),
        _ => {
            let p = put(out, at, b"no");
            put_field(out, p, u64::from(words[1]))
        },
    }
}

// The line of the answer with an index.
pub(crate) fn put_line(out: &mut [u8], at: usize, index: usize, answers: &[u32]) -> usize
    requires index_bound { index < 1024 }
    requires index_in_bounds { 20 * index + 20 ≤ length answers.now }
    requires at_in_bounds { at + 240 ≤ length out.old }
    ensures written { Written out.old at (line_in index (answer_at index answers.now)) result out.new }
    ensures upper_bound { result ≤ at + 201 }
{
    let from = AnswerWords::EACH * index;
    let a = put_number(out, at, index as u64);
    let b = put(out, a, b"\t");
    let c = put_saying(out, b, &answers[from..from + AnswerWords::EACH]);
    put(out, c, b"\n")
}
