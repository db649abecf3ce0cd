// Answers as words, 20 for each: what is said, a refusal's number, the side, how many value words, and 16 of these.
ghost use Rattle.std.specs.Prelude.{◌≡◌, ◌+◌, ◌*◌, ◌≤◌, length, get_or};
ghost use Rattle.std.proofs.Math.Seq.{paste};
ghost use Rattle.format.specs.Words.{said_words, given_words};
ghost use Rattle.values.specs.Env.{view_value};
ghost use Rattle.answers.specs.Answers.{said_of, given_for};

use answers::padded;
use execution::Answer;
use steps::Said;
use values::Value;

// How many words an answer has.
#[derive(Clone, Copy)]
pub(crate) struct Words;

impl Words {
    // Those before the value's: what is said, a refusal's number, the side, and how many value words.
    const HEAD: usize = 4;

    // All of them.
    pub(crate) const COUNT: usize = Words::HEAD + Value::LONGEST;
}

// What an answer says, as the first of its words: 0 silent, 1 in, 2 out, 3 refused, 4 log.
fn label_word(said: Said) -> u32
    ensures { result ≡ get_or (said_words (said_of said)) 0 0 }
{
    match said {
        // Stays arm by arm: these are the numbers of the format, `said_words` of its specs.
        Said::Silent => 0,
        Said::In => 1,
        Said::Out => 2,
        Said::Log => 4,
        Said::Refused(_) => 3,
    }
}

// A refusal's number, and 0 for a label.
fn number_word(said: Said) -> u32
    ensures { result ≡ get_or (said_words (said_of said)) 1 0 }
{
    if let Said::Refused(n) = said { n } else { 0 }
}

// An answer in words, with zeros past those of its value.
fn words_of(a: Answer) -> [u32; Words::COUNT]
    ensures { result ≡ given_words (given_for a.said a.side (view_value a.value)) }
{
    let v = padded(a.value);
    let mut words = [0; Words::COUNT];
    words[0] = label_word(a.said);
    words[1] = number_word(a.said);
    words[2] = a.side;
    words[3] = v.len as u32;
    words[Words::HEAD..].copy_from_slice(&v.words);
    words
}

// Writes the answer with index k.
pub(crate) fn put_answer(out: &mut [u32], k: usize, a: Answer)
    requires { 20 * k + 20 ≤ length out.old }
    ensures { (length (given_words (given_for a.said a.side (view_value a.value))) ≡ 20) × (out.new ≡ paste out.old (20 * k) (given_words (given_for a.said a.side (view_value a.value))) 20) }
{
    let at = Words::COUNT * k;
    out[at..at + Words::COUNT].copy_from_slice(&words_of(a));
}
