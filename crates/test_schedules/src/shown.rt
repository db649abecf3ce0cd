// Writes what a run comes to, and a line for each answer: name, index, label (with a refusal's number), side and value words.
use running::RunError;
use steps::Said;
use test_output::{number, word, write, write_said};

// The label words of answers.
#[derive(Clone, Copy)]
struct Label;

impl Label {
    const SILENT: u32 = 0;

    const IN: u32 = 1;

    const OUT: u32 = 2;

    const REFUSED: u32 = 3;

    const LOG: u32 = 4;
}

// The word at a place, 0 past the end.
fn word_at(words: &[u32], i: usize) -> u32 {
    words.get(i).copied().unwrap_or(0)
}

// What a label word says, with the number of a refusal.
fn said(label: u32, refusal: u32) -> Said {
    match label {
        Label::SILENT => Said::Silent,
        Label::IN => Said::In,
        Label::OUT => Said::Out,
        Label::LOG => Said::Log,
        _ => Said::Refused(refusal),
    }
}

// The k-th word of a value with a length. Past the length a word is 0, and is written only if it is not.
fn part(k: usize, len: usize, w: u32) {
    if k < len {
        word(w);
    } else if w != 0 {
        write(b" past the length");
        word(w);
    }
}

// The 16 words of a value, which start at a place below 100,000.
fn parts(out: &[u32], at: usize, len: usize) {
    for k in 0..16 {
        part(k, len, word_at(out, at % 100000 + k));
    }
}

// The answer with index k, which is below 1,000.
fn answer(name: &[u8], out: &[u32], k: usize) {
    write(name);
    number(k);
    let at = k % 1000 * 20;
    write_said(said(word_at(out, at), word_at(out, at + 1)));
    word(word_at(out, at + 2));
    parts(out, at + 4, word_at(out, at + 3) as usize);
    write(b"\n");
}

// The answers with index from a to below b.
fn answers(name: &[u8], out: &[u32], a: usize, b: usize) {
    for k in a..b {
        answer(name, out, k);
    }
}

// Whether the answer with index k is a refusal.
fn is_refusal(out: &[u32], k: usize) -> bool {
    word_at(out, k % 1000 * 20) == Label::REFUSED
}

// How many refusals the answers from a to below b have.
fn between(name: &[u8], out: &[u32], a: usize, b: usize) {
    let refusals = (a..b).filter(|k| is_refusal(out, *k)).count();
    write(name);
    write(b" from");
    number(a);
    write(b" to below");
    number(b);
    write(b" refused");
    number(refusals);
    write(b"\n");
}

// The answers of a run: those before the first index and those from the second on in lines, and how many are refused between.
pub fn lines(name: &[u8], out: &[u32], n: usize, first: usize, second: usize) {
    if n <= first {
        answers(name, out, 0, n);
    } else {
        answers(name, out, 0, first);
        between(name, out, first, second);
        answers(name, out, second, n);
    }
}

// What a run comes to.
pub fn outcome(r: Result<usize, RunError>) {
    match r {
        Ok(n) => {
            write(b" done");
            number(n);
        },
        Err(RunError::Refused(f)) => {
            write(b" refused");
            number(f.cause.number());
            word(f.side);
            number(f.node);
        },
        Err(RunError::BrokenOff) => write(b" broken off"),
        Err(RunError::TooShort) => write(b" too short"),
    }
}

// How many answers a run has written.
pub(crate) fn written(r: Result<usize, RunError>) -> usize {
    r.unwrap_or(0)
}
