// The program's output, written as bytes into a lent buffer: the line of a fault, of a refused load, or of each answer.
//
// Each exported function answers how many bytes it wrote. Its contract says the whole buffer after the call: at its start the
// bytes of a definition, behind them what was lent. It asks nothing of the caller. Each inner function writes at a place of the
// buffer and answers the next place.
#![tactic(auto)]

mod lines; // the line of an answer
mod numbers; // bytes, numbers and fields

ghost use Rattle.format.specs.Output.{fault_line, refused_line};
ghost use Rattle.writing.specs.Written.{PageIs};
ghost use Rattle.writing.specs.Words.{answered_in};

use lines::put_line;
use numbers::{put, put_field};

// A page has room for any output: `ok` and 1,024 lines, and the bound that a line is written under.
#[derive(Clone, Copy)]
pub struct Page;

impl Page {
    pub const BYTES: usize = 206848;
}

// A run's answers in words.
#[derive(Clone, Copy)]
pub struct AnswerWords;

impl AnswerWords {
    // What an answer says, in its first word: a silent step, a message that enters, that leaves or that is logged. Any other
    // number says that the step is refused.
    pub const SILENT: u32 = 0;

    pub const ENTERS: u32 = 1;

    pub const LEAVES: u32 = 2;

    pub const LOGS: u32 = 4;

    // The words before the value's: what is said, a refusal's number, the side, and how many value words.
    pub const HEAD: usize = 4;

    // The most words of a value.
    pub const VALUE: usize = 16;

    // The words of an answer.
    pub const EACH: usize = AnswerWords::HEAD + AnswerWords::VALUE;

    // The most answers of a run.
    pub const MOST: usize = 1024;

    // The words of all of them.
    pub const ALL: usize = AnswerWords::EACH * AnswerWords::MOST;
}

// The line of an input that is at fault.
pub fn fault(out: &mut [u8; Page::BYTES], line: usize) -> usize
    ensures { PageIs (fault_line line) out.old out.new result }
{
    let a = put(out, 0, b"line");
    let b = put_field(out, a, line as u64);
    put(out, b, b"\n")
}

// The line of a load that is refused.
pub fn refused(out: &mut [u8; Page::BYTES], number: usize, side: u32, node: usize) -> usize
    ensures { PageIs (refused_line (record { number = number; side = side; node = node })) out.old out.new result }
{
    let a = put(out, 0, b"refused");
    let b = put_field(out, a, number as u64);
    let c = put_field(out, b, side as u64);
    let d = put_field(out, c, node as u64);
    put(out, d, b"\n")
}

// The lines of n answers, 20 words each, behind the line `ok`; nothing where there are more than 1,024.
pub fn answered(out: &mut [u8; Page::BYTES], answers: &[u32; AnswerWords::ALL], n: usize) -> usize
    ensures { PageIs (answered_in n answers.now) out.old out.new result }
{
    if n > AnswerWords::MOST {
        return 0;
    }
    let mut at = put(out, 0, b"ok\n");
    for k in 0..n {
        at = put_line(out, at, k, answers);
    }
    at
}
