// The boundary for C and Rust: functions on numbers and slices. The tables of all sides are lent as one list of words, `tables`: side 1's
// nodes, side 1's pool, side 2's nodes, and so on; `lengths` has the length of each of these parts in words.
#![tactic(auto)]

ghost use Rattle.std.specs.Prelude.{◌≡◌, [], ◌∷◌, length};
ghost use Rattle.format.specs.Output.{output};
ghost use Rattle.format.specs.Words.{run_of};
ghost use Rattle.claims.specs.Claims.{check_trace};
ghost use Rattle.loading.specs.Loading.{told_by};
ghost use Rattle.embed.specs.Lent.{lent_composition};
ghost use Rattle.stranding.specs.Stranding.{stranded_after};
ghost use Rattle.embed.specs.Numbers.{TextNumbers, RunNumbers, TraceNumbers, AfterNumbers};

use checking::{TraceError, check_trace};
use loading::LoadRefusal;
use parts::parts;
use running::{RunError, run};
use stranding::{AfterError, stranded_after};
use text::text;

mod parts; // the tables of all sides, cut into those of each

// The program's output for an input. Answers 0 where it is written, and how many bytes it has is in `bytes`; 1 where `out` is too short:
// nothing is written, and `bytes` is 0.
#[unsafe(no_mangle)]
pub extern "C" fn bench_text(input: &[u8], out: &mut [u8], bytes: &mut usize) -> usize
    ensures { TextNumbers (output input.now) out.old out.new bytes.new result }
{
    match text(input, out) {
        Ok(n) => {
            *bytes = n;
            0
        },
        Err(_) => {
            *bytes = 0;
            1
        },
    }
}

// Number, side and node of load's refusal.
fn refusal_numbers(f: LoadRefusal) -> [usize; 3]
    ensures { result ≡ (told_by f).number ∷ (told_by f).side ∷ (told_by f).node ∷ [] }
{
    [f.cause.number(), f.side as usize, f.node]
}

// A run of a list of steps; its answers are written to `out`, 20 words each. Answers 0 where it is done, and `numbers` has how many
// answers there are; 1 where load refuses, with its number, side and node; 2 where the steps break off; 3 where `out` is too short.
#[unsafe(no_mangle)]
pub extern "C" fn bench_run(
    wrapper: u32,
    tables: &[u32],
    lengths: &[u32],
    steps: &[u32],
    out: &mut [u32],
    numbers: &mut [usize; 3],
) -> usize
    ensures { RunNumbers (run_of (lent_composition wrapper tables.now lengths.now) steps.now (length out.old)) out.old out.new numbers.new result }
{
    let nodes = parts(tables, lengths, 0);
    let pools = parts(tables, lengths, 1);
    match run(wrapper, nodes, pools, steps, out) {
        Ok(n) => {
            *numbers = [n, 0, 0];
            0
        },
        Err(RunError::Refused(f)) => {
            *numbers = refusal_numbers(f);
            1
        },
        Err(RunError::BrokenOff) => {
            *numbers = [0, 0, 0];
            2
        },
        Err(RunError::TooShort) => {
            *numbers = [0, 0, 0];
            3
        },
    }
}

// Whether the labels that a maker claims are those of the steps. Answers 0 where they are; the number of load's refusal, with its side
// and node in `place`; 20 where a step is at fault, 21 where a label is, with 0 and its index.
#[unsafe(no_mangle)]
pub extern "C" fn bench_check_trace(
    wrapper: u32,
    tables: &[u32],
    lengths: &[u32],
    steps: &[u32],
    labels: &[u32],
    place: &mut [usize; 2],
) -> usize
    ensures { TraceNumbers (check_trace (lent_composition wrapper tables.now lengths.now) steps.now labels.now) place.new result }
{
    let nodes = parts(tables, lengths, 0);
    let pools = parts(tables, lengths, 1);
    match check_trace(wrapper, nodes, pools, steps, labels) {
        Ok(()) => {
            *place = [0, 0];
            0
        },
        Err(TraceError::Unloaded(f)) => {
            *place = [f.side as usize, f.node];
            f.cause.number()
        },
        Err(TraceError::StepAt(k)) => {
            *place = [0, k];
            20
        },
        Err(TraceError::LabelAt(k)) => {
            *place = [0, k];
            21
        },
    }
}

// The stranded positions of a side after a list of steps, smallest first, written to `out`. Answers 0 where they are written, and
// `numbers` has how many there are; 1 where load refuses, with its number, side and node; 2 where the steps break off; 22 where `out` is
// too short.
#[unsafe(no_mangle)]
pub extern "C" fn bench_stranded_after(
    wrapper: u32,
    tables: &[u32],
    lengths: &[u32],
    steps: &[u32],
    side: u32,
    out: &mut [u32],
    numbers: &mut [usize; 3],
) -> usize
    ensures { AfterNumbers (stranded_after (lent_composition wrapper tables.now lengths.now) steps.now side) out.old out.new numbers.new result }
{
    let nodes = parts(tables, lengths, 0);
    let pools = parts(tables, lengths, 1);
    match stranded_after(wrapper, nodes, pools, steps, side, out) {
        Ok(count) => {
            *numbers = [count, 0, 0];
            0
        },
        Err(AfterError::Unloaded(f)) => {
            *numbers = refusal_numbers(f);
            1
        },
        Err(AfterError::BrokenOff) => {
            *numbers = [0, 0, 0];
            2
        },
        Err(AfterError::TooShort) => {
            *numbers = [0, 0, 0];
            22
        },
    }
}
