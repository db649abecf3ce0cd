// The bench as a function of bytes: an input's lines are read, its tables loaded, its steps run, and the answers written.
#![tactic(auto)]

ghost use Rattle.std.specs.Prelude.{◌≡◌, [], map, ℕ, ◌*◌, ◌<◌, ◌≤◌, length, get_or, take, drop};
ghost use Rattle.model.specs.Wrapper.{all_sides};
ghost use Rattle.format.specs.Lines.{Input};
ghost use Rattle.format.specs.Output.{output_for, output};
ghost use Rattle.writing.specs.Written.{PageIs};
ghost use Rattle.text.specs.Text.{Given, TextIs};

use reading::{Places, read};
use running::{RunError, run};
use sides::Sides;
use writing::{AnswerWords, Page, answered, fault, refused};

// The lent buffer is too short for the output.
#[derive(Clone, Copy, PartialEq, Eq)]
pub struct TooShort;

// The words of each side: a list has parts of `wide` words, one for each side, and so many of them are filled.
fn parts<'a>(
    list: &'a [u32],
    wide: usize,
    counts: [usize; Sides::COUNT],
) -> [&'a [u32]; Sides::COUNT]
    requires { (wide * length all_sides ≤ length list.now) × ((k : ℕ) → get_or counts k 0 ≤ wide) }
    ensures { (length (map (λ x. x.now) result) ≡ length all_sides) × ((k : ℕ) → k < length all_sides → get_or (map (λ x. x.now) result) k [] ≡ take (get_or counts k 0) (drop (wide * k) list.now)) }
{
    let mut all = [&list[0..0]; Sides::COUNT];
    for k in 0..Sides::COUNT {
        let from = wide * k;
        all[k] = &list[from..from + counts[k]];
    }
    all
}

// The output for what the lines gave. A list of steps that was read does not break off, and 1,024 answers have room, so that
// the last two arms are never taken.
fn run_output(
    wrapper: u32,
    nodes: [&[u32]; Sides::COUNT],
    pools: [&[u32]; Sides::COUNT],
    steps: &[u32],
    page: &mut [u8; Page::BYTES],
) -> usize
    ensures { (i : Input) → Given i wrapper (map (λ x. x.now) nodes.entry) (map (λ x. x.now) pools.entry) steps.now → PageIs (output_for i) page.old page.new result }
{
    let mut answers = [0u32; AnswerWords::ALL];
    match run(wrapper, nodes, pools, steps, &mut answers) {
        Ok(n) => answered(page, &answers, n),
        Err(RunError::Refused(f)) => refused(page, f.cause.number(), f.side, f.node),
        Err(RunError::BrokenOff) => fault(page, 0),
        Err(RunError::TooShort) => fault(page, 0),
    }
}

// The output for an input, at the start of a page that has room for any, and how many bytes it has.
pub fn output_on(input: &[u8], page: &mut [u8; Page::BYTES]) -> usize
    ensures { PageIs (output input.now) page.old page.new result }
{
    let mut nodes = [0u32; Places::NODES];
    let mut pools = [0u32; Places::POOLS];
    let mut steps = [0u32; Places::STEPS];
    match read(input, &mut nodes, &mut pools, &mut steps) {
        Err(f) => fault(page, f.line),
        Ok(p) => {
            let ns = parts(&nodes, Places::SIDE_NODES, p.nodes);
            let ps = parts(&pools, Places::SIDE_POOL, p.pools);
            run_output(p.wrapper, ns, ps, &steps[..p.words], page)
        },
    }
}

// The output for an input, written to a lent buffer; nothing is written where that is too short. Gives how many bytes are written.
pub fn text(input: &[u8], out: &mut [u8]) -> Result<usize, TooShort>
    ensures { TextIs (output input.now) out.old out.new result }
{
    let mut page = [0u8; Page::BYTES];
    let n = output_on(input, &mut page);
    if out.len() < n {
        return Err(TooShort);
    }
    out[..n].copy_from_slice(&page[..n]);
    Ok(n)
}
