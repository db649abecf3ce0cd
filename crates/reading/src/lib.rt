// Reads what the bench program is given: lines of tab-parted fields, put into lent lists.
#![tactic(auto)]

mod fields;
mod lines;

ghost use Rattle.std.specs.Prelude.{◌≡◌};
ghost use Rattle.format.specs.Lines.{no_input};
ghost use Rattle.reading.specs.Lists.{lists, places_of, ReadIs};

use fields::line_at;
use lines::on_line;
use sides::Sides;

// How far the lent lists are filled: the words of each side's part of them, from side 1 on. `steps` counts steps, `words` the
// words of the list of steps.
// Stays counts apart from the words that they count: fixed memory, no heap; and callers lend the words alone.
#[derive(Clone, Copy)]
pub struct Places {
    // Stays a number: by the contract of `read` (places_of) it is the rank of the definitions' Input, which is one.
    pub rank: usize,
    pub wrapper: u32,
    pub nodes: [usize; Sides::COUNT],
    pub pools: [usize; Sides::COUNT],
    pub steps: usize,
    pub words: usize,
}

// The number of the first line at fault, from 1 on, or 0 where the input is too long; and how far the lent lists are filled with
// the lines before it.
#[derive(Clone, Copy)]
pub struct Fault {
    pub line: usize,
    pub places: Places,
}

impl Places {
    // The words of a side's part of the list of nodes: 257 nodes of five.
    pub const SIDE_NODES: usize = 1285;

    // The words of a side's part of the list of pools.
    pub const SIDE_POOL: usize = 1025;

    // The words of each list: the nodes of all sides, their pools, and 1,024 steps of at most 22.
    pub const NODES: usize = Places::SIDE_NODES * Sides::COUNT;

    pub const POOLS: usize = Places::SIDE_POOL * Sides::COUNT;

    pub const STEPS: usize = 22528;

    // Nothing is read yet.
    fn none() -> Places
        ensures { result ≡ places_of no_input }
    {
        Places {
            rank: 0,
            wrapper: 0,
            nodes: [0; Sides::COUNT],
            pools: [0; Sides::COUNT],
            steps: 0,
            words: 0,
        }
    }
}

// Reads a whole input into the lent lists, and says how far they are filled, or which line is at fault. Side n's part of the nodes
// begins at 1285 (n - 1), of the pools at 1025 (n - 1).
pub fn read(
    input: &[u8],
    nodes: &mut [u32; Places::NODES],
    pools: &mut [u32; Places::POOLS],
    steps: &mut [u32; Places::STEPS],
) -> Result<Places, Fault>
    ensures { ReadIs input.now result (lists nodes.old pools.old steps.old) (lists nodes.new pools.new steps.new) }
{
    let mut places = Places::none();
    if 65536 < input.len() {
        return Err(Fault { line: 0, places });
    }
    let mut line: usize = 1;
    let mut at: usize = 0;
    // Stays a loop by places: `line_at` finds a line's end as it reads it; a split would look for it once more.
    while at < input.len() {
        let fault = Fault { line, places };
        let l = line_at(input, at).ok_or(fault)?;
        places = on_line(&l, places, nodes, pools, steps).ok_or(fault)?;
        line += 1;
        at = l.end + 1;
    }
    if places.rank == 0 {
        return Err(Fault { line, places });
    }
    Ok(places)
}
