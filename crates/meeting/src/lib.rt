// Meet, over a side's lent words: an output and an input in one box, on one channel, with fitting tags. The input's body unfolds
// with the bindings. A refusal leaves the very words.
#![tactic(auto)]

ghost use Rattle.std.specs.Prelude.{◌≡◌, ◌≤◌, length};
ghost use Rattle.model.specs.Load.{Setting};
ghost use Rattle.model.specs.Side.{Core};
ghost use Rattle.model.specs.Step.{meet, settled};
ghost use Rattle.tables.specs.Nodes.{table};
ghost use Rattle.sides.specs.Layout.{view_rows};
ghost use Rattle.sides.specs.Sides.{core_of};
ghost use Rattle.steps.specs.Asked.{OfferIs};
ghost use Rattle.steps.specs.StepIs.{StepIs};
ghost use Rattle.meeting.specs.Meeting.{with_table, PairAt, Meetable, MeetablePair};

use bodies::{remove_pair, room_offer, rows_left};
use pairs::join_offer;
use sides::{Rest, Row, Rows, word_at};
use steps::{Offer, RestStep, Said};
use tables::nodes::{Kind, node_at};
use unfolding::{Counts, unfold_at};

mod bodies; // the rows that go, the limits, the counts after
mod pairs; // whether an output and an input meet

// Whether row i of n is an output and row j an input. The position is j.
fn pair_offer(rows: &[u32], n: usize, i: usize, j: usize) -> Offer
    requires { (length rows.now ≡ 5184) × (n ≤ 32) }
    ensures { (c : Setting) (s : Core) → s.contents.particles ≡ view_rows rows.now n → OfferIs (settled (meet c s i j)) j (PairAt rows.now n i) result }
{
    if n <= i || n <= j {
        return Offer::Refused(10);
    }
    if word_at(rows, i, Row::OUTPUT) != 1 || word_at(rows, j, Row::OUTPUT) == 1 {
        return Offer::Refused(13);
    }
    Offer::At(j)
}

// The output i and the input j. The limits are tested before a row goes.
fn meet_pair(
    nodes: &[u32],
    pool: &[u32],
    side: u32,
    rows: &mut [u32],
    o: Rest,
    i: usize,
    j: usize,
) -> RestStep
    requires { MeetablePair (table nodes.now pool.now) side rows.old o i j }
    ensures { StepIs (settled (meet (with_table side (table nodes.now pool.now)) (core_of rows.old o) i j)) rows.old o rows.new result }
{
    let mut e = [0; Rows::WIDTH];
    let a = join_offer(nodes, pool, rows, i, j, &mut e);
    let Offer::At(d) = a else {
        return RestStep::refused(a, o);
    };
    let x = node_at(nodes, word_at(rows, j, Row::NODE) as usize);
    let replicated = x.kind() == Kind::Rep;
    let left = rows_left(o.particles, replicated);
    let f = room_offer(nodes, pool, x.d, left, o.boxes, o.minted);
    let Offer::At(n) = f else {
        return RestStep::refused(f, o);
    };
    let b = word_at(rows, i, Row::BOX) as usize;
    remove_pair(rows, o.particles, replicated, i, j);
    let c = Counts {
        particles: left,
        boxes: o.boxes,
        minted: o.minted,
    };
    let u = unfold_at(nodes, pool, side, n, b, &mut e, d, rows, c);
    RestStep::plain(Said::Silent, u.put_into(o))
}

// Meet: output i and input j.
pub fn meet(
    nodes: &[u32],
    pool: &[u32],
    side: u32,
    rows: &mut [u32],
    o: Rest,
    i: usize,
    j: usize,
) -> RestStep
    requires { Meetable (table nodes.now pool.now) side rows.old o }
    ensures { StepIs (settled (meet (with_table side (table nodes.now pool.now)) (core_of rows.old o) i j)) rows.old o rows.new result }
{
    let a = pair_offer(rows, o.particles, i, j);
    let Offer::At(k) = a else {
        return RestStep::refused(a, o);
    };
    meet_pair(nodes, pool, side, rows, o, i, k)
}
