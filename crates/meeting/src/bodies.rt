// The rows that go, the limits, and the counts after.
ghost use Rattle.std.specs.Prelude.{◌≡◌, true, cond, ◌-◌, ◌<◌, ◌≤◌};
ghost use Rattle.model.specs.Table.{count, term};
ghost use Rattle.tables.specs.Nodes.{table};
ghost use Rattle.tables.specs.Checks.{Passes};
ghost use Rattle.steps.specs.Asked.{OfferIf};
ghost use Rattle.meeting.specs.Meeting.{Apart, RowsLeft, room_for};

use scopes::unfolded::unfolded_at;
use sides::{Side, remove_row};
use steps::Offer;

// How many of n rows are left when an output and, unless it is replicated, an input go.
pub(crate) fn rows_left(n: usize, replicated: bool) -> usize
    requires { 2 ≤ n }
    ensures { result ≡ n - cond replicated 1 2 }
{
    if replicated { n - 1 } else { n - 2 }
}

// 17: whether the limits are kept where the body at node n unfolds beside so many particles, boxes and minted names. The position is n.
pub(crate) fn room_offer(
    nodes: &[u32],
    pool: &[u32],
    n: usize,
    particles: usize,
    boxes: usize,
    minted: usize,
) -> Offer
    requires { Passes (table nodes.now pool.now) × (n < count (table nodes.now pool.now)) × (particles ≤ 32) × (boxes ≤ 16) × (minted ≤ 256) }
    ensures { OfferIf (room_for (term (table nodes.now pool.now) n) particles boxes minted ≡ true) n 17 result }
{
    let u = unfolded_at(nodes, pool, n);
    if !Side::contents_within(particles + u.particles, boxes + u.boxes, minted + u.names) {
        return Offer::Refused(17);
    }
    Offer::At(n)
}

// The output i of n rows goes, and the input j unless it is replicated: the higher row first, as the rows behind one that goes move up.
pub(crate) fn remove_pair(rows: &mut [u32], n: usize, replicated: bool, i: usize, j: usize)
    requires { Apart rows.old n i j }
    ensures { RowsLeft replicated rows.old n i j rows.new }
{
    if replicated {
        remove_row(rows, i, n);
    } else {
        let k = remove_row(rows, i.max(j), n);
        remove_row(rows, i.min(j), k);
    }
}
