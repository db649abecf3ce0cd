// The walk over the nodes.
ghost use Rattle.model.specs.Table.{term};
ghost use Rattle.tables.specs.Nodes.{table};
ghost use Rattle.unfolding.specs.Unfolded.{CanUnfold, UnfoldedIs};

use crate::Counts;
use crate::at_node::{add_box, mint_name, unfold_input, unfold_output};
use tables::nodes::{Kind, node_at};

// The term at node n unfolds in box b, under the first d names of e. The caller has seen that no output is too long (16) and that
// the limits are kept (17). The nodes above n are the falling measure.
pub fn unfold_at(
    nodes: &[u32],
    pool: &[u32],
    side: u32,
    n: usize,
    b: usize,
    e: &mut [u32],
    d: usize,
    rows: &mut [u32],
    c: Counts,
) -> Counts
    requires { CanUnfold (table nodes.now pool.now) side n b e.old d rows.old c }
    ensures { UnfoldedIs side (term (table nodes.now pool.now) n) b e.old d rows.old c e.new rows.new result }
{
    let x = node_at(nodes, n);
    match x.kind() {
        Kind::Nil => c,
        Kind::Par => {
            let q = unfold_at(nodes, pool, side, x.a, b, e, d, rows, c);
            unfold_at(nodes, pool, side, x.b, b, e, d, rows, q)
        }
        Kind::Box => {
            let q = add_box(nodes, n, b, e, d, rows, c);
            unfold_at(nodes, pool, side, x.b, c.boxes, e, d, rows, q)
        }
        Kind::New => {
            let q = mint_name(nodes, side, n, e, d, c);
            unfold_at(nodes, pool, side, x.b, b, e, d + 1, rows, q)
        }
        Kind::Out => unfold_output(nodes, pool, n, b, e, d, rows, c),
        Kind::In | Kind::Rep => unfold_input(n, b, e, d, rows, c),
    }
}
