// A side at its start.
ghost use Rattle.std.specs.Prelude.{◌≡◌, length};
ghost use Rattle.tables.specs.Nodes.{table};
ghost use Rattle.loading.specs.Starting.{Startable, StartIs};

use sides::{Rest, Rows, put_box};
use unfolding::{Counts, unfold_at};

// A side at its start, in the words that are lent and the rest that is answered: node 0 unfolds in box 0.
pub fn start_of(nodes: &[u32], pool: &[u32], side: u32, rows: &mut [u32]) -> Rest
    requires { (Startable side (table nodes.now pool.now)) × (length rows.old ≡ 5184) }
    ensures { StartIs side (table nodes.now pool.now) rows.new result }
{
    let mut e = [0; Rows::WIDTH];
    put_box(rows, 0, 0, 0);
    let c = Counts {
        particles: 0,
        boxes: 1,
        minted: 0,
    };
    let u = unfold_at(nodes, pool, side, 0, 0, &mut e, 0, rows, c);
    u.put_into(Rest::empty())
}
