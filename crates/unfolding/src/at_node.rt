// What one node adds: a box, a name, an output, a waiting input. Each function answers the counts with it.
ghost use Rattle.std.specs.Prelude.{◌≡◌, List, [], ◌∷◌, ℕ, ◌+◌, ◌*◌, ◌<◌, ◌≤◌, length};
ghost use Rattle.model.specs.Table.{field};
ghost use Rattle.model.specs.Values.{word, substitute};
ghost use Rattle.model.specs.Side.{input};
ghost use Rattle.tables.specs.Nodes.{table};
ghost use Rattle.sides.specs.Stored.{box_put};
ghost use Rattle.sides.specs.Environments.{env_of, bound};
ghost use Rattle.unfolding.specs.Unfolded.{one_box, one_name, value_at, output_at, RowFree, ParticleAdded};

use crate::Counts;
use sides::{bind_name, put_box, put_input, put_sent, tag_in, word_in};
use tables::nodes::{field_at, node_at};
use tables::pool::words_at;
use values::Leaf;

// The box at node n, in box b; its child is not unfolded yet.
pub(crate) fn add_box(
    nodes: &[u32],
    n: usize,
    b: usize,
    e: &[u32],
    d: usize,
    rows: &mut [u32],
    c: Counts,
) -> Counts
    requires { (length rows.old ≡ 5184) × (c.boxes < 16) × (b ≤ 16) × (length e.now ≡ 144) × (d ≤ 8) }
    ensures { (result ≡ one_box c) × ((pool : List ℕ) → rows.new ≡ box_put rows.old c.boxes (word (env_of e.now d) (field (table nodes.now pool) n 1)) b) }
{
    put_box(rows, c.boxes, word_in(e, d, field_at(nodes, n, 1)), b);
    Counts {
        boxes: c.boxes + 1,
        ..c
    }
}

// The name that node n binds: its value is the name that the side mints next.
pub(crate) fn mint_name(
    nodes: &[u32],
    side: u32,
    n: usize,
    e: &mut [u32],
    d: usize,
    c: Counts,
) -> Counts
    requires { (side < 65536) × (c.minted < 256) × (length e.old ≡ 144) × (d < 8) }
    ensures { (result ≡ one_name c) × ((pool : List ℕ) → e.new ≡ bound e.old d (field (table nodes.now pool) n 1) ((65536 * side + c.minted) ∷ [])) }
{
    bind_name(e, d, field_at(nodes, n, 1), 65536 * side + c.minted as u32);
    Counts {
        minted: c.minted + 1,
        ..c
    }
}

// The output at node n, in box b.
pub(crate) fn unfold_output(
    nodes: &[u32],
    pool: &[u32],
    n: usize,
    b: usize,
    e: &[u32],
    d: usize,
    rows: &mut [u32],
    c: Counts,
) -> Counts
    requires { RowFree b e.now d rows.old c × (length (substitute (env_of e.now d) (value_at (table nodes.now pool.now) n)) ≤ 16) }
    ensures { ParticleAdded (output_at (table nodes.now pool.now) n (env_of e.now d) b) rows.old c rows.new result }
{
    let x = node_at(nodes, n);
    let channel = word_in(e, d, field_at(nodes, n, 1));
    let tag = tag_in(e, d, field_at(nodes, n, 2));
    put_sent(
        rows,
        c.particles,
        b,
        channel,
        tag,
        e,
        d,
        words_at(Leaf::Public, pool, x.c),
    );
    Counts {
        particles: c.particles + 1,
        ..c
    }
}

// The input at node n, waiting in box b.
pub(crate) fn unfold_input(
    n: usize,
    b: usize,
    e: &[u32],
    d: usize,
    rows: &mut [u32],
    c: Counts,
) -> Counts
    requires { RowFree b e.now d rows.old c × (n < 256) }
    ensures { ParticleAdded (input b n (env_of e.now d).vals) rows.old c rows.new result }
{
    put_input(rows, c.particles, b, n, e, d);
    Counts {
        particles: c.particles + 1,
        ..c
    }
}
