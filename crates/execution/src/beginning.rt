// The sides at their start: those that the wrapper has hold what node 0 unfolds to, the others nothing.
ghost use Rattle.std.specs.Prelude.{◌≡◌, true, [], map, ℕ, ◌<◌, length, get_or};
ghost use Rattle.model.specs.Wrapper.{all_sides, described, has_side};
ghost use Rattle.model.specs.Load.{is_ok, load};
ghost use Rattle.tables.specs.Nodes.{table};
ghost use Rattle.wrappers.specs.Compositions.{composition};
ghost use Rattle.loading.specs.Starting.{Startable};
ghost use Rattle.execution.specs.Beginning.{BeginIs, BegunIs};

use loading::{number_of, start_of};
use sides::{Rest, Rows, Sides};
use wrappers::has_side;

// How the sides stand between two steps: the rest of each, and how many values it has on its shelf.
#[derive(Clone, Copy)]
pub struct Standing {
    pub rests: [Rest; Sides::COUNT],
    pub shelved: [usize; Sides::COUNT],
}

// Side n at its start, in the words that are lent and the rest that is answered.
fn begin(wrapper: u32, n: u32, nodes: &[u32], pool: &[u32], rows: &mut [u32]) -> Rest
    requires { (has_side (described wrapper) n ≡ true → Startable n (table nodes.now pool.now)) × (length rows.old ≡ 5184) }
    ensures { BeginIs (described wrapper) n (table nodes.now pool.now) rows.new result }
{
    if has_side(wrapper, n) {
        return start_of(nodes, pool, n, rows);
    }
    Rest::empty()
}

// All sides at their start, where load takes the tables.
pub fn begin_all(
    wrapper: u32,
    nodes: [&[u32]; Sides::COUNT],
    pools: [&[u32]; Sides::COUNT],
    rows: &mut [[u32; Rows::WORDS]; Sides::COUNT],
) -> Standing
    requires { (is_ok (load (composition wrapper (map (λ x. x.now) nodes) (map (λ x. x.now) pools))) ≡ true) × (length rows.old ≡ length all_sides) × ((k : ℕ) → k < length all_sides → length (get_or rows.old k []) ≡ 5184) }
    ensures { BegunIs (composition wrapper (map (λ x. x.now) nodes.entry) (map (λ x. x.now) pools.entry)) rows.new result }
{
    let e = Rest::empty();
    let mut rests = [e; Sides::COUNT];
    let mut shelved = [0; Sides::COUNT];
    for k in 0..Sides::COUNT {
        let r = begin(wrapper, number_of(k), nodes[k], pools[k], &mut rows[k]);
        shelved[k] = r.shelved;
        rests[k] = r;
    }
    Standing { rests, shelved }
}
