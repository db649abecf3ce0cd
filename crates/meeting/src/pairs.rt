// Whether an output and an input meet: 13 to 16.
ghost use Rattle.std.specs.Prelude.{◌≡◌, true, List, ℕ, ◌<◌, ◌≤◌, length};
ghost use Rattle.model.specs.Table.{count, term};
ghost use Rattle.values.specs.Env.{view_value};
ghost use Rattle.tables.specs.Nodes.{table};
ghost use Rattle.tables.specs.Checks.{Passes};
ghost use Rattle.sides.specs.Environments.{env_of};
ghost use Rattle.environments.specs.Fits.{Fits};
ghost use Rattle.environments.specs.Matching.{pattern_at, Matchable};
ghost use Rattle.steps.specs.Asked.{OfferIf};
ghost use Rattle.meeting.specs.Meeting.{node_at, fits_at, Joinable, MatchAnswer, BodyAnswer, Joining};

use environments::{defined_at, input_env, match_value, too_long};
use sides::{Row, tag_at, tag_in, tags_fit, value_at, word_at, word_in};
use steps::Offer;
use tables::nodes::{field_at, node_at};
use values::Value;

// 13: whether the output i and the input j, with the first d names of e, are in one box, on one channel, with fitting tags. The
// position is the input's node.
fn fit_offer(nodes: &[u32], rows: &[u32], i: usize, j: usize, e: &[u32], d: usize) -> Offer
    requires { (length rows.now ≡ 5184) × (i < 32) × (j < 32) × (length e.now ≡ 144) × (d ≤ 8) }
    ensures { (pool : List ℕ) → OfferIf (fits_at (table nodes.now pool) rows.now i j (env_of e.now d) ≡ true) (node_at rows.now j) 13 result }
{
    let n = word_at(rows, j, Row::NODE) as usize;
    if word_at(rows, i, Row::BOX) != word_at(rows, j, Row::BOX)
        || word_at(rows, i, Row::CHANNEL) != word_in(e, d, field_at(nodes, n, 1))
        || !tags_fit(tag_at(rows, i), tag_in(e, d, field_at(nodes, n, 2)))
    {
        return Offer::Refused(13);
    }
    Offer::At(n)
}

// 14: whether the pattern at a place of the pool takes v. Its names are bound behind the first d names of e; the answer is how
// many names are in force then.
fn match_offer(pool: &[u32], place: usize, e: &mut [u32], d: usize, v: Value) -> Offer
    requires { Matchable e.old d (pattern_at pool.now place) v × Fits e.old d }
    ensures { MatchAnswer (pattern_at pool.now place) (view_value v) (env_of e.old d) e.new result }
{
    match match_value(pool, place, e, d, v) {
        Some(n) => Offer::At(n),
        None => Offer::Refused(14),
    }
}

// 15 and 16 of the body at node n, under the first d names of e. The answer is d.
fn body_offer(nodes: &[u32], pool: &[u32], n: usize, e: &[u32], d: usize) -> Offer
    requires { Passes (table nodes.now pool.now) × (n < count (table nodes.now pool.now)) × Fits e.now d }
    ensures { BodyAnswer d (term (table nodes.now pool.now) n) (env_of e.now d) result }
{
    if !defined_at(nodes, pool, n, e, d) {
        return Offer::Refused(15);
    }
    if too_long(nodes, pool, n, e, d) {
        return Offer::Refused(16);
    }
    Offer::At(d)
}

// 13 to 16 of the output i and the input j. The environment of the input's body is made in e; the answer is how many names are in
// force there.
pub(crate) fn join_offer(
    nodes: &[u32],
    pool: &[u32],
    rows: &[u32],
    i: usize,
    j: usize,
    e: &mut [u32],
) -> Offer
    requires { Joinable (table nodes.now pool.now) rows.now i j × (length e.old ≡ 144) }
    ensures { Joining (table nodes.now pool.now) rows.now i j e.new result }
{
    let d = input_env(nodes, pool, rows, j, e);
    let a = fit_offer(nodes, rows, i, j, e, d);
    let Offer::At(n) = a else {
        return a;
    };
    let x = node_at(nodes, n);
    let b = match_offer(pool, x.c, e, d, value_at(rows, i, 0));
    let Offer::At(k) = b else {
        return b;
    };
    body_offer(nodes, pool, x.d, e, k)
}
