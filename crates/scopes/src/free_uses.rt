// Refusal 15: whether a name of a set is free as a channel, tag or box name, however deep.
ghost use Rattle.std.specs.Prelude.{◌≡◌};
ghost use Rattle.model.specs.Basics.{◌&◌};
ghost use Rattle.model.specs.Values.{binders};
ghost use Rattle.tables.specs.Nodes.{table};
ghost use Rattle.tables.specs.Scope.{Walks};
ghost use Rattle.scopes.specs.FreeUses.{name_clear, tag_clear, hide, clear_at};

use tables::name_set::NameSet;
use tables::nodes::{Kind, node_at};
use tables::pool::words_at;
use values::Leaf;

// Whether channel and tag name nothing in the set.
fn outside(ts: NameSet, channel: usize, tag: usize) -> bool
    ensures { result ≡ name_clear ts.on channel & tag_clear ts.on tag }
{
    !ts.has(channel) && (tag < 2 || !ts.has(tag - 2))
}

// The set without the names of a pattern, which hides them.
fn hide_names(mut ts: NameSet, s: &[u32]) -> NameSet
    ensures { result.on ≡ hide ts.on (binders s.now) }
{
    for &w in s {
        let x = w as usize;
        if x < NameSet::NAMES {
            ts.on[x] = false;
        }
    }
    ts
}

// Whether no name in the set is free as a channel, tag or box name in the term at node n. The nodes above n are the falling
// measure.
pub fn clear(nodes: &[u32], pool: &[u32], n: usize, ts: NameSet) -> bool
    requires { Walks (table nodes.now pool.now) n }
    ensures { result ≡ clear_at (table nodes.now pool.now) n ts.on }
{
    let x = node_at(nodes, n);
    match x.kind() {
        // Stays an arm: nothing uses no name, and the other arms ask more.
        Kind::Nil => true,
        Kind::Par => clear(nodes, pool, x.a, ts) && clear(nodes, pool, x.b, ts),
        Kind::Box => !ts.has(x.a) && clear(nodes, pool, x.b, ts),
        Kind::New => clear(nodes, pool, x.b, ts.put(x.a, false)),
        Kind::Out => outside(ts, x.a, x.b),
        Kind::In | Kind::Rep => {
            outside(ts, x.a, x.b)
                && clear(
                    nodes,
                    pool,
                    x.d,
                    hide_names(ts, words_at(Leaf::Pattern, pool, x.c)),
                )
        }
    }
}
