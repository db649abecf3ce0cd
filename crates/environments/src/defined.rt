// Refusal 15: whether a name bound to a tuple is free as a channel, tag or box name, however deep.
ghost use Rattle.std.specs.Prelude.{◌≡◌, false, [], ℕ, ◌<◌, length, get_or};
ghost use Rattle.model.specs.Table.{count, term};
ghost use Rattle.model.specs.Unfolding.{defined};
ghost use Rattle.values.specs.Env.{tuple_of};
ghost use Rattle.tables.specs.Nodes.{table};
ghost use Rattle.tables.specs.Checks.{Passes};
ghost use Rattle.sides.specs.Layout.{places_of, view_place};
ghost use Rattle.sides.specs.Environments.{env_of};
ghost use Rattle.environments.specs.Fits.{Fits};
ghost use Rattle.environments.specs.Named.{OfNames};

use crate::named::by_names;
use scopes::free_uses::clear;
use sides::Rows;
use tables::name_set::NameSet;

// Whether the value in place k is a tuple.
fn tuple_in(e: &[u32], k: usize) -> bool
    requires { (length e.now ≡ 144) × (k < 8) }
    ensures { result ≡ tuple_of (view_place (get_or (places_of e.now) k [])) }
{
    let a = Rows::HEAD + Rows::PLACE * k;
    e[a] != 0 && 4000000 <= e[a + 1]
}

// The names that an environment binds to a tuple.
fn tuple_names(e: &[u32], n: usize) -> NameSet
    requires { Fits e.now n }
    ensures { OfNames result.on false tuple_of (env_of e.now n) }
{
    NameSet {
        on: by_names(e, n, false, |k| tuple_in(e, k)),
    }
}

// Whether no name that the environment binds to a tuple is free as a channel, tag or box name in the term at a node.
pub fn defined_at(nodes: &[u32], pool: &[u32], node: usize, e: &[u32], n: usize) -> bool
    requires { Passes (table nodes.now pool.now) × (node < count (table nodes.now pool.now)) × Fits e.now n }
    ensures { result ≡ defined (term (table nodes.now pool.now) node) (env_of e.now n) }
{
    clear(nodes, pool, node, tuple_names(e, n))
}
