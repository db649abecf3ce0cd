// The environment of a waiting input: the names in force at its node, with its values.
ghost use Rattle.std.specs.Prelude.{◌≡◌, length};
ghost use Rattle.std.proofs.lemmas.List.Edits.{sets};
ghost use Rattle.tables.specs.Nodes.{table};
ghost use Rattle.scopes.specs.Names.{view_names};
ghost use Rattle.environments.specs.Inputs.{Waits, InputEnvIs};

use scopes::names::{Names, names_in_force};
use sides::{Row, take_values, word_at};

// Names from the first word of an environment on, outermost first, and how many there are.
fn put_names(e: &mut [u32], w: Names) -> usize
    requires { length e.old ≡ 144 }
    ensures { (result ≡ length (view_names w)) × (e.new ≡ sets e.old 0 (view_names w)) }
{
    let names = &w.rows[w.top.min(Names::MOST)..];
    e[..names.len()].copy_from_slice(names);
    names.len()
}

// The environment of the waiting input at row j, and how many names are in force in it.
pub fn input_env(nodes: &[u32], pool: &[u32], rows: &[u32], j: usize, e: &mut [u32]) -> usize
    requires { Waits (table nodes.now pool.now) rows.now j × (length e.old ≡ 144) }
    ensures { InputEnvIs (table nodes.now pool.now) rows.now j e.old e.new result }
{
    let node = word_at(rows, j, Row::NODE) as usize;
    let n = put_names(e, names_in_force(nodes, pool, node));
    take_values(e, rows, j, n);
    n
}
