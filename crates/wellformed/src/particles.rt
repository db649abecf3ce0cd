// Outputs and waiting inputs, by their rows.
ghost use Rattle.std.specs.Prelude.{◌≡◌, ◌≢◌, true, ◌<◌, length, get_or};
ghost use Rattle.model.specs.Basics.{every};
ghost use Rattle.model.specs.Table.{count};
ghost use Rattle.model.specs.WellFormed.{wf_value, wf_particle};
ghost use Rattle.tables.specs.Nodes.{table};
ghost use Rattle.tables.specs.Checks.{Passes};
ghost use Rattle.scopes.specs.Names.{view_names};
ghost use Rattle.sides.specs.Layout.{row_at, view_row, view_rows, fits_rows};
ghost use Rattle.environments.specs.Inputs.{node_of, values_of, Waits};
ghost use Rattle.wellformed.specs.Clauses.{RowFits, output_held, input_defined, values_fit, input_waits};

use crate::held::{held, held_tag, held_value};
use environments::{defined_at, input_env};
use scopes::names::{Names, names_in_force};
use sides::{Row, Rows, tag_at, value_at, word_at};
use tables::nodes::{Kind, node_at};

// Whether the channel, tag and value of the output at row i are held.
fn output_ok(counts: &[usize], words: &[u32], i: usize) -> bool
    requires { RowFits words.now i × (get_or (row_at words.now i) 0 0 ≡ 1) }
    ensures { result ≡ output_held counts.now (row_at words.now i) }
{
    held(counts, word_at(words, i, Row::CHANNEL))
        && held_tag(counts, tag_at(words, i))
        && held_value(counts, value_at(words, i, 0))
}

// Whether the values of the waiting input at row i are held.
fn values_ok(counts: &[usize], words: &[u32], i: usize) -> bool
    requires { RowFits words.now i × (get_or (row_at words.now i) 0 0 ≢ 1) }
    ensures { result ≡ every (wf_value counts.now) (values_of (row_at words.now i)) }
{
    let n = word_at(words, i, Row::HELD) as usize;
    (0..n).all(|k| held_value(counts, value_at(words, i, k)))
}

// How many names there are.
fn count_of(s: Names) -> usize
    ensures { result ≡ length (view_names s) }
{
    Names::MOST.saturating_sub(s.top)
}

// Whether no name that the waiting input at row i binds to a tuple is used where 15 forbids it.
fn input_defined(nodes: &[u32], pool: &[u32], words: &[u32], i: usize) -> bool
    requires { Waits (table nodes.now pool.now) words.now i }
    ensures { result ≡ input_defined (table nodes.now pool.now) (row_at words.now i) }
{
    let mut e: [u32; Rows::WIDTH] = [0; Rows::WIDTH];
    let n = input_env(nodes, pool, words, i, &mut e);
    defined_at(nodes, pool, word_at(words, i, Row::NODE) as usize, &e, n)
}

// Whether it has one value for every bound name in force at its node, and no tuple where 15 forbids one.
fn values_fit(nodes: &[u32], pool: &[u32], words: &[u32], i: usize) -> bool
    requires { Passes (table nodes.now pool.now) × RowFits words.now i × (get_or (row_at words.now i) 0 0 ≢ 1) × (node_of (row_at words.now i) < count (table nodes.now pool.now)) }
    ensures { result ≡ values_fit (table nodes.now pool.now) (row_at words.now i) }
{
    let n = word_at(words, i, Row::HELD) as usize;
    let s = names_in_force(nodes, pool, word_at(words, i, Row::NODE) as usize);
    n == count_of(s) && input_defined(nodes, pool, words, i)
}

// Whether an input waits at its node, with held values that fit it.
fn input_ok(nodes: &[u32], pool: &[u32], counts: &[usize], words: &[u32], i: usize) -> bool
    requires { Passes (table nodes.now pool.now) × RowFits words.now i × (get_or (row_at words.now i) 0 0 ≢ 1) }
    ensures { result ≡ input_waits (table nodes.now pool.now) counts.now (row_at words.now i) }
{
    let node = word_at(words, i, Row::NODE) as usize;
    node < nodes.len() / 5
        && matches!(node_at(nodes, node).kind(), Kind::In | Kind::Rep)
        && values_ok(counts, words, i)
        && values_fit(nodes, pool, words, i)
}

// Whether the particle at row i stands in one of nb boxes, and is an output of held words or an input that waits at its node.
fn row_ok(nodes: &[u32], pool: &[u32], counts: &[usize], nb: usize, words: &[u32], i: usize) -> bool
    requires { Passes (table nodes.now pool.now) × RowFits words.now i }
    ensures { result ≡ wf_particle (table nodes.now pool.now) counts.now nb (view_row (row_at words.now i)) }
{
    (word_at(words, i, Row::BOX) as usize) < nb
        && if word_at(words, i, Row::OUTPUT) == 1 {
            output_ok(counts, words, i)
        } else {
            input_ok(nodes, pool, counts, words, i)
        }
}

// Whether each of the first n rows is so.
pub(crate) fn rows_ok(
    nodes: &[u32],
    pool: &[u32],
    counts: &[usize],
    nb: usize,
    words: &[u32],
    n: usize,
) -> bool
    requires { Passes (table nodes.now pool.now) × (length words.now ≡ 5184) × (fits_rows words.now n ≡ true) }
    ensures { result ≡ every (wf_particle (table nodes.now pool.now) counts.now nb) (view_rows words.now n) }
{
    (0..n).all(|k| row_ok(nodes, pool, counts, nb, words, k))
}
