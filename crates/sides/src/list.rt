// The rows of a side in 4,608 lent words: row i read, written, added, removed. How many rows are held is the caller's number.
ghost use Rattle.std.specs.Prelude.{◌≡◌, true, [], ◌+◌, ◌-◌, ◌*◌, ◌^◌, ◌<◌, ◌≤◌, length, take, get_or};
ghost use Rattle.model.specs.Basics.{every};
ghost use Rattle.model.specs.Values.{substitute};
ghost use Rattle.sides.specs.Views.{view_tag};
ghost use Rattle.sides.specs.Layout.{row_at, places_of, tag_in, view_place, fits_place, fits_row, fits_rows, ValueIs};
ghost use Rattle.sides.specs.Stored.{output_put, sent_put, moved_to, input_put, values_put, row_gone};
ghost use Rattle.sides.specs.Environments.{env_of};

use crate::environment::put_substituted;
use crate::inputs::{copy_values, write_input};
use crate::outputs::put_head;
use crate::places::{put_value, value_in};
use crate::tags::{tag_kind, tag_name, tag_of};
use crate::{Output, Row, Rows, Side, Tag};
use values::Value;

// The words of row i.
fn row(rows: &[u32], i: usize) -> &[u32]
    requires { (length rows.now ≡ 5184) × (i < 32) }
    ensures { (result.now ≡ row_at rows.now i) × (length result.now ≡ 144) }
{
    let a = Rows::WIDTH * i;
    let z = a + Rows::WIDTH;
    &rows[a..z]
}

// Word k of row i.
pub fn word_at(rows: &[u32], i: usize, k: usize) -> u32
    requires { (length rows.now ≡ 5184) × (i < 32) × (k < 144) }
    ensures { result ≡ get_or (row_at rows.now i) k 0 }
{
    rows[Rows::WIDTH * i + k]
}

// The tag of the output at row i.
pub fn tag_at(rows: &[u32], i: usize) -> Tag
    requires { (length rows.now ≡ 5184) × (i < 32) }
    ensures { view_tag result ≡ tag_in (row_at rows.now i) }
{
    tag_of(word_at(rows, i, Row::TAG), word_at(rows, i, Row::CHILD))
}

// Value k of the waiting input at row i.
pub fn value_at(rows: &[u32], i: usize, k: usize) -> Value
    requires { (length rows.now ≡ 5184) × (i < 32) × (k < 8) × (fits_place (get_or (places_of (row_at rows.now i)) k []) ≡ true) }
    ensures { ValueIs (view_place (get_or (places_of (row_at rows.now i)) k [])) result }
{
    let a = Rows::WIDTH * i + Rows::HEAD + Rows::PLACE * k;
    let e = a + Rows::PLACE;
    value_in(&rows[a..e])
}

// An output at row i, its value a table's with its bound names replaced. The caller has seen that it has at most 16 words then.
pub fn put_sent(
    rows: &mut [u32],
    i: usize,
    at: usize,
    channel: u32,
    tag: Tag,
    e: &[u32],
    n: usize,
    s: &[u32],
)
    requires { (length rows.old ≡ 5184) × (i < 32) × (at < 2 ^ 32) × (length e.now ≡ 144) × (n ≤ 8) × (every fits_place (take n (places_of e.now)) ≡ true) × (length (substitute (env_of e.now n) s.now) ≤ 16) }
    ensures { rows.new ≡ sent_put rows.old (144 * i) at channel tag (substitute (env_of e.now n) s.now) }
{
    let a = Rows::WIDTH * i;
    let b = a + Rows::HEAD;
    let z = b + Rows::PLACE;
    put_head(&mut rows[a..b], at, channel, tag);
    put_substituted(&mut rows[b..z], e, n, s);
}

// The output at row i, in another box and with another tag.
pub fn move_output(rows: &mut [u32], i: usize, at: usize, tag: Tag)
    requires { (length rows.old ≡ 5184) × (i < 32) × (at < 2 ^ 32) }
    ensures { rows.new ≡ moved_to rows.old (144 * i) at tag }
{
    let a = Rows::WIDTH * i;
    rows[a + Row::BOX] = at as u32;
    rows[a + Row::TAG] = tag_kind(tag);
    rows[a + Row::CHILD] = tag_name(tag);
}

// An output behind the n rows that are held, and how many are held then.
pub fn add_output(rows: &mut [u32], n: usize, o: Output) -> usize
    requires { (length rows.old ≡ 5184) × (n < 32) × (o.at < 2 ^ 32) × (o.value.len ≤ 16) }
    ensures { (result ≡ n + 1) × (rows.new ≡ output_put rows.old (144 * n) o) }
{
    let a = Rows::WIDTH * n;
    let b = a + Rows::HEAD;
    let z = b + Rows::PLACE;
    put_head(&mut rows[a..b], o.at, o.channel, o.tag);
    put_value(&mut rows[b..z], o.value);
    n + 1
}

// Row i of n goes, those above it move down a row. How many are held then.
pub fn remove_row(rows: &mut [u32], i: usize, n: usize) -> usize
    requires { (length rows.old ≡ 5184) × (i < n) × (n ≤ 32) }
    ensures { (result ≡ n - 1) × (rows.new ≡ row_gone rows.old i n) }
{
    let a = Rows::WIDTH * i;
    let b = a + Rows::WIDTH;
    let z = Rows::WIDTH * n;
    rows.copy_within(b..z, a);
    n - 1
}

// A waiting input at row i, with the first n values of the environment e.
pub fn put_input(rows: &mut [u32], i: usize, at: usize, node: usize, e: &[u32], n: usize)
    requires { (length rows.old ≡ 5184) × (i < 32) × (at < 2 ^ 32) × (node < 2 ^ 32) × (length e.now ≡ 144) × (n ≤ 8) }
    ensures { rows.new ≡ input_put rows.old (144 * i) at node e.now n }
{
    let a = Rows::WIDTH * i;
    let z = a + Rows::WIDTH;
    write_input(&mut rows[a..z], at, node, e, n);
}

// The first n values of row i into the environment e.
pub fn take_values(e: &mut [u32], rows: &[u32], i: usize, n: usize)
    requires { (length e.old ≡ 144) × (length rows.now ≡ 5184) × (i < 32) × (n ≤ 8) }
    ensures { e.new ≡ values_put e.old 0 (row_at rows.now i) n }
{
    copy_values(e, row(rows, i), n);
}

// Whether a row's counts are within their places.
fn row_fits(r: &[u32]) -> bool
    requires { length r.now ≡ 144 }
    ensures { result ≡ fits_row r.now }
{
    if r[Row::OUTPUT] == 1 {
        return Value::length_within(r[Rows::HEAD] as usize);
    }
    let n = r[Row::HELD] as usize;
    n <= Rows::VALUES
        && (0..n).all(|k| Value::length_within(r[Rows::HEAD + Rows::PLACE * k] as usize))
}

// The array test: at most 32 rows are held, and each one's counts are within their places.
pub fn rows_fit(rows: &[u32], n: usize) -> bool
    requires { length rows.now ≡ 5184 }
    ensures { result ≡ fits_rows rows.now n }
{
    Side::particles_within(n) && (0..n).all(|k| row_fits(row(rows, k)))
}
