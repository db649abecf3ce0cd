// The shelf of a side, behind its boxes: 32 places for values. How many are held is the caller's number.
ghost use Rattle.std.specs.Prelude.{◌≡◌, true, [], ◌<◌, ◌≤◌, length, get_or};
ghost use Rattle.values.specs.Env.{view_value};
ghost use Rattle.sides.specs.Layout.{shelf_of, view_place, fits_place, fits_shelf, ValueIs};
ghost use Rattle.sides.specs.Stored.{shelf_put};

use crate::places::{put_value, value_in};
use crate::{Rows, Side};
use values::Value;

// The value in place i.
pub fn shelf_value(rows: &[u32], i: usize) -> Value
    requires { (length rows.now ≡ 5184) × (i < 32) × (fits_place (get_or (shelf_of rows.now) i []) ≡ true) }
    ensures { ValueIs (view_place (get_or (shelf_of rows.now) i [])) result }
{
    let a = Rows::SHELF + Rows::PLACE * i;
    let e = a + Rows::PLACE;
    value_in(&rows[a..e])
}

// A value into place i.
pub fn put_shelf(rows: &mut [u32], i: usize, v: Value)
    requires { (length rows.old ≡ 5184) × (i < 32) × (v.len ≤ 16) }
    ensures { rows.new ≡ shelf_put rows.old i (view_value v) }
{
    let a = Rows::SHELF + Rows::PLACE * i;
    let e = a + Rows::PLACE;
    put_value(&mut rows[a..e], v);
}

// The array test: at most 32 values are held, and each one's length is within its place.
pub fn shelf_fits(rows: &[u32], n: usize) -> bool
    requires { length rows.now ≡ 5184 }
    ensures { result ≡ fits_shelf rows.now n }
{
    Side::shelf_within(n)
        && (0..n).all(|k| Value::length_within(rows[Rows::SHELF + Rows::PLACE * k] as usize))
}
