// A waiting input in the 144 words of its row.
ghost use Rattle.std.specs.Prelude.{◌≡◌, ◌^◌, ◌<◌, ◌≤◌, length};
ghost use Rattle.sides.specs.Stored.{values_put, input_put};

use crate::{Row, Rows};

// The first n values of s into the same places of d: rows, or environments, whose values stand as a row's do.
pub(crate) fn copy_values(d: &mut [u32], s: &[u32], n: usize)
    requires { (length d.old ≡ 144) × (length s.now ≡ 144) × (n ≤ 8) }
    ensures { d.new ≡ values_put d.old 0 s.now n }
{
    // Stays a loop: `copy_from_slice` calls memmove here, which the static library would ask of its user beside memcpy and memset.
    for k in 0..Rows::PLACE * n {
        d[Rows::HEAD + k] = s[Rows::HEAD + k];
    }
}

// A waiting input into a row, with the first n values of e.
pub(crate) fn write_input(r: &mut [u32], at: usize, node: usize, e: &[u32], n: usize)
    requires { (length r.old ≡ 144) × (at < 2 ^ 32) × (node < 2 ^ 32) × (length e.now ≡ 144) × (n ≤ 8) }
    ensures { r.new ≡ input_put r.old 0 at node e.now n }
{
    r[Row::OUTPUT] = 0;
    r[Row::BOX] = at as u32;
    r[Row::NODE] = node as u32;
    r[Row::HELD] = n as u32;
    copy_values(r, e, n);
}
