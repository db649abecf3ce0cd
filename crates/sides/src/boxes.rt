// The boxes of a side, behind its rows: a name and a parent each. How many are held is the caller's number.
ghost use Rattle.std.specs.Prelude.{◌≡◌, [], ◌^◌, ◌<◌, length, get_or};
ghost use Rattle.sides.specs.Layout.{boxes_of, view_box};
ghost use Rattle.sides.specs.Stored.{box_put};

use crate::Rows;

// The name of box j.
pub fn box_name(rows: &[u32], j: usize) -> u32
    requires { (length rows.now ≡ 5184) × (j < 16) }
    ensures { result ≡ (view_box (get_or (boxes_of rows.now) j [])).name }
{
    rows[Rows::BOXES + Rows::BOX * j]
}

// The box that box j stands in.
pub fn box_parent(rows: &[u32], j: usize) -> usize
    requires { (length rows.now ≡ 5184) × (j < 16) }
    ensures { (result ≡ (view_box (get_or (boxes_of rows.now) j [])).parent) × (result < 2 ^ 32) }
{
    rows[Rows::BOXES + Rows::BOX * j + 1] as usize
}

// Box j: its name, and the box that it stands in.
pub fn put_box(rows: &mut [u32], j: usize, name: u32, parent: usize)
    requires { (length rows.old ≡ 5184) × (j < 16) × (parent < 2 ^ 32) }
    ensures { rows.new ≡ box_put rows.old j name parent }
{
    let a = Rows::BOXES + Rows::BOX * j;
    rows[a] = name;
    rows[a + 1] = parent as u32;
}
