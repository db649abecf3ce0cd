// The first words of an output's row: what it is, its box, its channel and its tag.
ghost use Rattle.std.specs.Prelude.{◌≡◌, ◌^◌, ◌<◌, length};
ghost use Rattle.sides.specs.Stored.{head_put};

use crate::tags::{tag_kind, tag_name};
use crate::{Row, Tag};

// The first words of an output.
pub(crate) fn put_head(r: &mut [u32], at: usize, channel: u32, tag: Tag)
    requires { (length r.old ≡ 8) × (at < 2 ^ 32) }
    ensures { r.new ≡ head_put r.old 0 at channel tag }
{
    r[Row::OUTPUT] = 1;
    r[Row::BOX] = at as u32;
    r[Row::CHANNEL] = channel;
    r[Row::TAG] = tag_kind(tag);
    r[Row::CHILD] = tag_name(tag);
}
