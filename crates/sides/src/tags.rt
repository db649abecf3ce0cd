// A tag as two words of a row, and tests of tags.
ghost use Rattle.std.specs.Prelude.{◌≡◌};
ghost use Rattle.model.specs.Step.{is_to_parent, is_to_child, tags_fit};
ghost use Rattle.sides.specs.Views.{view_tag};
ghost use Rattle.sides.specs.Layout.{tag_of};
ghost use Rattle.sides.specs.Stored.{kind_of, name_of};

use crate::Tag;

// The word that tells the five tags apart.
#[tactic(auto, unfolding(crate::specs::Stored::kind_of))]
pub(crate) fn tag_kind(t: Tag) -> u32
    ensures { result ≡ kind_of t }
{
    match t {
        Tag::Within => 0,
        Tag::ToParent => 1,
        Tag::FromParent => 2,
        Tag::ToChild(_) => 3,
        Tag::FromChild(_) => 4,
    }
}

// The word that names the child, 0 where there is none.
#[tactic(auto, unfolding(crate::specs::Stored::name_of))]
pub(crate) fn tag_name(t: Tag) -> u32
    ensures { result ≡ name_of t }
{
    match t {
        Tag::Within | Tag::ToParent | Tag::FromParent => 0,
        Tag::ToChild(n) | Tag::FromChild(n) => n,
    }
}

// The tag of two words.
#[tactic(auto, unfolding(crate::specs::Layout::tag_of))]
pub(crate) fn tag_of(k: u32, n: u32) -> Tag
    ensures { view_tag result ≡ tag_of k n }
{
    match k {
        0 => Tag::Within,
        1 => Tag::ToParent,
        2 => Tag::FromParent,
        3 => Tag::ToChild(n),
        _ => Tag::FromChild(n),
    }
}

// Whether the tag is parent.
pub fn is_to_parent(t: Tag) -> bool
    ensures { result ≡ is_to_parent (view_tag t) }
{
    t == Tag::ToParent
}

// Whether the tag is child, of a box named n.
pub fn is_to_child(t: Tag, n: u32) -> bool
    ensures { result ≡ is_to_child (view_tag t) n }
{
    t == Tag::ToChild(n)
}

// Whether an output's tag and an input's fit: within with within, from the parent with parent, from child n with child n.
pub fn tags_fit(output: Tag, input: Tag) -> bool
    ensures { result ≡ tags_fit (view_tag output) (view_tag input) }
{
    match output {
        Tag::Within => input == Tag::Within,
        Tag::FromParent => is_to_parent(input),
        Tag::FromChild(n) => is_to_child(input, n),
        // Stays an arm: each arm says what its tag fits with, and these two fit with none.
        Tag::ToParent | Tag::ToChild(_) => false,
    }
}
