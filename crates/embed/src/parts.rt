// The parts of a list of words by their lengths.
ghost use Rattle.std.specs.Prelude.{◌≡◌, map, ◌*◌, ◌<◌, min, length, take};
ghost use Rattle.model.specs.Wrapper.{all_sides};
ghost use Rattle.embed.specs.Lent.{total, part_at, parts_from};

use sides::Sides;

// Where part k begins: behind as many words as the lengths before it say, or at the end of the words where these are fewer.
fn place(words: &[u32], lengths: &[u32], k: usize) -> usize
    ensures { result ≡ min (total (take k lengths.now)) (length words.now) }
{
    let before = &lengths[..k.min(lengths.len())];
    let mut at: usize = 0;
    for &n in before {
        at = at.saturating_add(n as usize).min(words.len());
    }
    at
}

// Part k of some words.
fn part<'a>(words: &'a [u32], lengths: &[u32], k: usize) -> &'a [u32]
    requires { k < 2 * length all_sides }
    ensures { result.now ≡ part_at words.now lengths.now k }
{
    let from = place(words, lengths, k);
    let to = place(words, lengths, k + 1);
    &words[from..to]
}

// A part of each side: every second part, from a first one on.
pub(crate) fn parts<'a>(
    words: &'a [u32],
    lengths: &[u32],
    first: usize,
) -> [&'a [u32]; Sides::COUNT]
    requires { first < 2 }
    ensures { map (λ x. x.now) result ≡ parts_from first words.now lengths.now }
{
    let mut all = [&words[0..0]; Sides::COUNT];
    for k in 0..Sides::COUNT {
        all[k] = part(words, lengths, 2 * k + first);
    }
    all
}
