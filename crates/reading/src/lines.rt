// What a line adds to what is read so far; `None` where the line is at fault, and then nothing changes.
ghost use Rattle.std.specs.Prelude.{◌≡◌, List, ℕ, ◌+◌, ◌-◌, ◌*◌, ◌<◌, ◌≤◌, length, get_or};
ghost use Rattle.std.proofs.lemmas.List.Edits.{sets};
ghost use Rattle.model.specs.Wrapper.{all_sides};
ghost use Rattle.format.specs.Lines.{on_w, on_n, on_v, on_s, on_line};
ghost use Rattle.reading.specs.Fields.{words_of, as_line};
ghost use Rattle.reading.specs.Lists.{Lists, lists, Inside, AddIs, LineIs};

use super::Places;
use super::fields::Line;
use sides::Sides;

// Puts words into a list, from a place on.
fn store(list: &mut [u32], at: usize, words: &[u32])
    requires { at + length words.now ≤ length list.old }
    ensures { list.new ≡ sets list.old at words.now }
{
    list[at..at + words.len()].copy_from_slice(words);
}

// A line of `size` numbers: the first names a side, and the others go behind the words of that side, in its part of the list.
// The parts have `wide` words each, of which `counts` are filled. Gives the counts then.
fn add(
    l: &Line,
    size: usize,
    wide: usize,
    mut counts: [usize; Sides::COUNT],
    list: &mut [u32],
) -> Option<[usize; Sides::COUNT]>
    requires size_bound { (0 < size) × (size < 21) }
    requires room { (k : ℕ) → get_or counts k 0 < wide → get_or counts k 0 + (size - 1) ≤ wide }
    requires parts { (wide ≤ 1285) × (wide * length all_sides ≤ length list.old) }
    ensures { AddIs size wide counts (words_of l.now) list.old list.new result }
{
    let side = (l.words[0] as usize).checked_sub(1)?;
    if l.len != size || Sides::COUNT <= side || wide <= counts[side] {
        return None;
    }
    let at = counts[side];
    store(list, wide * side + at, &l.words[1..size]);
    counts[side] = at + (size - 1);
    Some(counts)
}

// A W line.
fn on_w(l: &Line, p: Places) -> Option<Places>
    ensures { (new : Lists) → LineIs p (λ i. on_w i (words_of l.now)) new new result }
{
    if p.rank != 0 || l.len != 1 {
        return None;
    }
    Some(Places {
        rank: 1,
        wrapper: l.words[0],
        ..p
    })
}

// An N line.
fn on_n(l: &Line, p: Places, nodes: &mut [u32; Places::NODES]) -> Option<Places>
    requires { Inside p }
    ensures { (pools steps : List ℕ) → LineIs p (λ i. on_n i (words_of l.now)) (lists nodes.old pools steps) (lists nodes.new pools steps) result }
{
    if p.rank == 0 || 2 < p.rank {
        return None;
    }
    let counts = add(l, 6, Places::SIDE_NODES, p.nodes, nodes)?;
    Some(Places {
        rank: 2,
        nodes: counts,
        ..p
    })
}

// A V line.
fn on_v(l: &Line, p: Places, pools: &mut [u32; Places::POOLS]) -> Option<Places>
    requires { Inside p }
    ensures { (nodes steps : List ℕ) → LineIs p (λ i. on_v i (words_of l.now)) (lists nodes pools.old steps) (lists nodes pools.new steps) result }
{
    if p.rank == 0 || 3 < p.rank {
        return None;
    }
    let counts = add(l, 2, Places::SIDE_POOL, p.pools, pools)?;
    Some(Places {
        rank: 3,
        pools: counts,
        ..p
    })
}

// An S line.
fn on_s(l: &Line, p: Places, steps: &mut [u32; Places::STEPS]) -> Option<Places>
    requires { Inside p × (l.now.len ≤ 21) }
    ensures { (nodes pools : List ℕ) → LineIs p (λ i. on_s i (words_of l.now)) (lists nodes pools steps.old) (lists nodes pools steps.new) result }
{
    if p.rank == 0 || 4 < p.rank || l.len < 4 || 1024 <= p.steps {
        return None;
    }
    store(steps, p.words, &l.words[..4]);
    steps[p.words + 4] = (l.len - 4) as u32;
    store(steps, p.words + 5, &l.words[4..l.len]);
    Some(Places {
        rank: 4,
        steps: p.steps + 1,
        words: p.words + l.len + 1,
        ..p
    })
}

// A line by its letter.
pub(crate) fn on_line(
    l: &Line,
    p: Places,
    nodes: &mut [u32; Places::NODES],
    pools: &mut [u32; Places::POOLS],
    steps: &mut [u32; Places::STEPS],
) -> Option<Places>
    requires { Inside p × (l.now.len ≤ 21) }
    ensures { LineIs p (λ i. on_line i (as_line l.now)) (lists nodes.old pools.old steps.old) (lists nodes.new pools.new steps.new) result }
{
    match l.letter {
        b'W' => on_w(l, p),
        b'N' => on_n(l, p, nodes),
        b'V' => on_v(l, p, pools),
        b'S' => on_s(l, p, steps),
        _ => None,
    }
}
