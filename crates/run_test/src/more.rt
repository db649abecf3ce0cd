// Beside the trials: lengths of entered values, 15 far below and behind an inner binder, descending, and a count of minted names for each side.
use test_schedules::lists::{append, node, repeat};
use test_schedules::named_steps::{arrive, depart, descend, enter_word, meet, up};
use test_schedules::tried::{filtered_list, filtered_lists, piped_list};

// 16 words: a tuple of 15 names.
fn sixteen(list: &mut [u32; 4400]) -> usize {
    let at = append(list, 0, &[1, 1, 0, 0, 16, 4000015]);
    repeat(list, at, &[20], 15)
}

// 17 words that are a value: a pair of tuples of seven.
fn seventeen(list: &mut [u32; 4400], at: usize) -> usize {
    let at = append(list, at, &[1, 1, 0, 0, 17, 4000002, 4000007]);
    let at = repeat(list, at, &[20], 7);
    let at = append(list, at, &[4000007]);
    repeat(list, at, &[20], 7)
}

// 16 words enter; 17 do not, though they are a value, and none do not.
fn lengths() {
    // 0
    let nodes = [0u32; 5];
    let pool = [10u32];
    let mut list = [0u32; 4400];
    let at = sixteen(&mut list);
    let at = seventeen(&mut list, at);
    let at = append(&mut list, at, &[1, 1, 0, 0, 0]);
    filtered_list(b"lengths", &nodes, &pool, &list, at);
}

// !in^parent y. in^parent z. y[out^parent z]
fn box_nodes(nodes: &mut [u32; 4400]) {
    node(nodes, 0, 6, 0, 1, 0, 1);
    node(nodes, 1, 5, 0, 1, 1, 2);
    node(nodes, 2, 2, 10, 3, 0, 0);
    node(nodes, 3, 4, 1, 1, 1, 0);
}

// The name of a box under an input: the empty tuple gives 15, the name 20 none.
fn used_as_box() {
    let mut nodes = [0u32; 4400];
    box_nodes(&mut nodes);
    let pool = [10u32, 11];
    let mut list = [0u32; 4400];
    let at = arrive(&mut list, 0, 1, 4000000, 1, 0);
    let at = arrive(&mut list, at, 1, 20, 2, 0);
    filtered_lists(b"box", &nodes, 20, &pool, &list, at);
}

// A tag under `new`.
fn used_as_tag() {
    // !in^parent y. new z. 5^child-y z
    let nodes = [6u32, 0, 1, 0, 1, 3, 11, 2, 0, 0, 4, 5, 12, 1, 0];
    let pool = [10u32, 11];
    let mut list = [0u32; 4400];
    let at = arrive(&mut list, 0, 1, 4000000, 1, 0);
    filtered_list(b"tag", &nodes, &pool, &list, at);
}

// An inner binder hides the name: only its own value counts.
fn hidden() {
    // !in^parent y. in^parent y. y y
    let nodes = [6u32, 0, 1, 0, 1, 5, 0, 1, 0, 2, 4, 10, 0, 0, 0];
    let pool = [10u32];
    let mut list = [0u32; 4400];
    let at = arrive(&mut list, 0, 1, 4000000, 1, 0);
    let at = arrive(&mut list, at, 1, 4000000, 2, 1);
    let at = meet(&mut list, at, 1, 2, 0);
    filtered_list(b"hidden", &nodes, &pool, &list, at);
}

// 5^child-10 20 | (6^child-10 20 | 10[5^parent y. out^parent y])
fn tag_nodes(nodes: &mut [u32; 4400]) {
    node(nodes, 0, 1, 1, 2, 0, 0);
    node(nodes, 1, 4, 5, 12, 0, 0);
    node(nodes, 2, 1, 3, 4, 0, 0);
    node(nodes, 3, 4, 6, 12, 0, 0);
    node(nodes, 4, 2, 10, 5, 0, 0);
    node(nodes, 5, 5, 5, 1, 1, 6);
    node(nodes, 6, 4, 1, 1, 1, 0);
}

// The steps of the next.
fn descents(list: &mut [u32; 4400]) -> usize {
    let at = descend(list, 0, 1, 0, 0);
    let at = descend(list, at, 1, 0, 2);
    let at = descend(list, at, 1, 0, 1);
    let at = descend(list, at, 1, 1, 1);
    let at = meet(list, at, 1, 1, 2);
    let at = meet(list, at, 1, 0, 2);
    let at = up(list, at, 1, 1);
    up(list, at, 1, 1)
}

// Messages descend whatever their channel, and meet only on it.
fn descending() {
    let mut nodes = [0u32; 4400];
    tag_nodes(&mut nodes);
    let pool = [20u32, 11];
    let mut list = [0u32; 4400];
    let at = descents(&mut list);
    filtered_lists(b"descend", &nodes, 35, &pool, &list, at);
}

// The steps of the next.
fn exchange(list: &mut [u32; 4400]) -> usize {
    let at = depart(list, 0, 1, 0);
    let at = enter_word(list, at, 1, 131072);
    let at = depart(list, at, 2, 0);
    let at = enter_word(list, at, 1, 131072);
    enter_word(list, at, 2, 65536)
}

// Each side mints from 0. What has left by one side enters by the other.
fn two_counts() {
    // both sides: new n. out^parent n
    let nodes = [3u32, 10, 1, 0, 0, 4, 1, 1, 0, 0];
    let pool = [10u32];
    let mut list = [0u32; 4400];
    let at = exchange(&mut list);
    piped_list(b"counts", &nodes, &pool, &nodes, &pool, &list, at);
}

pub fn runs() {
    lengths();
    used_as_box();
    used_as_tag();
    hidden();
    descending();
    two_counts();
}
