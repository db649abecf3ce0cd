// Trials of the logging wrapper: where copies stand, what they fill, what they let out.
use crate::rounds::enters;
use test_schedules::named_steps::{down, enter_word, leave, meet, pass, take, up};
use test_schedules::tried::logged_list;

// The copier's message down to its second arrival: the copy of what enters stands first.
fn landed(list: &mut [u32; 4400]) -> usize {
    let at = enter_word(list, 0, 1, 20);
    let at = down(list, at, 1, 0);
    let at = leave(list, at, 1, 1);
    let at = leave(list, at, 1, 0);
    let at = down(list, at, 1, 0);
    let at = meet(list, at, 1, 1, 0);
    up(list, at, 1, 1)
}

// Listing A's handler: a copy before the down message, and a copy behind the leaving one.
fn in_order() {
    // !in^parent y. out^parent (y y)
    let nodes = [6u32, 0, 1, 0, 1, 4, 1, 1, 1, 0];
    let pool = [10u32, 4000002, 10, 10];
    let mut list = [0u32; 4400];
    let at = landed(&mut list);
    let at = pass(&mut list, at, 1, 0);
    let at = leave(&mut list, at, 1, 0);
    let at = leave(&mut list, at, 1, 0);
    let at = leave(&mut list, at, 1, 0);
    logged_list(b"in order", &nodes, &pool, &list, at);
}

// A message passes with another behind it: it keeps its place, and its copy is the last.
fn steps_last(list: &mut [u32; 4400]) -> usize {
    let at = enter_word(list, 0, 1, 20);
    let at = down(list, at, 1, 1);
    let at = meet(list, at, 1, 1, 0);
    let at = up(list, at, 1, 1);
    let at = enter_word(list, at, 1, 21);
    let at = pass(list, at, 1, 1);
    let at = leave(list, at, 1, 4);
    let at = leave(list, at, 1, 2);
    let at = leave(list, at, 1, 0);
    leave(list, at, 1, 0)
}

fn copy_last() {
    // !in^parent y. out^parent (y y)
    let nodes = [6u32, 0, 1, 0, 1, 4, 1, 1, 1, 0];
    let pool = [10u32, 4000002, 10, 10];
    let mut list = [0u32; 4400];
    let at = steps_last(&mut list);
    logged_list(b"copy last", &nodes, &pool, &list, at);
}

// Enter needs two places: with 16 and 15 messages it finds none, with 14 it does.
fn full_at_enter() {
    // 0
    let nodes = [0u32; 5];
    let pool = [20u32];
    let mut list = [0u32; 4400];
    let at = enters(&mut list, 0, 9);
    let at = leave(&mut list, at, 1, 0);
    let at = enter_word(&mut list, at, 1, 20);
    let at = leave(&mut list, at, 1, 1);
    let at = enter_word(&mut list, at, 1, 20);
    logged_list(b"full at enter", &nodes, &pool, &list, at);
}

// Pass needs one: with 16 messages it finds none, and the message stays arrived; with 15 it does.
fn full_at_pass() {
    // out^parent 20 | out^parent 21
    let nodes = [1u32, 1, 2, 0, 0, 4, 1, 1, 0, 0, 4, 1, 1, 1, 0];
    let pool = [20u32, 21];
    let mut list = [0u32; 4400];
    let at = up(&mut list, 0, 1, 0);
    let at = up(&mut list, at, 1, 0);
    let at = enters(&mut list, at, 7);
    let at = pass(&mut list, at, 1, 0);
    let at = leave(&mut list, at, 1, 0);
    let at = leave(&mut list, at, 1, 2);
    let at = pass(&mut list, at, 1, 0);
    let at = pass(&mut list, at, 1, 1);
    let at = leave(&mut list, at, 1, 15);
    let at = leave(&mut list, at, 1, 0);
    logged_list(b"full at pass", &nodes, &pool, &list, at);
}

// A minted name that leaves first in a copy may enter.
fn left_by_copy() {
    // new n. out^parent n
    let nodes = [3u32, 9, 1, 0, 0, 4, 1, 1, 0, 0];
    let pool = [9u32];
    let mut list = [0u32; 4400];
    let at = up(&mut list, 0, 1, 0);
    let at = pass(&mut list, at, 1, 0);
    let at = enter_word(&mut list, at, 1, 65536);
    let at = leave(&mut list, at, 1, 1);
    let at = enter_word(&mut list, at, 1, 65536);
    let at = leave(&mut list, at, 1, 0);
    logged_list(b"left by copy", &nodes, &pool, &list, at);
}

// What the handler sends up on log or mid is not logged; there is no side 2, and nobody takes.
fn not_logged() {
    // log^parent 20 | mid^parent 20
    let nodes = [1u32, 1, 2, 0, 0, 4, 3, 1, 0, 0, 4, 2, 1, 0, 0];
    let pool = [20u32];
    let mut list = [0u32; 4400];
    let at = up(&mut list, 0, 1, 0);
    let at = up(&mut list, at, 1, 0);
    let at = pass(&mut list, at, 1, 0);
    let at = leave(&mut list, at, 1, 0);
    let at = pass(&mut list, at, 1, 1);
    let at = take(&mut list, at, 1, 0);
    let at = take(&mut list, at, 2, 0);
    let at = enter_word(&mut list, at, 2, 20);
    logged_list(b"not logged", &nodes, &pool, &list, at);
}

pub fn trials() {
    in_order();
    copy_last();
    full_at_enter();
    full_at_pass();
    left_by_copy();
    not_logged();
}
