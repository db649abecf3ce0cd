// The trials A to I.
use test_schedules::lists::{node, repeat};
use test_schedules::named_steps::{
    arrive, depart, down, enter, enter_word, land, leave, meet, pass, take, up,
};
use test_schedules::tried::{filtered_list, filtered_lists, piped_list};

// The copier: listing A.
fn trial_a() {
    // !in^parent y. out^parent (y y)
    let nodes = [6u32, 0, 1, 0, 1, 4, 1, 1, 1, 0];
    let pool = [10u32, 4000002, 10, 10];
    let mut list = [0u32; 4400];
    let at = arrive(&mut list, 0, 1, 20, 1, 0);
    let at = depart(&mut list, at, 1, 1);
    let at = leave(&mut list, at, 1, 0);
    filtered_list(b"A", &nodes, &pool, &list, at);
}

// Side 2 sends `mid` up: it arrives, and cannot pass, leave or go down.
fn trial_b() {
    // side 1: 0; side 2: mid^parent 20
    let nil = [0u32; 5];
    let nodes = [4u32, 2, 1, 0, 0];
    let pool = [20u32];
    let mut list = [0u32; 4400];
    let at = depart(&mut list, 0, 2, 0);
    let at = down(&mut list, at, 2, 0);
    piped_list(b"B", &nil, &pool, &nodes, &pool, &list, at);
}

// The steps of trial C.
fn steps_c(list: &mut [u32; 4400]) -> usize {
    let at = take(list, 0, 2, 0);
    let at = up(list, at, 1, 0);
    let at = take(list, at, 2, 0);
    let at = take(list, at, 2, 0);
    let at = take(list, at, 1, 0);
    let at = land(list, at, 2, 1, 0);
    depart(list, at, 2, 0)
}

// The same from side 1 reaches the shelf. It is taken once, and goes on by side 2.
fn trial_c() {
    // side 1: mid^parent 20; side 2: mid^parent y. out^parent y
    let nodes1 = [4u32, 2, 1, 0, 0];
    let pool1 = [20u32];
    let nodes2 = [5u32, 2, 1, 0, 1, 4, 1, 1, 0, 0];
    let pool2 = [10u32];
    let mut list = [0u32; 4400];
    let at = steps_c(&mut list);
    piped_list(b"C", &nodes1, &pool1, &nodes2, &pool2, &list, at);
}

// The steps of trial D.
fn steps_d(list: &mut [u32; 4400]) -> usize {
    let at = enter(list, 0, 1, &[4000002, 20, 21]);
    let at = enter(list, at, 1, &[4000003, 20, 21, 22]);
    let at = down(list, at, 1, 0);
    let at = land(list, at, 1, 1, 0);
    let at = meet(list, at, 1, 1, 0);
    depart(list, at, 1, 2)
}

// A pattern of two takes a pair, and no triple.
fn trial_d() {
    // !in^parent (y z). out^parent (z y)
    let nodes = [6u32, 0, 1, 0, 1, 4, 1, 1, 3, 0];
    let pool = [4000002u32, 10, 11, 4000002, 11, 10];
    let mut list = [0u32; 4400];
    let at = steps_d(&mut list);
    filtered_list(b"D", &nodes, &pool, &list, at);
}

// The last steps of trial E: the name 1.
fn steps_e(list: &mut [u32; 4400], at: usize) -> usize {
    let at = enter_word(list, at, 1, 1);
    let at = down(list, at, 1, 1);
    let at = meet(list, at, 1, 2, 0);
    let at = up(list, at, 1, 2);
    let at = pass(list, at, 1, 1);
    leave(list, at, 1, 1)
}

// A bound name as channel: the empty tuple gives 15; 20 strands, and 1, which is `out`, leaves.
fn trial_e() {
    // !in^parent y. y^parent ()
    let nodes = [6u32, 0, 1, 0, 1, 4, 10, 1, 1, 0];
    let pool = [10u32, 4000000];
    let mut list = [0u32; 4400];
    let at = arrive(&mut list, 0, 1, 4000000, 1, 0);
    let at = arrive(&mut list, at, 1, 20, 2, 0);
    let at = up(&mut list, at, 1, 2);
    let at = pass(&mut list, at, 1, 0);
    let at = steps_e(&mut list, at);
    filtered_list(b"E", &nodes, &pool, &list, at);
}

// The steps of trial F.
fn steps_f(list: &mut [u32; 4400]) -> usize {
    let at = enter(list, 0, 1, &[4000006, 20, 21, 22, 23, 24, 25]);
    let at = land(list, at, 1, 1, 0);
    let at = depart(list, at, 1, 1);
    let at = enter(list, at, 1, &[4000007, 20, 21, 22, 23, 24, 25, 26]);
    land(list, at, 1, 1, 0)
}

// The copier with 7 words, then with 8.
fn trial_f() {
    // !in^parent y. out^parent (y y)
    let nodes = [6u32, 0, 1, 0, 1, 4, 1, 1, 1, 0];
    let pool = [10u32, 4000002, 10, 10];
    let mut list = [0u32; 4400];
    let at = steps_f(&mut list);
    filtered_list(b"F", &nodes, &pool, &list, at);
}

// The 17th message that enters finds no room, and has it after one went down.
fn trial_g() {
    // 0
    let nodes = [0u32; 5];
    let pool = [10u32];
    let mut list = [0u32; 4400];
    let at = repeat(&mut list, 0, &[1, 1, 0, 0, 1, 20], 17);
    let at = down(&mut list, at, 1, 0);
    let at = enter_word(&mut list, at, 1, 20);
    filtered_list(b"G", &nodes, &pool, &list, at);
}

// A message of one word enters on side 1.
fn word(list: &mut [u32; 4400], at: usize, w: u32) -> usize {
    enter_word(list, at, 1, w)
}

// The first steps of trial H: the name on its way out.
fn way_out(list: &mut [u32; 4400]) -> usize {
    let at = word(list, 0, 65536);
    let at = up(list, at, 1, 0);
    let at = word(list, at, 65536);
    let at = pass(list, at, 1, 0);
    let at = word(list, at, 65536);
    leave(list, at, 1, 0)
}

// The others: the name again, and other names.
fn names(list: &mut [u32; 4400], at: usize) -> usize {
    let at = word(list, at, 65536);
    let at = word(list, at, 65537);
    let at = word(list, at, 131072);
    let at = word(list, at, 65792);
    let at = word(list, at, 64);
    let at = word(list, at, 63);
    word(list, at, 4999999)
}

// A minted name enters once it has left; 65792 has serial 256, and 64 is no public name.
fn trial_h() {
    // new n. out^parent n
    let nodes = [3u32, 10, 1, 0, 0, 4, 1, 1, 0, 0];
    let pool = [10u32];
    let mut list = [0u32; 4400];
    let at = way_out(&mut list);
    let at = names(&mut list, at);
    filtered_list(b"H", &nodes, &pool, &list, at);
}

// 10[5^parent 20] | 5^child-10 y. out^parent y
fn nodes_i(nodes: &mut [u32; 4400]) {
    node(nodes, 0, 1, 1, 3, 0, 0);
    node(nodes, 1, 2, 10, 2, 0, 0);
    node(nodes, 2, 4, 5, 1, 0, 0);
    node(nodes, 3, 5, 5, 12, 1, 4);
    node(nodes, 4, 4, 1, 1, 1, 0);
}

// A box sends to its parent, where an input from that box waits.
fn trial_i() {
    let mut nodes = [0u32; 4400];
    nodes_i(&mut nodes);
    let pool = [20u32, 11];
    let mut list = [0u32; 4400];
    let at = meet(&mut list, 0, 1, 0, 1);
    let at = up(&mut list, at, 1, 0);
    let at = meet(&mut list, at, 1, 0, 1);
    let at = depart(&mut list, at, 1, 0);
    filtered_lists(b"I", &nodes, 25, &pool, &list, at);
}

pub fn trials() {
    trial_a();
    trial_b();
    trial_c();
    trial_d();
    trial_e();
    trial_f();
    trial_g();
    trial_h();
    trial_i();
}
