// Trials of names brought from outside: which enter, what they may be, where they come out, and two runs with them.
use test_schedules::lists::node;
use test_schedules::named_steps::{
    arrive, depart, descend, down, enter, enter_word, land, leave, meet, pass, take, up,
};
use test_schedules::tried::{filtered_list, filtered_lists, loaded, logged_list, piped_list};

// 196,608 to 196,863 enter, and those beside them do not; a minted name that has not left, and a foreign one, stay what they are beside one.
fn edges() {
    // new n. 0
    let nodes = [3u32, 9, 1, 0, 0, 0, 0, 0, 0, 0];
    let pool = [0u32];
    let mut list = [0u32; 4400];
    let at = enter_word(&mut list, 0, 1, 196607);
    let at = enter_word(&mut list, at, 1, 196608);
    let at = enter_word(&mut list, at, 1, 196863);
    let at = enter_word(&mut list, at, 1, 196864);
    let at = enter(&mut list, at, 1, &[4000002, 196608, 65536]);
    let at = enter(&mut list, at, 1, &[4000003, 65536, 196608, 196864]);
    let at = enter_word(&mut list, at, 2, 196608);
    filtered_list(b"edges", &nodes, &pool, &list, at);
}

// Twice in a tuple, through the copier; logged as it enters.
fn twice() {
    // !in^parent y. out^parent (y y)
    let nodes = [6u32, 0, 1, 0, 1, 4, 1, 1, 1, 0];
    let pool = [10u32, 4000002, 10, 10];
    let mut list = [0u32; 4400];
    let at = enter(&mut list, 0, 1, &[4000002, 196608, 196608]);
    let at = leave(&mut list, at, 1, 0);
    let at = land(&mut list, at, 1, 1, 0);
    let at = depart(&mut list, at, 1, 1);
    logged_list(b"twice", &nodes, &pool, &list, at);
}

// As a channel, by binding: an output and an input meet on it.
fn as_channel() {
    // !in^parent y. (y 20 | y z. out^parent z)
    let mut nodes = [0u32; 4400];
    node(&mut nodes, 0, 6, 0, 1, 0, 1);
    node(&mut nodes, 1, 1, 2, 3, 0, 0);
    node(&mut nodes, 2, 4, 10, 0, 1, 0);
    node(&mut nodes, 3, 5, 10, 0, 2, 4);
    node(&mut nodes, 4, 4, 1, 1, 2, 0);
    let pool = [10u32, 20, 11];
    let mut list = [0u32; 4400];
    let at = arrive(&mut list, 0, 1, 196608, 1, 0);
    let at = meet(&mut list, at, 1, 1, 2);
    let at = depart(&mut list, at, 1, 1);
    filtered_lists(b"as a channel", &nodes, 25, &pool, &list, at);
}

// What goes up on it can neither pass nor leave nor go down.
fn stranded_on() {
    // !in^parent y. y^parent 20
    let nodes = [6u32, 0, 1, 0, 1, 4, 10, 1, 1, 0];
    let pool = [10u32, 20];
    let mut list = [0u32; 4400];
    let at = arrive(&mut list, 0, 1, 196863, 1, 0);
    let at = depart(&mut list, at, 1, 1);
    let at = down(&mut list, at, 1, 0);
    filtered_list(b"stranded on it", &nodes, &pool, &list, at);
}

// !in^parent y. (y[5^parent z. 6^parent z] | 5^child-y y | 6^child-y z. out^parent z)
fn nodes_boxed(nodes: &mut [u32; 4400]) {
    node(nodes, 0, 6, 0, 1, 0, 1);
    node(nodes, 1, 1, 2, 5, 0, 0);
    node(nodes, 2, 2, 10, 3, 0, 0);
    node(nodes, 3, 5, 5, 1, 1, 4);
    node(nodes, 4, 4, 6, 1, 1, 0);
    node(nodes, 5, 1, 6, 7, 0, 0);
    node(nodes, 6, 4, 5, 12, 0, 0);
    node(nodes, 7, 5, 6, 12, 1, 8);
    node(nodes, 8, 4, 1, 1, 1, 0);
}

// As a box name and as a tag, by binding: into the box, out of it, and out.
fn as_box_and_tag() {
    let mut nodes = [0u32; 4400];
    nodes_boxed(&mut nodes);
    let pool = [10u32, 11];
    let mut list = [0u32; 4400];
    let at = arrive(&mut list, 0, 1, 196863, 1, 0);
    let at = descend(&mut list, at, 1, 2, 1);
    let at = meet(&mut list, at, 1, 2, 1);
    let at = up(&mut list, at, 1, 2);
    let at = meet(&mut list, at, 1, 2, 1);
    let at = depart(&mut list, at, 1, 1);
    filtered_lists(b"as a box name and a tag", &nodes, 45, &pool, &list, at);
}

// Over `mid` and out of outlet 2.
fn over_mid() {
    // side 1: !in^parent y. mid^parent y; side 2: !mid^parent y. out^parent y
    let nodes1 = [6u32, 0, 1, 0, 1, 4, 2, 1, 0, 0];
    let nodes2 = [6u32, 2, 1, 0, 1, 4, 1, 1, 0, 0];
    let pool = [10u32];
    let mut list = [0u32; 4400];
    let at = arrive(&mut list, 0, 1, 196608, 1, 0);
    let at = up(&mut list, at, 1, 1);
    let at = take(&mut list, at, 2, 0);
    let at = land(&mut list, at, 2, 1, 0);
    let at = depart(&mut list, at, 2, 1);
    piped_list(b"over mid", &nodes1, &pool, &nodes2, &pool, &list, at);
}

// Entered on side 2 alone: on `mid` it stays in side 2's lobby, and side 1 has nothing to take or to let out.
fn on_side_2_alone() {
    // each side: !in^parent y. mid^parent y
    let nodes = [6u32, 0, 1, 0, 1, 4, 2, 1, 0, 0];
    let pool = [10u32];
    let mut list = [0u32; 4400];
    let at = arrive(&mut list, 0, 2, 196700, 1, 0);
    let at = up(&mut list, at, 2, 1);
    let at = take(&mut list, at, 1, 0);
    let at = pass(&mut list, at, 1, 0);
    let at = leave(&mut list, at, 1, 0);
    let at = pass(&mut list, at, 2, 0);
    piped_list(b"on side 2 alone", &nodes, &pool, &nodes, &pool, &list, at);
}

// A table may not hold one, in a value or in a pattern.
fn in_tables() {
    loaded(b"in a value", &[4, 1, 1, 0, 0], &[196608]);
    loaded(
        b"in a pattern",
        &[5, 0, 1, 0, 1, 0, 0, 0, 0, 0],
        &[4000002, 10, 196863],
    );
}

// Side 1 is the copier, and a name from outside enters for it; side 2 is nil.
fn alone() {
    let nodes1 = [6u32, 0, 1, 0, 1, 4, 1, 1, 1, 0];
    let pool1 = [10u32, 4000002, 10, 10];
    let nil = [0u32; 5];
    let mut list = [0u32; 4400];
    let at = arrive(&mut list, 0, 1, 196608, 1, 0);
    let at = depart(&mut list, at, 1, 1);
    piped_list(b"alone", &nodes1, &pool1, &nil, &pool1, &list, at);
}

// The same steps of side 1 among those of a side 2 which has entered that name and another.
fn steps_besides(list: &mut [u32; 4400]) -> usize {
    let at = enter(list, 0, 2, &[4000002, 196608, 196700]);
    let at = enter_word(list, at, 1, 196608);
    let at = down(list, at, 2, 0);
    let at = land(list, at, 1, 1, 0);
    let at = meet(list, at, 2, 1, 0);
    let at = up(list, at, 1, 1);
    let at = up(list, at, 2, 1);
    let at = pass(list, at, 1, 0);
    let at = enter_word(list, at, 2, 196608);
    leave(list, at, 1, 0)
}

// Side 1's answers are those of the run before.
fn besides() {
    let nodes1 = [6u32, 0, 1, 0, 1, 4, 1, 1, 1, 0];
    let pool1 = [10u32, 4000002, 10, 10];
    // side 2: !in^parent y. mid^parent y
    let nodes2 = [6u32, 0, 1, 0, 1, 4, 2, 1, 0, 0];
    let pool2 = [10u32];
    let mut list = [0u32; 4400];
    let at = steps_besides(&mut list);
    piped_list(b"besides", &nodes1, &pool1, &nodes2, &pool2, &list, at);
}

pub fn trials() {
    edges();
    twice();
    as_channel();
    stranded_on();
    as_box_and_tag();
    over_mid();
    on_side_2_alone();
    in_tables();
    alone();
    besides();
}
