// Steps at fault.
use crate::claim::{alone, copied, first, listing, part, wrapped};
use test_output::write;
use test_schedules::lists::append;

// Steps of the copier, with the label of the first: 20 enters.
fn entered(name: &[u8], steps: &[u32]) {
    copied(name, steps, &[0, 1, 1, 20]);
}

// A pass that is refused, before a record that breaks off and before one that is whole.
fn refused() {
    entered(
        b"refused step, then one broken off",
        &[1, 1, 0, 0, 1, 20, 6, 1, 0, 0, 0, 2],
    );
    entered(
        b"refused step, then a whole one",
        &[1, 1, 0, 0, 1, 20, 6, 1, 0, 0, 0, 1, 1, 0, 0, 1, 20],
    );
}

// A record that breaks off: after one word, before its count, in its value, and with the largest count.
fn broken_off() {
    entered(b"step broken off after one word", &[1, 1, 0, 0, 1, 20, 2]);
    entered(
        b"step broken off before its count",
        &[1, 1, 0, 0, 1, 20, 2, 1, 0, 0],
    );
    entered(
        b"step broken off in its value",
        &[1, 1, 0, 0, 1, 20, 1, 1, 0, 0, 3, 4000002, 20],
    );
    copied(
        b"step with the largest count",
        &[1, 1, 0, 0, 4294967295, 20],
        &[],
    );
}

// Both lists at fault: a label that breaks off, and one that comes earlier in the run than the step.
fn both() {
    copied(
        b"refused step, label broken off",
        &[1, 1, 0, 0, 1, 20, 6, 1, 0, 0, 0],
        &[0, 1, 1, 20, 1],
    );
    let mut steps = [0u32; 4400];
    let at = listing(&mut steps);
    let n = append(&mut steps, at, &[6, 1, 0, 0, 0]);
    copied(b"step and label at fault", first(&steps, n), &[0, 1, 1, 21]);
}

// 45 words: !in^parent y. (y[5^parent z. 6^parent z] | 5^child-y y | 6^child-y z. out^parent z)
fn boxed_nodes(nodes: &mut [u32; 4400]) -> usize {
    let at = append(nodes, 0, &[6, 0, 1, 0, 1, 1, 2, 5, 0, 0, 2, 10, 3, 0, 0]);
    let at = append(nodes, at, &[5, 5, 1, 1, 4, 4, 6, 1, 1, 0, 1, 6, 7, 0, 0]);
    append(nodes, at, &[4, 5, 12, 0, 0, 5, 6, 12, 1, 8, 4, 1, 1, 1, 0])
}

// 51 words: a name from outside enters, is a box's name and a tag, and leaves.
fn boxed_steps(steps: &mut [u32; 4400]) -> usize {
    let at = append(
        steps,
        0,
        &[1, 1, 0, 0, 1, 196863, 2, 1, 0, 0, 0, 5, 1, 1, 0, 0],
    );
    let at = append(steps, at, &[4, 1, 2, 1, 0, 5, 1, 2, 1, 0, 3, 1, 2, 0, 0]);
    append(
        steps,
        at,
        &[5, 1, 2, 1, 0, 3, 1, 1, 0, 0, 6, 1, 0, 0, 0, 7, 1, 0, 0, 0],
    )
}

// The line of a claim about this table under the filter.
fn boxed(name: &[u8], steps: &[u32], labels: &[u32]) {
    let mut nodes = [0u32; 4400];
    let n = boxed_nodes(&mut nodes);
    write(name);
    alone(1, first(&nodes, n), &[10, 11], steps, labels);
}

// The same with a value word: the words before a step's count, the count 1, the word 20, and the words behind the count.
fn worded(name: &[u8], before: &[u32], behind: &[u32]) {
    let mut steps = [0u32; 4400];
    let at = append(&mut steps, 0, before);
    let at = append(&mut steps, at, &[1, 20]);
    let n = append(&mut steps, at, behind);
    boxed(name, first(&steps, n), &[]);
}

// The run as it is, and with a value word at the steps 1, 2, 3, 5, 8 and 9.
fn value_words() {
    let mut list = [0u32; 4400];
    let n = boxed_steps(&mut list);
    let s = first(&list, n);
    boxed(b"no value word", s, &[0, 1, 1, 196863, 1, 1, 1, 196863]);
    worded(b"value word with kind 2", part(s, 0, 10), part(s, 11, 51));
    worded(b"value word with kind 5", part(s, 0, 15), part(s, 16, 51));
    worded(b"value word with kind 4", part(s, 0, 20), part(s, 21, 51));
    worded(b"value word with kind 3", part(s, 0, 30), part(s, 31, 51));
    worded(b"value word with kind 6", part(s, 0, 45), part(s, 46, 51));
    worded(b"value word with kind 7", part(s, 0, 50), part(s, 51, 51));
}

// The line of a claim under the pipeline, with no label. Side 1: mid^parent 20; side 2: 0
fn piped(name: &[u8], steps: &[u32]) {
    write(name);
    wrapped(
        2,
        &[4, 2, 1, 0, 0],
        &[20],
        &[0, 0, 0, 0, 0],
        &[],
        steps,
        &[],
    );
}

// Side 1 sends up and side 2 takes, without a value word and with one.
fn taking() {
    piped(b"taken", &[3, 1, 0, 0, 0, 8, 2, 0, 0, 0]);
    piped(
        b"value word with kind 8",
        &[3, 1, 0, 0, 0, 8, 2, 0, 0, 1, 20],
    );
}

// The rows of the table.
pub fn claims() {
    refused();
    broken_off();
    both();
    value_words();
    taking();
}
