// Runs the functions of `values` on vectors that are just allowed and just refused, and prints what each gives.
#![tactic(auto)]

use test_output::{number, write, write_words};
use values::{Bound, Leaf};

fn yes_or_no(b: bool) {
    write(if b { b" yes\n" } else { b" no\n" });
}

fn value_line(label: &[u8], s: &[u32]) {
    write(label);
    yes_or_no(values::is_value(s));
}

fn size_line(label: &[u8], l: Leaf, pool: &[u32], p: usize) {
    write(label);
    match values::size_at(l, pool, p) {
        Some(k) => {
            number(k);
            write(b"\n");
        }
        None => {
            write(b" malformed\n");
        }
    }
}

fn names_line(label: &[u8], p: &[u32]) {
    write(label);
    number(values::names_in(p));
    write(b" names, distinct:");
    yes_or_no(values::distinct_in(p));
}

// The parts that a match bound.
fn show_parts(v: &[u32], b: Bound) {
    for &part in b.rows.iter().take(b.n) {
        write(b" [");
        write_words(values::part_words(v, part));
        write(b" ]");
    }
}

fn match_line(label: &[u8], p: &[u32], v: &[u32]) {
    write(label);
    match values::matching(p, v) {
        Some(m) => {
            write(b" fits");
            show_parts(v, m.bound);
            write(b"\n");
        }
        None => {
            write(b" 14\n");
        }
    }
}

// Values: at most 16 words, names public, minted or from outside, every tuple with its parts and nothing behind.
fn values_short() {
    value_line(b"value, no words:", &[]);
    value_line(b"value 63:", &[63]);
    value_line(b"value 64:", &[64]);
    value_line(b"value 4000000:", &[4000000]);
    value_line(b"value 4999999:", &[4999999]);
    value_line(b"value 4000016 1:", &[4000016, 1]);
}

fn values_minted() {
    value_line(b"value 65535:", &[65535]);
    value_line(b"value 65536:", &[65536]);
    value_line(b"value 65791:", &[65791]);
    value_line(b"value 65792:", &[65792]);
    value_line(b"value 131327:", &[131327]);
    value_line(b"value 131328:", &[131328]);
}

fn values_outside() {
    value_line(b"value 196607:", &[196607]);
    value_line(b"value 196608:", &[196608]);
    value_line(b"value 196863:", &[196863]);
    value_line(b"value 196864:", &[196864]);
    value_line(
        b"value, a pair of one name from outside:",
        &[4000002, 196608, 196608],
    );
}

fn values_tuples() {
    value_line(b"value, a pair with one part:", &[4000002, 1]);
    value_line(b"value, a pair:", &[4000002, 1, 4000000]);
    value_line(b"value, a pair and a word:", &[4000002, 1, 2, 3]);
    value_line(
        b"value of 16 words:",
        &[4000015, 1, 2, 3, 4, 5, 6, 7, 8, 9, 10, 11, 12, 13, 14, 15],
    );
    value_line(
        b"value of 17 words:",
        &[
            4000002, 4000007, 1, 2, 3, 4, 5, 6, 7, 4000007, 1, 2, 3, 4, 5, 6, 7,
        ],
    );
}

// Places of a pool: the value or pattern there, in words.
fn sizes() {
    let pool: [u32; 7] = [10, 4000002, 10, 4000000, 4999999, 65536, 4000001];
    size_line(b"size of a name:", Leaf::Public, &pool, 0);
    size_line(b"size of a pair:", Leaf::Public, &pool, 1);
    size_line(b"size of a wildcard in a value:", Leaf::Public, &pool, 4);
    size_line(b"size of a wildcard in a pattern:", Leaf::Pattern, &pool, 4);
    size_line(b"size of a minted name in a table:", Leaf::Public, &pool, 5);
    size_line(b"size of a minted name in a step:", Leaf::Name, &pool, 5);
    size_line(
        b"size of a name from outside in a value:",
        Leaf::Public,
        &[196608],
        0,
    );
    size_line(
        b"size of a name from outside in a pattern:",
        Leaf::Pattern,
        &[196608],
        0,
    );
    size_line(
        b"size of a name from outside in a step:",
        Leaf::Name,
        &[196608],
        0,
    );
}

fn sizes_at_the_end() {
    let pool: [u32; 7] = [10, 4000002, 10, 4000000, 4999999, 65536, 4000001];
    size_line(b"size of a tuple past the pool:", Leaf::Public, &pool, 6);
    size_line(b"size at the pool's end:", Leaf::Public, &pool, 7);
    size_line(
        b"size of 16 words:",
        Leaf::Public,
        &[
            9, 4000015, 1, 2, 3, 4, 5, 6, 7, 8, 9, 10, 11, 12, 13, 14, 15,
        ],
        1,
    );
}

fn size_of_17_words() {
    size_line(
        b"size of 17 words:",
        Leaf::Public,
        &[
            4000002, 4000007, 1, 2, 3, 4, 5, 6, 7, 4000007, 1, 2, 3, 4, 5, 6, 7,
        ],
        0,
    );
}

fn names() {
    names_line(b"pattern (10 11):", &[4000002, 10, 11]);
    names_line(b"pattern (10 10):", &[4000002, 10, 10]);
    names_line(b"pattern (_ _):", &[4000002, 4999999, 4999999]);
    names_line(b"pattern (10 (11 10)):", &[4000002, 10, 4000002, 11, 10]);
    names_line(
        b"pattern of nine names:",
        &[4000009, 1, 2, 3, 4, 5, 6, 7, 8, 9],
    );
}

fn matches_tuples() {
    match_line(
        b"(10 11) with a pair:",
        &[4000002, 10, 11],
        &[4000002, 20, 21],
    );
    match_line(
        b"(10 11) with a triple:",
        &[4000002, 10, 11],
        &[4000003, 20, 21, 22],
    );
    match_line(b"(10 11) with a name:", &[4000002, 10, 11], &[20]);
    match_line(b"() with ():", &[4000000], &[4000000]);
    match_line(b"() with a name:", &[4000000], &[20]);
    match_line(b"() with no words:", &[4000000], &[]);
    match_line(b"no pattern with a name:", &[], &[20]);
}

fn matches_leaves() {
    match_line(b"_ with a pair:", &[4999999], &[4000002, 20, 21]);
    match_line(b"10 with a pair:", &[10], &[4000002, 20, 21]);
    match_line(b"10 with a minted name:", &[10], &[65536]);
    match_line(b"10 with a name from outside:", &[10], &[196608]);
    match_line(
        b"((10) 11) with ((20) 21):",
        &[4000002, 4000001, 10, 11],
        &[4000002, 4000001, 20, 21],
    );
    match_line(
        b"(_ 11) with ((20 21) 22):",
        &[4000002, 4999999, 11],
        &[4000002, 4000002, 20, 21, 22],
    );
    match_line(
        b"nine names with nine parts:",
        &[4000009, 1, 2, 3, 4, 5, 6, 7, 8, 9],
        &[4000009, 21, 22, 23, 24, 25, 26, 27, 28, 29],
    );
}

fn main() {
    values_short();
    values_minted();
    values_outside();
    values_tuples();
    sizes();
    sizes_at_the_end();
    size_of_17_words();
    names();
    matches_tuples();
    matches_leaves();
}
