// A run under the filter. One pool serves all tables: at 0 the wildcard, at 1 the name 10, at 2 the pair (10 10), at 5 the name
// 20, at 6 the names 10 to 17 in a tuple.
use test_schedules::tried::filtered_ends;

// A run of 256 nodes with the first n words of a list as steps: lines for the answers before one index and from another on.
pub fn ends(
    name: &[u8],
    nodes: &[u32; 4400],
    list: &[u32; 4400],
    n: usize,
    first: usize,
    second: usize,
) {
    let pool = [
        4999999u32, 10, 4000002, 10, 10, 20, 4000008, 10, 11, 12, 13, 14, 15, 16, 17,
    ];
    filtered_ends(name, nodes, 1280, &pool, list, n, first, second);
}

// The same with lines for all answers.
pub fn tried(name: &[u8], nodes: &[u32; 4400], list: &[u32; 4400], n: usize) {
    ends(name, nodes, list, n, 1000, 1000);
}
