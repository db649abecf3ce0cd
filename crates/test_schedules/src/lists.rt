// Lists of words: nodes of tables, and steps one after another.
ghost use Rattle.std.specs.Prelude.{◌≡◌, ◌-◌, ◌*◌, ◌%◌, [], ◌∷◌};
ghost use Rattle.std.proofs.lemmas.List.Edits.{sets};
ghost use Rattle.test_schedules.specs.Lists.{Added, times, nested_node, input_node, nodes_from, Turned, Turns};

// The last 16 bits of a number.
// Stays: it does not only widen; `step`, `nested_node` and `input_node` of specs/Lists.antt name what it gives.
pub fn narrow(n: usize) -> u32
    ensures { result ≡ n % 65536 }
{
    (n % 65536) as u32
}

// Words from a place on, where the list has it; the place behind them, at most the end.
pub fn append(list: &mut [u32], at: usize, words: &[u32]) -> usize
    ensures { Added list.old at words.now result list.new }
{
    let start = at.min(list.len());
    let n = words.len().min(list.len() - start);
    list[start..start + n].copy_from_slice(&words[..n]);
    start + n
}

// The same words again and again; the place behind them.
pub fn repeat(list: &mut [u32; 4400], at: usize, words: &[u32], n: usize) -> usize
    ensures { Added list.old at (times n words.now) result list.new }
{
    let mut end = append(list, at, &words[..0]);
    for _ in 0..n {
        end = append(list, end, words);
    }
    end
}

// What is added for each k from a to below b, one after another; the place behind it.
pub fn each<F: Fn(&mut [u32; 4400], usize, usize) -> usize>(
    list: &mut [u32; 4400],
    at: usize,
    a: usize,
    b: usize,
    add: F,
) -> usize
    requires { F.IsAlwaysCallable add }
    ensures { Turns (Turned (F.post add)) a (b - a) list.old at result list.new }
{
    let mut end = at;
    for k in a..b {
        end = add(list, end, k);
    }
    end
}

// Node k: its kind and its four fields; nothing where the list has no node k.
pub fn node(nodes: &mut [u32], k: usize, kind: u32, a: u32, b: u32, c: u32, d: u32)
    ensures { nodes.new ≡ sets nodes.old (5 * k) (kind ∷ a ∷ b ∷ c ∷ d ∷ []) }
{
    if k < nodes.len() / 5 + 1 {
        append(nodes, 5 * k, &[kind, a, b, c, d]);
    }
}

// Boxes (2) or `new` (3), all of the name 10, one in another, from node a to below b.
pub fn nested(nodes: &mut [u32; 4400], kind: u32, a: usize, b: usize)
    ensures { nodes.new ≡ sets nodes.old (5 * a) (nodes_from (nested_node kind) a (b - a)) }
{
    for k in a..b {
        node(nodes, k, kind, 10, narrow(k + 1), 0, 0);
    }
}

// Inputs (5) or replicated ones (6) on `in` from the parent, one in another, from node a to below b. Their patterns are at 0 of
// the pool.
pub fn inputs(nodes: &mut [u32; 4400], kind: u32, a: usize, b: usize)
    ensures { nodes.new ≡ sets nodes.old (5 * a) (nodes_from (input_node kind) a (b - a)) }
{
    for k in a..b {
        node(nodes, k, kind, 0, 1, 0, narrow(k + 1));
    }
}
