// A node's words, and how it uses its four fields.
ghost use Rattle.std.specs.Prelude.{◌≡◌, Bool, List, ℕ, get_or};
ghost use Rattle.model.specs.Table.{field, uses};
ghost use Rattle.tables.specs.Nodes.{table, NodeIs, KindIs};
ghost use Rattle.tables.specs.Fields.{use_number, TestsFields, AnyField, four_fields};

// What a node is.
#[derive(Clone, Copy, PartialEq, Eq)]
pub enum Kind {
    // 0: nothing
    Nil,
    // 1: two terms side by side
    Par,
    // 2: a box
    Box,
    // 3: a new name
    New,
    // 4: an output
    Out,
    // 5: an input
    In,
    // 6: a replicated input
    Rep,
}

// A node: the word of its kind, and its fields 1 to 4.
#[derive(Clone, Copy)]
pub struct Node {
    pub word: usize,
    pub a: usize,
    pub b: usize,
    pub c: usize,
    pub d: usize,
}

// How a node uses a field.
#[derive(Clone, Copy, PartialEq, Eq)]
pub enum Use {
    Unused,
    // the number of a child
    Child,
    // a name
    Name,
    // a tag
    Tag,
    // the place of a value in the pool
    Value,
    // the place of a pattern in the pool
    Pattern,
}

// Word k of node n: the kind, then four fields; 0 past the end.
pub fn field_at(nodes: &[u32], n: usize, k: usize) -> u32
    ensures { (pool : List ℕ) → result ≡ field (table nodes.now pool) n k }
{
    if n <= nodes.len() / 5 && k < nodes.len() - 5 * n {
        nodes[5 * n + k]
    } else {
        0
    }
}

// Node n, field by field. Past the last whole node some fields are 0, or all.
fn node_by_fields(nodes: &[u32], n: usize) -> Node
    ensures { NodeIs nodes.now n result }
{
    Node {
        word: field_at(nodes, n, 0) as usize,
        a: field_at(nodes, n, 1) as usize,
        b: field_at(nodes, n, 2) as usize,
        c: field_at(nodes, n, 3) as usize,
        d: field_at(nodes, n, 4) as usize,
    }
}

// Node n.
pub fn node_at(nodes: &[u32], n: usize) -> Node
    ensures { NodeIs nodes.now n result }
{
    if n < nodes.len() / 5 {
        let p = 5 * n;
        Node {
            word: nodes[p] as usize,
            a: nodes[p + 1] as usize,
            b: nodes[p + 2] as usize,
            c: nodes[p + 3] as usize,
            d: nodes[p + 4] as usize,
        }
    } else {
        node_by_fields(nodes, n)
    }
}

// How each kind of node uses its four fields.
const USES: [[Use; 4]; 7] = [
    [Use::Unused, Use::Unused, Use::Unused, Use::Unused],
    [Use::Child, Use::Child, Use::Unused, Use::Unused],
    [Use::Name, Use::Child, Use::Unused, Use::Unused],
    [Use::Name, Use::Child, Use::Unused, Use::Unused],
    [Use::Name, Use::Tag, Use::Value, Use::Unused],
    [Use::Name, Use::Tag, Use::Pattern, Use::Child],
    [Use::Name, Use::Tag, Use::Pattern, Use::Child],
];

// How kind k uses the field f + 1; unused, where there is no such kind or field.
pub fn use_of(k: usize, f: usize) -> Use
    ensures { use_number result ≡ get_or (uses k) f 0 }
{
    if k < 7 && f < 4 {
        USES[k][f]
    } else {
        Use::Unused
    }
}

impl Node {
    // What it is. A word past 6, which check 2 refuses, is read as an input.
    pub fn kind(self) -> Kind
        ensures { KindIs self.word result }
    {
        match self.word {
            0 => Kind::Nil,
            1 => Kind::Par,
            2 => Kind::Box,
            3 => Kind::New,
            4 => Kind::Out,
            6 => Kind::Rep,
            _ => Kind::In,
        }
    }

    // Whether each field passes a test of its use and its word.
    pub(crate) fn all_fields<F: Fn(Use, usize) -> bool>(self, passes: F) -> bool
        requires { F.IsAlwaysCallable passes }
        ensures { (p : ℕ → ℕ → Bool) → TestsFields (F.post passes) p → result ≡ four_fields p self }
    {
        passes(use_of(self.word, 0), self.a)
            && passes(use_of(self.word, 1), self.b)
            && passes(use_of(self.word, 2), self.c)
            && passes(use_of(self.word, 3), self.d)
    }

    // Whether a field passes a test of its use and its word.
    // Stays beside `all_fields`: said by that one it would be two negations, one of them inside the closure.
    pub fn any_field<F: Fn(Use, usize) -> bool>(self, passes: F) -> bool
        requires { F.IsAlwaysCallable passes }
        ensures { AnyField (F.post passes) self result }
    {
        passes(use_of(self.word, 0), self.a)
            || passes(use_of(self.word, 1), self.b)
            || passes(use_of(self.word, 2), self.c)
            || passes(use_of(self.word, 3), self.d)
    }
}
