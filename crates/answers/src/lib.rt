// An answer to a step as it is given: its label or number, its side, and its value's words with zeros past them.
#![tactic(auto)]

ghost use Rattle.values.specs.Env.{view_value};
ghost use Rattle.answers.specs.Answers.{Padded};

use values::Value;

// A value with zeros past its length.
pub fn padded(v: Value) -> Value
    ensures { Padded (view_value v) result }
{
    let n = v.count();
    let mut words = [0u32; Value::LONGEST];
    words[..n].copy_from_slice(&v.words[..n]);
    Value { words, len: n }
}
