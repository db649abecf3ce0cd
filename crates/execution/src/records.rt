// Records in a list of words: some words, the count of the value words behind them, and these.
ghost use Rattle.std.specs.Prelude.{◌≡◌};
ghost use Rattle.execution.specs.Execution.{record_end};

// Where the record at a place ends, which has so many words before its count; none where it breaks off.
pub fn record_end(list: &[u32], p: usize, before: usize) -> Option<usize>
    ensures { result ≡ record_end before list.now p }
{
    let len = list.len();
    if len.saturating_sub(p) <= before {
        return None;
    }
    let at = p + before;
    let c = list[at] as usize;
    if len - (at + 1) < c {
        return None;
    }
    Some(at + 1 + c)
}
