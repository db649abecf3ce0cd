// The stranded messages of a lobby, by their positions in a lent list of words.
#![tactic(auto)]

ghost use Rattle.std.specs.Prelude.{◌≡◌, ◌++◌, ◌≤◌, length, map, drop, count_by};
ghost use Rattle.model.specs.Stranded.{is_stranded, stranded_from};
ghost use Rattle.sides.specs.Views.{view_message, view_lobby};
ghost use Rattle.listing.specs.Listing.{ListedIs};

use sides::{Lobby, Message, Status};

// The lent list is too short for the positions, which is refusal 22.
#[derive(Clone, Copy, Debug, PartialEq, Eq)]
pub struct TooShort;

// Whether a message arrived on a channel other than `out`.
fn is_stranded(m: &Message) -> bool
    ensures { result ≡ is_stranded (view_message m.now) }
{
    m.status == Status::Arrived && m.channel != 1
}

// How many of the messages are stranded.
fn count_stranded(msgs: &[Message]) -> usize
    ensures { result ≡ count_by (λ m. is_stranded (view_message m)) msgs.now }
{
    msgs.iter().filter(|m| is_stranded(m)).count()
}

// Their positions, smallest first, at the start of a list that has room for them.
fn put_stranded(msgs: &[Message], out: &mut [u32])
    requires { (length msgs.now ≤ 16) × (length (stranded_from 0 (map view_message msgs.now)) ≤ length out.old) }
    ensures { out.new ≡ stranded_from 0 (map view_message msgs.now) ++ drop (length (stranded_from 0 (map view_message msgs.now))) out.old }
{
    let mut count = 0;
    for (k, m) in msgs.iter().enumerate() {
        if is_stranded(m) {
            out[count] = k as u32;
            count += 1;
        }
    }
}

// The positions of the stranded messages of a lobby, smallest first, at the start of the lent list, whose other words stay, and how many
// they are. They are counted first, so that nothing is written where the list is too short.
pub fn list_stranded(l: Lobby, out: &mut [u32]) -> Result<usize, TooShort>
    requires { l.len ≤ 16 }
    ensures { ListedIs (stranded_from 0 (view_lobby l)) out.old out.new result }
{
    let msgs = &l.msgs[..l.len];
    let n = count_stranded(msgs);
    if out.len() < n {
        return Err(TooShort);
    }
    put_stranded(msgs, out);
    Ok(n)
}
