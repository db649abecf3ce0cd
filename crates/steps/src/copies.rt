// The copies that leave of a message that enters or passes: one on `log`, where the side is logged.
ghost use Rattle.std.specs.Prelude.{◌≡◌, ◌++◌, ◌+◌, ◌≤◌, length};
ghost use Rattle.model.specs.Basics.{◌&◌};
ghost use Rattle.model.specs.Step.{copied};
ghost use Rattle.values.specs.Env.{view_value};
ghost use Rattle.wrappers.specs.Copies.{log_if};
ghost use Rattle.sides.specs.Views.{view_lobby, fits_lobby};
ghost use Rattle.sides.specs.Holding.{LobbyIs};
ghost use Rattle.steps.specs.Asked.{copy_fits};

use sides::{Lobby, Message, Status};
use values::Value;

// How many copies leave.
pub(crate) fn copies(logging: bool) -> usize
    ensures { result ≡ length (log_if logging) }
{
    if logging { 1 } else { 0 }
}

// A lobby with the copies of v added.
pub(crate) fn with_copies(l: Lobby, logging: bool, v: Value) -> Lobby
    requires { l.len + length (log_if logging) ≤ 16 }
    ensures { LobbyIs (view_lobby l ++ copied (log_if logging) (view_value v)) (l.len + length (log_if logging)) (fits_lobby l & copy_fits v) result }
{
    if logging {
        l.with(Message::new(Status::Leaving, 3, v))
    } else {
        l
    }
}
