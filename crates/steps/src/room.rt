// Room in the lobby and on the shelf: 17.
ghost use Rattle.std.specs.Prelude.{◌+◌, ◌<◌, ◌≤◌};
ghost use Rattle.steps.specs.Asked.{OfferIf};

use crate::Offer;
use sides::Side;

// Whether a lobby of n messages has room for so many more. The answer is k, the position or the value length of what is to be added.
pub(crate) fn lobby_offer(n: usize, more: usize, k: usize) -> Offer
    requires { (n ≤ 16) × (more ≤ 2) }
    ensures { OfferIf (n + more ≤ 16) k 17 result }
{
    if !Side::lobby_within(n + more) {
        return Offer::Refused(17);
    }
    Offer::At(k)
}

// Whether a shelf of n values has room for one more. The position is the place that it takes.
pub(crate) fn shelf_offer(n: usize) -> Offer
    requires { n ≤ 32 }
    ensures { OfferIf (n < 32) n 17 result }
{
    if !Side::shelf_within(n + 1) {
        return Offer::Refused(17);
    }
    Offer::At(n)
}
