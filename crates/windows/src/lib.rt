// A body read through a window of 65,536 bytes, turn by turn. What turns print of it, for any printer, is in specs/ and proofs/; here is what
// the calls on a window come to.
#![tactic(auto)]

ghost use Rattle.std.specs.Prelude.{◌≡◌, false, cond};
ghost use Rattle.many.specs.Many.{halt_of};
ghost use Rattle.windows.specs.Windows.{ends, too_long, wants};

use many::Stop;

// Only a short window can be the last, and only where the input has ended.
pub fn is_last(ended: bool, short: bool) -> bool
    ensures { result ≡ cond ended short false }
{
    ended && short
}

// Whether a window, short or full, that answers more after so many events is too long.
pub fn is_too_long(short: bool, count: usize) -> bool
    ensures { result ≡ too_long short count }
{
    !short && count == 0
}

// Whether calls that stopped so, after so many events, end the reading.
pub fn has_ending(short: bool, stop: Stop, count: usize) -> bool
    ensures { result ≡ ends short (halt_of stop) count }
{
    match stop {
        Stop::Full => false,
        Stop::More => is_too_long(short, count),
        Stop::Finish | Stop::Refused(_) => true,
    }
}

// Whether a short window has answered more.
pub fn wants_more(short: bool, stop: Stop) -> bool
    ensures { result ≡ wants short (halt_of stop) }
{
    short && matches!(stop, Stop::More)
}
