// The reading call on lent memory, with the scalars by value: they are lent from a local, so that covered code reaches the call that
// takes them lent.
#![tactic(auto)]

ghost use Rattle.std.specs.Prelude.{◌≡◌};
ghost use Rattle.state.specs.Reading.{call_on};
ghost use Rattle.state.specs.Slim.{slim_step};
ghost use Rattle.state.specs.steps.Inside.{done};

use state::{Memory, Outcome, Scalars};

// The reading call.
pub fn read_plain(scalars: Scalars, m: &mut Memory, w: &[u8], last: bool) -> Outcome
    ensures { done result m.new ≡ slim_step (call_on scalars m.old w.now last) }
{
    let mut s = scalars;
    let answer = lending::read_lent(&mut s, m, w, last);
    Outcome { answer, scalars: s }
}
