// The reading call with the scalars lent too, as the memory is: a thin call above the by-value step. A state that is refused 17 is
// tested for first, as in every reading call.
#![tactic(auto)]

ghost use Rattle.std.specs.Prelude.{◌≡◌};
ghost use Rattle.state.specs.Reading.{step_of, call_on};
ghost use Rattle.state.specs.Slim.{said_is};
ghost use Rattle.state.specs.Slim.{slim_step};
ghost use Rattle.state.specs.steps.Inside.{done};

use refusal::Refusal;
use state::{Answer, Memory, Outcome, Scalars};

// The call with the scalars by value: 17, and nothing changes, then 18, then the call on an open reader.
fn tested_call(s: Scalars, m: &mut Memory, w: &[u8], last: bool) -> Outcome
    ensures { done result m.new ≡ slim_step (call_on s m.old w.now last) }
{
    if !good_reader::good_memory(s, m) {
        return Outcome {
            answer: Answer::Refused(Refusal::BadState),
            scalars: s,
        };
    }
    step::good_call(s, m, w, last)
}

// The reading call: the scalars lent are those that it leaves.
pub fn read_lent(scalars: &mut Scalars, m: &mut Memory, w: &[u8], last: bool) -> Answer
    ensures { step_of (said_is result) scalars.new m.new ≡ slim_step (call_on scalars.old m.old w.now last) }
{
    let o = tested_call(*scalars, m, w, last);
    *scalars = o.scalars;
    o.answer
}
