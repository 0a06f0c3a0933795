// The record call: a record at the start of a window, by its version.
#![tactic(auto)]

ghost use Rattle.std.specs.Prelude.{◌≡◌};
ghost use Rattle.record_call.specs.Calls.{Called};
ghost use Rattle.record_call.specs.steps.Said.{said_of};

use item::Record;
use kinds::Version;
use records::RecordAnswer;
use refusal::Refusal;

// What the record call answers: the bytes used, more, or a refusal.
#[derive(Clone, Copy)]
pub enum CallAnswer {
    Got(usize),
    More,
    Refused(Refusal),
}

// The record stands beside the answer; it is a blank one where there is none.
#[derive(Clone, Copy)]
pub struct RecordCall {
    pub answer: CallAnswer,
    pub value: Record,
}

// What is said of a record that was read, or of one whose bytes run out.
fn said_of(answer: RecordAnswer, last: bool) -> CallAnswer
    ensures { result ≡ said_of answer last }
{
    match answer {
        RecordAnswer::Got(next) => CallAnswer::Got(next),
        RecordAnswer::RunsOut => {
            if last {
                return CallAnswer::Refused(Refusal::UnexpectedEnd);
            }
            CallAnswer::More
        }
        RecordAnswer::Refused(r) => CallAnswer::Refused(r),
    }
}

// The record call: the window begins at a record; last says that no more bytes come.
pub fn record_call(version: Version, s: &[u8], last: bool) -> RecordCall
    ensures { Called version s.now last result }
{
    let read = records::read_record(version, s);
    let answer = read.answer;
    let value = read.value;
    RecordCall {
        answer: said_of(answer, last),
        value,
    }
}
