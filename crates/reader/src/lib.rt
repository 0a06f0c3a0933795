// The reading call of a reader by value (raw.rs, Reader). The work is done by step::open_call on lent memory.
#![tactic(auto)]

ghost use Rattle.std.specs.Prelude.{◌≡◌};
ghost use Rattle.item.specs.Said.{refusing};
ghost use Rattle.state.specs.Reading.{step_of, open_call};
ghost use Rattle.state.specs.steps.Parts.{memory_of};
ghost use Rattle.reader.specs.Answers.{Tells, ReadIs};
ghost use Rattle.reader.specs.steps.Inside.{read_answer};

use fields::Args;
use refusal::Refusal;
use state::{Answer, Memory, Reader, Scalars};

// What a reading call hands back. The ten numbers and the former ten belong to an Input event, the arguments to a command; they are
// zeros and none elsewhere.
#[derive(Clone, Copy)]
pub struct ReadAnswer {
    pub answer: Answer,
    pub reader: Reader,
    pub input: [i32; 10],
    pub former: [i32; 10],
    pub args: Args,
}

// What a call on lent memory says, the scalars that it leaves, and the arguments that stand beside an event.
#[derive(Clone, Copy)]
struct Heard {
    answer: Answer,
    scalars: Scalars,
    args: Args,
}

fn answered(told: Heard, m: Memory) -> ReadAnswer
    ensures { result ≡ read_answer told.answer told.scalars m told.args }
{
    let answer = told.answer;
    let scalars = told.scalars;
    let args = told.args;
    let entries = m.entries;
    let input = m.input;
    let former = m.former;
    ReadAnswer {
        answer,
        reader: Reader { scalars, entries },
        input,
        former,
        args,
    }
}

// A refusal that changes nothing.
pub fn refused(reader: Reader, why: Refusal) -> ReadAnswer
    ensures { Tells (step_of (refusing why) reader.scalars (memory_of reader.entries)) result }
{
    let scalars = reader.scalars;
    let entries = reader.entries;
    let told = Heard {
        answer: Answer::Refused(why),
        scalars,
        args: arguments::no_args(),
    };
    answered(told, Memory::of(entries))
}

// A call on an open reader.
fn open_told(s: Scalars, m: &mut Memory, window: &[u8], last: bool) -> Heard
    ensures { Tells (open_call s m.old window.now last) (read_answer result.answer result.scalars m.new result.args) }
{
    let o = step::open_call(s, m, window, last);
    let answer = o.answer;
    let scalars = o.scalars;
    let args = arguments::args_of(answer, s, window);
    Heard {
        answer,
        scalars,
        args,
    }
}

// The reading call: the window begins at the reader's place; last says that no more bytes come.
pub fn read(reader: Reader, window: &[u8], last: bool) -> ReadAnswer
    ensures { ReadIs reader window.now last result }
{
    let scalars = reader.scalars;
    let mut m = Memory::of(reader.entries);
    if !good_reader::good_memory(scalars, &m) {
        return refused(reader, Refusal::BadState);
    }
    let standing = scalars.standing;
    if standing.is_closed() {
        return refused(reader, Refusal::Closed);
    }
    let told = open_told(scalars, &mut m, window, last);
    answered(told, m)
}
