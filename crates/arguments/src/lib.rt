// The arguments that stand beside a command that a reading call gave: the call leaves them out, and they are read again here.
#![tactic(auto)]

ghost use Rattle.std.specs.Prelude.{◌≡◌};
ghost use Rattle.item.specs.Contents.{no_args};
ghost use Rattle.kinds.specs.steps.Kinds.{is_command};
ghost use Rattle.arguments.specs.steps.Inside.{record_event, is_record, ArgsFor};

use fields::Args;
use kinds::{Kind, KindRead};
use packer::Part;
use state::{Answer, Event, Scalars};

const NO_PART: Part = Part { at: 0, len: 0 };

pub fn no_args() -> Args
    ensures { result ≡ no_args }
{
    Args {
        count: 0,
        parts: [NO_PART; 16],
    }
}

fn is_record_event(event: Event) -> bool
    ensures { result ≡ record_event event }
{
    matches!(event, Event::Record(_))
}

fn is_record(answer: Answer) -> bool
    ensures { result ≡ is_record answer }
{
    match answer {
        Answer::Event { event, .. } => is_record_event(event),
        _ => false,
    }
}

fn is_command(kind: Kind) -> bool
    ensures { result ≡ is_command kind }
{
    matches!(kind, Kind::ConsoleCommand)
}

// The arguments that stand beside the record that a call gave; none beside anything but a command.
pub fn args_of(answer: Answer, s: Scalars, w: &[u8]) -> Args
    ensures { ArgsFor answer s w.now result }
{
    if !is_record(answer) {
        return no_args();
    }
    let version = s.version;
    let pending = s.pending;
    let read = step::next_kind(version, pending, w);
    match read {
        KindRead::Got { kind, next } => {
            if is_command(kind) {
                let rest = records::read_rest(kind, w, next);
                let value = rest.value;
                let args = value.args;
                return args;
            }
            no_args()
        }
        KindRead::RunsOut => no_args(),
        KindRead::Refused(_) => no_args(),
    }
}
