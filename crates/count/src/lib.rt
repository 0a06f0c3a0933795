// What counting the events of a body takes: by single calls (count_each), by calls on lent memory (count_lent), by calls of many events
// (count_many).
#![tactic(auto)]

ghost use Rattle.std.specs.Prelude.{◌+◌, min, ◌≡◌};
ghost use Rattle.state.specs.Slim.{said_is};
ghost use Rattle.count.specs.Count.{version_if, used_by};

use kinds::Version;
use state::Answer;

pub fn version_if(second: bool) -> Version
    ensures { result ≡ version_if second }
{
    if second { Version::V2 } else { Version::V1 }
}

// The place past the bytes that a call used, and the end where they would reach past it.
pub fn past(at: usize, used: usize, end: usize) -> usize
    ensures { result ≡ min (at + used) end }
{
    at.saturating_add(used).min(end)
}

pub fn event_used(answer: Answer) -> Option<usize>
    ensures { result ≡ used_by (said_is answer) }
{
    match answer {
        Answer::Event { used, .. } => Some(used),
        Answer::More | Answer::Finish { .. } | Answer::Refused(_) => None,
    }
}
