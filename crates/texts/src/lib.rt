// What test programs print of a reading: lines by value.
#![tactic(auto)]

ghost use Rattle.std.specs.Prelude.{◌≡◌};
ghost use Rattle.lines.specs.Lines.{line_of, last_line};
ghost use Rattle.state.specs.Views.{event_is};
ghost use Rattle.texts.specs.Texts.{text_with, line_text, plain_text, told_text, used_of, no_text};

use lines::Ending;
use refusal::Refusal;
use state::{Answer, Event};

// Bytes, of which the first so many count.
#[derive(Clone, Copy)]
pub struct Text {
    pub bytes: [u8; 138],
    pub len: usize,
}

fn text_of(bytes: [u8; 138], wrote: Result<usize, Refusal>) -> Text
    ensures { result ≡ text_with bytes wrote }
{
    match wrote {
        Ok(len) => Text { bytes, len },
        Err(_) => Text { bytes, len: 0 },
    }
}

// The line of an event.
pub fn line(event: Event, input: [i32; 10]) -> Text
    ensures { result ≡ line_text (line_of (event_is event) input) }
{
    let mut bytes = [0u8; 138];
    let wrote = event_lines::write_line(event, input, &mut bytes, 0);
    text_of(bytes, wrote)
}

// The last line.
pub fn last(ending: Ending) -> Text
    ensures { result ≡ line_text (last_line ending) }
{
    let mut bytes = [0u8; 138];
    let wrote = lines::write_last(ending, &mut bytes, 0);
    text_of(bytes, wrote)
}

// A word and numbers; nothing where they are too long.
pub fn plain(word: &[u8], ns: &[i32]) -> Text
    ensures { result ≡ plain_text word.now ns.now }
{
    let mut bytes = [0u8; 138];
    let wrote = lines::write_plain(word, ns, &mut bytes, 0);
    text_of(bytes, wrote)
}

pub fn refused(why: Refusal) -> Text
    ensures { result ≡ line_text (last_line (Ending.Refused why)) }
{
    last(Ending::Refused(why))
}

fn nothing() -> Text
    ensures { result ≡ no_text }
{
    Text {
        bytes: [0; 138],
        len: 0,
    }
}

// What an answer prints: the line of its event, or the last line; nothing where more bytes are wanted.
pub fn told(answer: Answer, input: [i32; 10]) -> Text
    ensures { result ≡ told_text answer input }
{
    match answer {
        Answer::Event { event, used: _ } => line(event, input),
        Answer::More => nothing(),
        Answer::Finish { used: _ } => last(Ending::Finish),
        Answer::Refused(why) => refused(why),
    }
}

pub fn used_in(answer: Answer) -> Option<usize>
    ensures { result ≡ used_of answer }
{
    match answer {
        Answer::Event { event: _, used } => Some(used),
        Answer::More => None,
        Answer::Finish { used: _ } => None,
        Answer::Refused(_) => None,
    }
}
