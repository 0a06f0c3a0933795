// The ladder program's work: reading calls on the bytes at hand, and the finishes among their events.
#![tactic(auto)]

ghost use Rattle.std.specs.Prelude.{◌≡◌, min};
ghost use Rattle.calls.specs.Along.{wants_more};
ghost use Rattle.listing.specs.Listing.{halt_of};
ghost use Rattle.ladder_turns.specs.Ladder.{next_of, read_follows, is_over, next_is, turn_on, turned_is};

use lines::Ending;
use listing::End;
use results::Results;
use state::Reader;

const FULL: usize = 65536;

// What follows a turn: another one, a read, or the end.
#[derive(Clone, Copy)]
pub enum After {
    GoesOn,
    Wants,
    Ends(Ending),
}

impl After {
    pub fn wants(self) -> bool
        ensures { result ≡ read_follows (next_is self) }
    {
        matches!(self, After::Wants)
    }

    pub fn ends(self) -> bool
        ensures { result ≡ is_over (next_is self) }
    {
        matches!(self, After::Ends(_))
    }
}

// What a turn leaves.
#[derive(Clone, Copy)]
pub struct ListTurn {
    pub list: Results,
    pub reader: Reader,
    pub used: usize,
    pub after: After,
}

// After a window, short or full, that answers more.
fn after_more(short: bool, gave: bool) -> After
    ensures { next_is result ≡ next_of short wants_more gave }
{
    if short {
        return After::Wants;
    }
    if gave {
        return After::GoesOn;
    }
    After::Ends(Ending::TooLong)
}

fn after_turn(short: bool, end: End, gave: bool) -> After
    ensures { next_is result ≡ next_of short (halt_of end) gave }
{
    match end {
        End::More => after_more(short, gave),
        End::Finish => After::Ends(Ending::Finish),
        End::Refused(refusal) => After::Ends(Ending::Refused(refusal)),
    }
}

// All the reading calls that the window at the front of the bytes allows, and their finishes into the list. The bytes are those at hand from
// the reader's place on; where the input has ended, they are all that are left.
pub fn turn(list: Results, reader: Reader, bytes: &[u8], ended: bool) -> ListTurn
    ensures { turned_is result ≡ turn_on list reader bytes.now ended }
{
    let short = bytes.len() < FULL;
    let end = bytes.len().min(FULL);
    let read = listing::read_on(list, reader, &bytes[..end], windows::is_last(ended, short));
    let stop = read.end;
    let next_list = read.list;
    let next_reader = read.reader;
    ListTurn {
        list: next_list,
        reader: next_reader,
        used: read.used,
        after: after_turn(short, stop, read.gave),
    }
}
