// A call by value, held to the others on the same reader and window.
use crate::{left, say};
use state::{Answer, Entries, Memory, Reader, Scalars};
use team_reading::{TeamOutcome, TeamRead};
use teams::TeamReader;

// Which answer it is, and the bytes used or the number of the refusal.
fn numbers_of(answer: Answer) -> [usize; 2] {
    match answer {
        Answer::Event { event: _, used } => [0, used],
        Answer::More => [1, 0],
        Answer::Finish { used } => [2, used],
        Answer::Refused(why) => [3, cases::size(why.number())],
    }
}

fn same_answer(a: Answer, b: Answer) -> bool {
    let one = numbers_of(a);
    let other = numbers_of(b);
    (one[0] == other[0]) & (one[1] == other[1])
}

fn same_team(a: Option<i32>, b: Option<i32>) -> bool {
    (teams::mark_for(a) == teams::mark_for(b)) & (teams::number_for(a) == teams::number_for(b))
}

fn reader_of(scalars: Scalars, entries: Entries, teams: [i32; 256]) -> TeamReader {
    TeamReader {
        reader: Reader { scalars, entries },
        teams,
    }
}

fn same_read(lent: TeamOutcome, entries: Entries, teams: [i32; 256], got: TeamRead) -> bool {
    let outcome = lent.outcome;
    let scalars = outcome.scalars;
    let first = outcome.answer;
    let one = lent.former;
    let plain = got.read;
    let second = plain.answer;
    let other = got.former;
    team_alike::same_team_reader(reader_of(scalars, entries, teams), left(got))
        & same_answer(first, second)
        & same_team(one, other)
}

// Whether the call on lent memory and teams answers and leaves the same.
fn same_lent(reader: TeamReader, window: &[u8], last: bool, got: TeamRead) -> bool {
    let mut teams = reader.teams;
    let plain = reader.reader;
    let scalars = plain.scalars;
    let mut m = Memory::of(plain.entries);
    let lent = team_reading::read_lent(scalars, &mut m, &mut teams, window, last);
    same_read(lent, m.entries, teams, got)
}

pub fn hold_lent(reader: TeamReader, window: &[u8], last: bool, got: TeamRead) {
    if !same_lent(reader, window, last, got) {
        say(b"on lent memory it differs\n");
    }
}

// The last call on a window, of a reader with good teams.
pub fn hold_plain(reader: TeamReader, window: &[u8], got: TeamRead) {
    let given = reader.reader;
    let read = reader::read(given, window, true);
    let first = read.answer;
    let one = read.reader;
    let plain = got.read;
    let second = plain.answer;
    let other = plain.reader;
    if !(alike::same_reader(one, other) & same_answer(first, second)) {
        say(b"without teams it differs\n");
    }
}
