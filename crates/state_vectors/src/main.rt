// Readers that no body gives: a line for each case, its name and the answer. Refusals 17 and 18 by the reading call, 17 beside a state that
// passes; a refusal is to leave the reader unchanged. TickSkips, taken and refused, of readers that remember a client.
// Standard input holds cases one behind the other, each after its length in a byte: what it is, the length of its name, the name, bytes.
//   0: a reader, as team_alike::team_reader_in takes it; it reads a PlayerNew or, if it is closed, nothing more
//   1: a version and a body, read to its end and called twice again
//   2: a version, the length of a body, that body and another: each is read to its end, and both are to leave the same reader
//   3: a client, 100 more than it is; a reader without teams, which remembers it; a window, the last, for one call
//   4: a reader with its three bytes of teams; a client, 100 more than it is; a body, read to its end: the client's team then
// Of each PlayerTeam read in 1, 2 and 4 its client, its team and the former one are printed. A call by value is held to the one on lent memory
// and teams and, where the teams are good, to the one without teams; where they differ a line says so.
#![tactic(auto)]

mod beside;

use crate::beside::{hold_lent, hold_plain};
use item::Item;
use kinds::Version;
use state::{Answer, Event, Reader, Scalars};
use team_reading::TeamRead;
use teams::TeamReader;
use texts::Text;

const STDOUT_FILENO: i32 = 1;

fn say(text: &[u8]) {
    io::write_all(STDOUT_FILENO, text);
}

// Behind a name.
fn print(text: Text) {
    let bytes = text.bytes;
    say(b" ");
    say(cases::window(&bytes, 0, text.len));
}

// PlayerNew of client 0 at 10, 20.
const NEW: [u8; 4] = [66, 0, 10, 20];

fn start(last: bool) -> usize {
    if last { 4 } else { 0 }
}

// The reader that a call left.
fn left(read: TeamRead) -> TeamReader {
    let plain = read.read;
    let reader = plain.reader;
    let teams = read.teams;
    TeamReader { reader, teams }
}

fn compare(reader: TeamReader, next: TeamReader) {
    if !team_alike::same_team_reader(reader, next) {
        say(b"the reader is changed\n");
    }
}

// A reading call of a reader that may be bad or closed, on a PlayerNew or, as the last, on nothing: a refusal changes nothing.
fn read(reader: TeamReader, last: bool) {
    let new = NEW;
    let window = cases::window(&new, start(last), 4);
    let got = team_reading::read(reader, window, last);
    let plain = got.read;
    let answer = plain.answer;
    let input = plain.input;
    hold_lent(reader, window, last, got);
    if let Some(_) = texts::used_in(answer) {
        say(b" event\n");
        return;
    }
    print(texts::told(answer, input));
    compare(reader, left(got));
}

fn reader_case(s: &[u8]) {
    let reader = team_alike::team_reader_in(s);
    let plain = reader.reader;
    let scalars = plain.scalars;
    let standing = scalars.standing;
    read(reader, standing.is_closed());
}

fn say_team(word: &[u8], team: Option<i32>, none: &[u8]) {
    match team {
        Some(n) => print(texts::plain(word, &[n])),
        None => say(none),
    }
}

// Of a PlayerTeam its client, its team and the former one.
fn say_joining(event: Event, former: Option<i32>) {
    let Event::Record(item) = event else {
        say_elsewhere(former);
        return;
    };
    let Item::PlayerTeam { cid, team } = item else {
        say_elsewhere(former);
        return;
    };
    print(texts::plain(b"joins", &[cid, team]));
    say_team(b" from", former, b"  from none\n");
}

// Beside what is no PlayerTeam.
fn say_elsewhere(former: Option<i32>) {
    if let Some(_) = former {
        say(b"a former team beside another answer\n");
    }
}

// What a call of a body prints: the last one its answer, another a PlayerTeam.
fn tell(read: TeamRead) {
    let plain = read.read;
    let answer = plain.answer;
    let input = plain.input;
    let former = read.former;
    if let Answer::Event { event, used: _ } = answer {
        say_joining(event, former);
        return;
    }
    print(texts::told(answer, input));
    say_elsewhere(former);
}

// The last call on a window.
fn call(reader: TeamReader, window: &[u8]) -> TeamRead {
    let got = team_reading::read(reader, window, true);
    hold_lent(reader, window, true, got);
    hold_plain(reader, window, got);
    got
}

// The reader after a finish or a refusal, which is printed.
fn ended(given: TeamReader, body: &[u8]) -> TeamReader {
    let mut reader = given;
    let mut at: usize = 0;
    for _ in 0..100usize {
        let got = call(reader, cases::window(body, at, body.len()));
        let plain = got.read;
        let answer = plain.answer;
        tell(got);
        reader = left(got);
        let Some(used) = texts::used_in(answer) else {
            return reader;
        };
        at = cases::past(at, used, body.len());
    }
    reader
}

fn version_of(b: u8) -> Version {
    if b == 1 { Version::V1 } else { Version::V2 }
}

fn empty(b: u8) -> TeamReader {
    TeamReader::empty(version_of(b))
}

fn then(reader: TeamReader, last: bool) {
    say(b"  and then");
    read(reader, last);
}

fn body_case(s: &[u8]) {
    let reader = ended(empty(cases::byte(s, 0)), cases::window(s, 1, s.len()));
    then(reader, false);
    then(reader, true);
}

// The first body behind its length, then the other.
fn two_bodies(reader: TeamReader, s: &[u8]) {
    let end = cases::past(1, cases::size(cases::byte(s, 0)), s.len());
    let one = ended(reader, cases::window(s, 1, end));
    say(b"  and cut");
    let other = ended(reader, cases::window(s, end, s.len()));
    if !team_alike::same_team_reader(one, other) {
        say(b"another reader is left\n");
    }
}

fn both_case(s: &[u8]) {
    two_bodies(empty(cases::byte(s, 0)), cases::window(s, 1, s.len()));
}

fn remembering(reader: Reader, cid: i32) -> Reader {
    let s = reader.scalars;
    let version = s.version;
    let pending = s.pending;
    let standing = s.standing;
    let entries = reader.entries;
    let scalars = Scalars {
        version,
        tick: s.tick,
        inside: s.inside,
        remembered: Some(cid),
        largest: s.largest,
        pending,
        standing,
    };
    Reader { scalars, entries }
}

// What became of the client that was remembered.
fn say_client(was: i32, now: Option<i32>) {
    let Some(cid) = now else {
        say(b" forgotten");
        return;
    };
    if cid != was {
        say(b" another");
        return;
    }
    say(b" kept");
}

fn client_case(s: &[u8]) {
    let cid = cases::number(s, 0);
    let reader = remembering(alike::reader_in(cases::window(s, 1, 15)), cid);
    let got = reader::read(reader, cases::window(s, 15, s.len()), true);
    let answer = got.answer;
    let input = got.input;
    let next = got.reader;
    let scalars = next.scalars;
    let now = scalars.remembered;
    say_client(cid, now);
    print(texts::told(answer, input));
}

fn team_case(s: &[u8]) {
    let given = team_alike::team_reader_in(cases::window(s, 0, 17));
    let reader = ended(given, cases::window(s, 18, s.len()));
    say_team(
        b" in",
        team_reading::team(reader, cases::number(s, 17)),
        b"  in no team\n",
    );
}

fn run_bytes(what: u8, s: &[u8]) {
    match what {
        0 => reader_case(s),
        1 => body_case(s),
        2 => both_case(s),
        3 => client_case(s),
        _ => team_case(s),
    }
}

fn run_named(what: u8, case: &[u8]) {
    say(cases::name(case));
    run_bytes(what, cases::behind_name(case));
}

fn run_case(case: &[u8]) {
    run_named(cases::byte(case, 0), cases::window(case, 1, case.len()));
}

fn main() {
    let mut buf = io::large_buffer();
    let n = io::read_full(0, &mut buf);
    for k in 0..cases::count(&buf[..n], 1) {
        run_case(cases::nth(&buf[..n], 1, k));
    }
}
