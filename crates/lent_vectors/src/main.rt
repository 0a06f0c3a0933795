// The reading call on lent memory and the call of many events, run. Standard input holds cases one behind the other, each after its length
// in two bytes, the low one first.
//   1 or 2, or another byte that is no version; then a body, read by the lent call and printed as lines of the replay program
//   0: the length of a name, the name, a reader as alike::reader_in takes it: by the lent call, by a call of many events and by one that
//      has no room for an event, with what became of the memory lent
#![tactic(auto)]

use kinds::Version;
use lines::Ending;
use many::{ManyAnswer, Stop};
use state::{Answer, Memory, Reader};
use teams::TeamReader;
use texts::Text;

const STDOUT_FILENO: i32 = 1;

// ---- lines

fn print(text: &[u8]) {
    io::write_all(STDOUT_FILENO, text);
}

fn print_text(text: Text) {
    let bytes = text.bytes;
    print(cases::window(&bytes, 0, text.len));
}

fn all_are(xs: &[i32], n: i32) -> bool {
    let mut i: usize = 0;
    while i < xs.len() {
        if xs[i] != n {
            return false;
        }
        i += 1;
    }
    true
}

// ---- the calls on such a reader

// PlayerNew of client 5 at 7, 8; Finish.
const BODY: [u8; 5] = [66, 5, 7, 8, 64];

// What a call is, and what became of the memory lent to it.
fn report(name: &[u8], same: bool) {
    print(name);
    if same {
        print(b", memory as it was: ");
        return;
    }
    print(b", memory changed: ");
}

// What a call on lent memory says, and what it leaves.
#[derive(Clone, Copy)]
struct LentRead {
    answer: Answer,
    reader: Reader,
    input: [i32; 10],
    former: [i32; 10],
}

fn lent_call(reader: Reader, body: &[u8]) -> LentRead {
    let scalars = reader.scalars;
    let mut m = Memory {
        entries: reader.entries,
        input: [1; 10],
        former: [2; 10],
    };
    let o = lent::read_plain(scalars, &mut m, body, true);
    let answer = o.answer;
    let left = o.scalars;
    LentRead {
        answer,
        reader: Reader {
            scalars: left,
            entries: m.entries,
        },
        input: m.input,
        former: m.former,
    }
}

fn tell(read: LentRead) {
    let answer = read.answer;
    let input = read.input;
    print_text(texts::told(answer, input));
}

// Whether the ten numbers and the former ten are as they were lent.
fn tens_kept(read: LentRead) -> bool {
    let input = read.input;
    let former = read.former;
    all_are(&input, 1) & all_are(&former, 2)
}

fn by_lent(reader: Reader) {
    let body = BODY;
    let read = lent_call(reader, &body);
    let left = read.reader;
    report(b"lent", alike::same_reader(left, reader) & tens_kept(read));
    tell(read);
}

fn print_stop(stop: Stop) {
    match stop {
        Stop::Full => print(b"full\n"),
        Stop::More => print(b"more\n"),
        Stop::Finish => print_text(texts::last(Ending::Finish)),
        Stop::Refused(r) => print_text(texts::refused(r)),
    }
}

// Whether a reader is left as it was, and without teams.
fn kept(left: TeamReader, reader: Reader) -> bool {
    let plain = left.reader;
    let teams = left.teams;
    alike::same_reader(plain, reader) & all_are(&teams, 0)
}

fn print_many(name: &[u8], many: ManyAnswer, reader: Reader, lent: bool) {
    let left = many.reader;
    let stop = many.stop;
    report(name, kept(left, reader) & lent);
    print_stop(stop);
}

// A call of many events with these rows, which are 3 all over.
fn by_many(name: &[u8], reader: Reader, rows: &mut [i32]) {
    let body = BODY;
    let mut tens = [4i32; 80];
    let given = TeamReader {
        reader,
        teams: [0; 256],
    };
    let many = many::read_many(given, &body, true, rows, &mut tens);
    print_many(name, many, reader, all_are(rows, 3) & all_are(&tens, 4));
}

// Room for four events.
fn with_room(reader: Reader) {
    let mut rows = [3i32; 32];
    by_many(b"many", reader, &mut rows);
}

// Room for no row.
fn without_room(reader: Reader) {
    let mut row = [3i32; 7];
    by_many(b"no room", reader, &mut row);
}

fn each_call(reader: Reader) {
    by_lent(reader);
    with_room(reader);
    without_room(reader);
}

fn reader_case(case: &[u8]) {
    print(cases::name(case));
    each_call(alike::reader_in(cases::behind_name(case)));
}

// ---- bodies

// A reader and its place in the body; or that it is read.
#[derive(Clone, Copy)]
struct Spot {
    reader: Reader,
    at: usize,
    over: bool,
}

// Past a call.
fn past(spot: Spot, read: LentRead, len: usize) -> Spot {
    let mut next = spot;
    let answer = read.answer;
    let left = read.reader;
    next.reader = left;
    let Some(used) = texts::used_in(answer) else {
        next.over = true;
        return next;
    };
    next.at = cases::past(spot.at, used, len);
    next
}

// A call with a window to the body's end, which is the last.
fn one_call(spot: Spot, body: &[u8]) -> Spot {
    let reader = spot.reader;
    let read = lent_call(reader, cases::window(body, spot.at, body.len()));
    tell(read);
    past(spot, read, body.len())
}

fn read_body(version: Version, body: &[u8]) {
    let reader = Reader::empty(version);
    let mut spot = Spot {
        reader,
        at: 0,
        over: false,
    };
    for _ in 0..400000usize {
        spot = one_call(spot, body);
        if spot.over {
            return;
        }
    }
}

fn run_input(version: i32, rest: &[u8]) {
    if version == 0 {
        reader_case(rest);
        return;
    }
    match kinds::version_of(version) {
        Ok(version) => read_body(version, rest),
        Err(r) => print_text(texts::refused(r)),
    }
}

fn run_case(case: &[u8]) {
    run_input(cases::first(case), cases::window(case, 1, case.len()));
}

fn main() {
    let mut buf = io::large_buffer();
    let n = io::read_full(0, &mut buf);
    for k in 0..cases::count(&buf[..n], 2) {
        run_case(cases::nth(&buf[..n], 2, k));
    }
}
