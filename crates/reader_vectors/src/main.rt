// Reads bodies with the reader by value and prints their lines, in the form of the replay program. Standard input holds inputs one behind
// the other, each after its length in two bytes, the low one first: 00, or 01 for a body that arrives byte by byte; a version byte; a body.
// Whole, a body's window reaches to its end and is the last. Byte by byte, the windows grow by one byte, the flag off until no byte is left:
// `more` stands, with the reader's place and the bytes at hand, wherever these run out; such a call is to change nothing.
#![tactic(auto)]

use kinds::Version;
use state::{Answer, Reader};
use texts::Text;

const STDOUT_FILENO: i32 = 1;

fn print(text: Text) {
    let bytes = text.bytes;
    io::write_all(STDOUT_FILENO, cases::window(&bytes, 0, text.len));
}

fn number(n: usize) -> i32 {
    if n < 65536 {
        return n as i32;
    }
    65536
}

// Where a body stands: the place in it, the end of the bytes at hand, and whether the flag is on; or that it is read.
#[derive(Clone, Copy)]
struct Place {
    at: usize,
    end: usize,
    last: bool,
    over: bool,
}

// What an answer prints.
fn tell(place: Place, answer: Answer, input: [i32; 10]) {
    let Answer::More = answer else {
        print(texts::told(answer, input));
        return;
    };
    print(texts::plain(b"more", &[number(place.at), number(place.end)]));
}

// A call that wants more bytes is to leave the reader as it was.
fn compare(answer: Answer, before: Reader, next: Reader) {
    let Answer::More = answer else {
        return;
    };
    if !alike::same_reader(before, next) {
        io::write_all(STDOUT_FILENO, b"more changes the reader\n");
    }
}

// One byte more at hand; or the flag.
fn grown(place: Place, len: usize) -> Place {
    let mut next = place;
    if place.end < len {
        next.end = place.end + 1;
    } else {
        next.last = true;
    }
    next
}

// Where a body stands after an answer.
fn after(place: Place, answer: Answer, len: usize) -> Place {
    let mut next = place;
    match answer {
        Answer::Event { event: _, used } => next.at = cases::past(place.at, used, place.end),
        Answer::More => next = grown(place, len),
        Answer::Finish { used: _ } => next.over = true,
        Answer::Refused(_) => next.over = true,
    }
    next
}

// Where a body begins: with nothing at hand, or with the whole of it.
fn first_place(whole: bool, len: usize) -> Place {
    Place {
        at: 0,
        end: if whole { len } else { 0 },
        last: whole,
        over: false,
    }
}

// A call uses a byte, answers an event of a pending kind, of which there are at most two for a byte, or wants a byte.
fn read_body(version: Version, body: &[u8], first: Place) {
    let mut reader = Reader::empty(version);
    let mut place = first;
    for _ in 0..400000usize {
        let read = reader::read(reader, cases::window(body, place.at, place.end), place.last);
        let answer = read.answer;
        let input = read.input;
        let next = read.reader;
        tell(place, answer, input);
        compare(answer, reader, next);
        place = after(place, answer, body.len());
        if place.over {
            return;
        }
        reader = next;
    }
}

fn run_input(whole: bool, input: &[u8]) {
    let body = cases::window(input, 1, input.len());
    match kinds::version_of(cases::first(input)) {
        Ok(version) => read_body(version, body, first_place(whole, body.len())),
        Err(r) => print(texts::refused(r)),
    }
}

fn run_case(case: &[u8]) {
    run_input(
        cases::byte(case, 0) == 0,
        cases::window(case, 1, case.len()),
    );
}

fn main() {
    let mut buf = io::large_buffer();
    let n = io::read_full(0, &mut buf);
    for k in 0..cases::count(&buf[..n], 2) {
        run_case(cases::nth(&buf[..n], 2, k));
    }
}
