// Replays bodies by turns, with room for a few events only, and prints their lines. Standard input holds inputs one behind the other, each
// after its length in three bytes, the low one first: a version byte, then a body.
#![tactic(auto)]

use feed::Hand;
use kinds::Version;
use refusal::Refusal;
use teams::TeamReader;

const STDOUT_FILENO: i32 = 1;

// The first n bytes.
fn print(text: &[u8], n: usize) {
    io::write_all(STDOUT_FILENO, cases::window(text, 0, n));
}

// What is at hand of a body of a length after more of it was wanted: as much again and a byte, then its end.
fn come(hand: Hand, wants: bool, len: usize) -> Hand {
    let mut next = hand;
    if wants {
        let again = cases::difference(hand.end, hand.at);
        next.end = cases::past(cases::past(hand.end, again, len), 1, len);
        next.ended = len <= hand.end;
    }
    next
}

// What a turn leaves, and whether it was the last.
#[derive(Clone, Copy)]
struct Left {
    reader: TeamReader,
    hand: Hand,
    ended: bool,
}

fn one_turn(left: Left, body: &[u8], rows: &mut [i32], tens: &mut [i32], out: &mut [u8]) -> Left {
    let reader = left.reader;
    let hand = left.hand;
    let turned = replayer::turn(
        reader,
        feed::window(body, hand),
        hand.ended,
        rows,
        tens,
        out,
    );
    print(out, turned.filled);
    let next = turned.reader;
    Left {
        reader: next,
        hand: come(feed::pass(hand, turned.used), turned.wants, body.len()),
        ended: turned.ended,
    }
}

// The body comes in pieces, a piece where a turn wants more. A turn gives an event or wants a piece, or ends; a call uses a byte or answers an
// event of a pending kind, of which there are at most two for a byte.
fn replay(version: Version, body: &[u8], rows: &mut [i32], tens: &mut [i32], out: &mut [u8]) {
    let mut left = Left {
        reader: TeamReader::empty(version),
        hand: Hand::empty(),
        ended: false,
    };
    let mut turns: usize = 0;
    while turns < 400000 {
        turns += 1;
        left = one_turn(left, body, rows, tens, out);
        if left.ended {
            return;
        }
    }
}

fn refuse(why: Refusal) {
    let text = texts::refused(why);
    let bytes = text.bytes;
    print(&bytes, text.len);
}

fn run_body(version: Version, body: &[u8]) {
    let mut rows = [0i32; 27];
    let mut tens = [0i32; 70];
    let mut out = [0u8; 600];
    replay(version, body, &mut rows, &mut tens, &mut out);
}

fn run_case(input: &[u8]) {
    match kinds::version_of(cases::first(input)) {
        Ok(version) => run_body(version, cases::window(input, 1, input.len())),
        Err(r) => refuse(r),
    }
}

fn main() {
    let mut buf = cases::buffer();
    let n = io::read_full(0, &mut buf);
    for k in 0..cases::count(&buf[..n], 3) {
        run_case(cases::nth(&buf[..n], 3, k));
    }
}
