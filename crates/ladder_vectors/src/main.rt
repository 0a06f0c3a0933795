// Lists bodies by turns and prints their lists. Standard input holds inputs one behind the other, each after its length in three bytes, the
// low one first: a version byte, then a body.
#![tactic(auto)]

use feed::Hand;
use kinds::Version;
use ladder_turns::After;
use lines::Ending;
use results::Results;
use state::Reader;

const STDOUT_FILENO: i32 = 1;

// The text of a list.
fn print_list(list: Results, ending: Ending) {
    let mut text = [0u8; 5286];
    let Ok(n) = result_lines::write_list(list, ending, &mut text, 0) else {
        return;
    };
    io::write_all(STDOUT_FILENO, cases::window(&text, 0, n));
}

// What is at hand of a body of a length after more of it was wanted: as much again and a byte, then its end.
fn come(hand: Hand, wants: bool, len: usize) -> Hand {
    let mut next = hand;
    if wants {
        let again = cases::difference(hand.end, hand.at);
        next.end = cases::past(cases::past(hand.end, again, len), 1, len);
        next.ended = len <= hand.end;
    }
    next
}

// What a turn leaves, what follows it, and whether it was the last.
#[derive(Clone, Copy)]
struct Left {
    list: Results,
    reader: Reader,
    hand: Hand,
    after: After,
    ended: bool,
}

fn one_turn(left: Left, body: &[u8]) -> Left {
    let list = left.list;
    let reader = left.reader;
    let hand = left.hand;
    let turned = ladder_turns::turn(list, reader, feed::window(body, hand), hand.ended);
    let next_list = turned.list;
    let next_reader = turned.reader;
    let after = turned.after;
    Left {
        list: next_list,
        reader: next_reader,
        hand: come(feed::pass(hand, turned.used), after.wants(), body.len()),
        after,
        ended: after.ends(),
    }
}

// The body comes in pieces, a piece where a turn wants more. A turn gives an event or wants a piece, or ends; a call uses a byte or answers an
// event of a pending kind, of which there are at most two for a byte.
fn climb(version: Version, body: &[u8]) -> Left {
    let mut left = Left {
        list: Results::empty(),
        reader: Reader::empty(version),
        hand: Hand::empty(),
        after: After::GoesOn,
        ended: false,
    };
    let mut turns: usize = 0;
    while turns < 400000 {
        turns += 1;
        left = one_turn(left, body);
        if left.ended {
            return left;
        }
    }
    left
}

fn run_body(version: Version, body: &[u8]) {
    let left = climb(version, body);
    let list = left.list;
    let after = left.after;
    let After::Ends(ending) = after else {
        return;
    };
    print_list(list, ending);
}

fn run_case(input: &[u8]) {
    match kinds::version_of(cases::first(input)) {
        Ok(version) => run_body(version, cases::window(input, 1, input.len())),
        Err(refusal) => print_list(Results::empty(), Ending::Refused(refusal)),
    }
}

fn main() {
    let mut buf = cases::buffer();
    let n = io::read_full(0, &mut buf);
    for k in 0..cases::count(&buf[..n], 3) {
        run_case(cases::nth(&buf[..n], 3, k));
    }
}
