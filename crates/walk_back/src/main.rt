// Demand 3 seen running. Each body is read to its end; then the board is stepped back over its events, last first, to the empty board.
// Every board on the way, with its teams, is compared with the one that reading had there. The events are printed as they are taken off, and `empty` at
// the end. Standard input holds inputs one behind the other, each after its length in two bytes, the low one first: a version byte, then a
// body.
#![tactic(auto)]

use back::{BackAnswer, SteppedBack, TeamBoard};
use kinds::Version;
use refusal::Refusal;
use state::Answer;
use team_reading::TeamRead;
use teams::TeamReader;
use texts::Text;

const STDOUT_FILENO: i32 = 1;

fn say(text: &[u8]) {
    io::write_all(STDOUT_FILENO, text);
}

fn print(text: Text) {
    let bytes = text.bytes;
    say(cases::window(&bytes, 0, text.len));
}

// A reader, its place in the body, how many events it has read, and whether no other follows.
#[derive(Clone, Copy)]
struct Spot {
    reader: TeamReader,
    at: usize,
    events: usize,
    over: bool,
}

// A reading call at a spot; the window reaches to the body's end.
fn read_at(spot: Spot, body: &[u8]) -> TeamRead {
    let reader = spot.reader;
    team_reading::read(reader, cases::window(body, spot.at, body.len()), true)
}

// The spot past the event of a call at a spot.
fn past(spot: Spot, read: TeamRead, len: usize) -> Spot {
    let mut next = spot;
    let plain = read.read;
    let teams = read.teams;
    let answer = plain.answer;
    let left = plain.reader;
    let reader = TeamReader {
        reader: left,
        teams,
    };
    let Some(used) = texts::used_in(answer) else {
        next.over = true;
        return next;
    };
    next.reader = reader;
    next.at = cases::past(spot.at, used, len);
    next.events = cases::past(spot.events, 1, 100000);
    next
}

fn first_spot(version: Version) -> Spot {
    Spot {
        reader: TeamReader::empty(version),
        at: 0,
        events: 0,
        over: false,
    }
}

// The reader after so many events, or after as many as there are.
fn after(version: Version, body: &[u8], most: usize) -> Spot {
    let mut spot = first_spot(version);
    for _ in 0..most {
        spot = past(spot, read_at(spot, body), body.len());
        if spot.over {
            return spot;
        }
    }
    spot
}

// The event of a call taken off a board; where it has none, as if that were refused.
fn undone(board: TeamBoard, read: TeamRead) -> SteppedBack {
    let plain = read.read;
    let team = read.former;
    let answer = plain.answer;
    let input = plain.input;
    let former = plain.former;
    let Answer::Event { event, used: _ } = answer else {
        return SteppedBack {
            answer: BackAnswer::Refused(Refusal::NotLast),
            board,
        };
    };
    stepping::step_back(board, event, input, former, team)
}

// The board that a step back gave, which is to be that of a reader.
fn compared(stepped: SteppedBack, reader: TeamReader) -> TeamBoard {
    let answer = stepped.answer;
    let board = stepped.board;
    if let BackAnswer::Refused(_) = answer {
        say(b"a step back is refused\n");
    }
    if !team_alike::same_team_board(board, back::team_board_of(reader)) {
        say(b"another board\n");
    }
    board
}

fn print_event(read: TeamRead) {
    let plain = read.read;
    let answer = plain.answer;
    let input = plain.input;
    print(texts::told(answer, input));
}

// One step back over the event of the call at a spot.
fn one_back(board: TeamBoard, spot: Spot, body: &[u8]) -> TeamBoard {
    let reader = spot.reader;
    let read = read_at(spot, body);
    print_event(read);
    compared(undone(board, read), reader)
}

// The board before so many events.
fn back_over(version: Version, body: &[u8], n: usize, last: TeamBoard) -> TeamBoard {
    let mut board = last;
    for k in 0..n {
        let left = cases::difference(cases::difference(n, k), 1);
        board = one_back(board, after(version, body, left), body);
    }
    board
}

fn board_at(spot: Spot) -> TeamBoard {
    let reader = spot.reader;
    back::team_board_of(reader)
}

fn walk(version: Version, body: &[u8]) {
    let last = after(version, body, 100000);
    let first = back_over(version, body, last.events, board_at(last));
    if team_alike::same_team_board(first, board_at(first_spot(version))) {
        say(b"empty\n");
    }
}

fn run_case(input: &[u8]) {
    let Ok(version) = kinds::version_of(cases::first(input)) else {
        return;
    };
    walk(version, cases::window(input, 1, input.len()));
}

fn main() {
    let mut buf = io::large_buffer();
    let n = io::read_full(0, &mut buf);
    for k in 0..cases::count(&buf[..n], 2) {
        run_case(cases::nth(&buf[..n], 2, k));
    }
}
