// Reads bodies with the reader by value and prints what lookups answer: the last line, then the board by the lookups of the reader. Standard
// input holds inputs one behind the other, each after its length in three bytes, the low one first: 00, or 01 for the board after each event
// too, by the lookups of a board; a version byte; a body. The teams of a board come behind all else of its clients.
#![tactic(auto)]

use kinds::Version;
use lookups::Pos;
use state::{Event, Reader};
use team_reading::TeamRead;
use teams::TeamReader;
use texts::Text;

const STDOUT_FILENO: i32 = 1;

fn say(text: &[u8]) {
    io::write_all(STDOUT_FILENO, text);
}

// A line from a place on.
fn print_from(text: Text, at: usize) {
    let bytes = text.bytes;
    say(cases::window(&bytes, at, text.len));
}

fn print(text: Text) {
    print_from(text, 0);
}

// The started tick or none.
fn print_tick(tick: Option<i32>) {
    match tick {
        Some(t) => print(texts::plain(b"tick", &[t])),
        None => say(b"tick -\n"),
    }
}

fn print_pos(cid: i32, pos: Option<Pos>) {
    let Some(Pos { x, y }) = pos else {
        return;
    };
    print(texts::plain(b"pos", &[cid, x, y]));
}

// The line of an input event with another word in front.
fn print_inp(cid: i32, found: Option<[i32; 10]>) {
    let Some(numbers) = found else {
        return;
    };
    say(b"inp");
    print_from(texts::line(Event::Input { cid, former: false }, numbers), 5);
}

// What a client has beside its team.
#[derive(Clone, Copy)]
struct Found {
    pos: Option<Pos>,
    input: Option<[i32; 10]>,
}

// By the lookups of the reader, or by those of its board.
fn look(reader: Reader, cid: i32, on_board: bool) -> Found {
    if on_board {
        let board = back::board_of(reader);
        return Found {
            pos: back::player_pos(board, cid),
            input: back::input(board, cid),
        };
    }
    Found {
        pos: queries::player_pos(reader, cid),
        input: queries::input(reader, cid),
    }
}

fn print_client(reader: Reader, cid: i32, on_board: bool) {
    let found = look(reader, cid, on_board);
    let pos = found.pos;
    let input = found.input;
    print_pos(cid, pos);
    print_inp(cid, input);
}

// A number that fits an i32, else -1.
fn narrow(n: i64) -> i32 {
    if n < 0 {
        return -1;
    }
    if 2147483647 < n {
        return -1;
    }
    n as i32
}

// By the lookup of the reader, or by that of its board.
fn team_of(reader: TeamReader, cid: i32, on_board: bool) -> Option<i32> {
    if on_board {
        return back::team(back::team_board_of(reader), cid);
    }
    team_reading::team(reader, cid)
}

fn print_team(reader: TeamReader, cid: i32, on_board: bool) {
    let Some(n) = team_of(reader, cid, on_board) else {
        return;
    };
    print(texts::plain(b"team", &[cid, n]));
}

// The end of the range, which may be 2147483648.
fn print_cids(end: i64) {
    if end == 2147483648 {
        say(b"cids 2147483648\n");
        return;
    }
    print(texts::plain(b"cids", &[narrow(end)]));
}

// Clients 0 to 128.
fn print_clients(reader: Reader, on_board: bool) {
    for c in 0..129u32 {
        print_client(reader, num::signed(c), on_board);
    }
}

fn tick_of(reader: Reader) -> Option<i32> {
    let board = back::board_of(reader);
    let tick = board.tick;
    tick
}

// Clients 0 to 128.
fn print_teams(reader: TeamReader, on_board: bool) {
    for c in 0..129u32 {
        print_team(reader, num::signed(c), on_board);
    }
}

// Every lookup; of the clients outside 0 to 127, which have nothing, those at the ends.
fn print_board(reader: TeamReader, on_board: bool) {
    let plain = reader.reader;
    print_tick(tick_of(plain));
    print_client(plain, -2147483648, on_board);
    print_client(plain, -1, on_board);
    print_clients(plain, on_board);
    print_client(plain, 2147483647, on_board);
    print_team(reader, -2147483648, on_board);
    print_team(reader, -1, on_board);
    print_teams(reader, on_board);
    print_team(reader, 2147483647, on_board);
    print_cids(queries::cids(plain));
}

// A reader, its place in the body, and whether the body is read.
#[derive(Clone, Copy)]
struct Spot {
    reader: TeamReader,
    at: usize,
    over: bool,
}

// The reader that a call left.
fn left(read: TeamRead) -> TeamReader {
    let plain = read.read;
    let reader = plain.reader;
    let teams = read.teams;
    TeamReader { reader, teams }
}

// After an event the board's lookups, if they are asked for; at the end the last line and the reader's.
fn tell(read: TeamRead, each: bool) {
    let plain = read.read;
    let answer = plain.answer;
    let input = plain.input;
    let reader = left(read);
    if let None = texts::used_in(answer) {
        print(texts::told(answer, input));
        print_board(reader, false);
        return;
    }
    if each {
        print_board(reader, true);
    }
}

// The spot past a call.
fn past(at: usize, read: TeamRead, len: usize) -> Spot {
    let plain = read.read;
    let answer = plain.answer;
    let reader = left(read);
    match texts::used_in(answer) {
        Some(used) => Spot {
            reader,
            at: cases::past(at, used, len),
            over: false,
        },
        None => Spot {
            reader,
            at,
            over: true,
        },
    }
}

// A call whose window reaches to the body's end and is the last.
fn call(spot: Spot, body: &[u8], each: bool) -> Spot {
    let reader = spot.reader;
    let at = spot.at;
    let read = team_reading::read(reader, cases::window(body, at, body.len()), true);
    tell(read, each);
    past(at, read, body.len())
}

fn first_spot(version: Version) -> Spot {
    Spot {
        reader: TeamReader::empty(version),
        at: 0,
        over: false,
    }
}

// A body read whole. A call uses a byte or answers an event of a pending kind, of which there are at most two for a byte.
fn read_body(version: Version, body: &[u8], each: bool) {
    let mut spot = first_spot(version);
    for _ in 0..4000000usize {
        spot = call(spot, body, each);
        if spot.over {
            return;
        }
    }
}

fn run_input(input: &[u8], each: bool) {
    match kinds::version_of(cases::first(input)) {
        Ok(version) => read_body(version, cases::window(input, 1, input.len()), each),
        Err(r) => print(texts::refused(r)),
    }
}

fn run_case(case: &[u8]) {
    run_input(cases::window(case, 1, case.len()), cases::first(case) == 1);
}

fn main() {
    let mut buf = cases::buffer();
    let n = io::read_full(0, &mut buf);
    for k in 0..cases::count(&buf[..n], 3) {
        run_case(cases::nth(&buf[..n], 3, k));
    }
}
