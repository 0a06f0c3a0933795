// Brings readers to wanted boards. Standard input holds cases one behind the other, each after its length in three bytes, the low one first. A
// case has four parts, each after its length in the same way:
//   - the room of the target and how many events are read for the reader and for the board, in four bytes each, the low one first
//   - the reader: a version byte and a body, read with the flag off; or 00, a reader as team_alike::team_reader_in takes it, and the client that
//     it remembers, 255 for none
//   - the board: that of such a reader; of the same reader, if nothing is there
//   - what is changed on that board, each change after its length in a byte: what it is, a client, a number in four bytes. 0 to 9: that number of
//     its inputs; 10: the mark of its position, 11: x, 12: y; 13: the mark of its inputs; 14: the tick; 15: outside a tick; 16: the mark of its
//     team, 17: its number
// A line for each: the bytes that are written in hex, `-` for none, and how many events they give; or the refusal. The call is made by value and on
// lent arrays, with much room, with just enough and with a byte less. The bytes are read by the same reader, whole and byte by byte, unless it was
// made by hand. Where something doesn't hold a line says so.
#![tactic(auto)]

ghost use Rattle.std.specs.Prelude.{◌≡◌, ◌≤◌, length};

use back::{Board, TeamBoard};
use kinds::{Kind, Version};
use refusal::Refusal;
use state::{Answer, Entries, Reader, Scalars};
use team_reading::TeamRead;
use teams::TeamReader;

const STDOUT_FILENO: i32 = 1;

// ---- lines

fn say(text: &[u8]) {
    io::write_all(STDOUT_FILENO, text);
}

fn say_unless(holds: bool, text: &[u8]) {
    if !holds {
        say(text);
    }
}

fn byte_number(b: u8) -> u64 {
    b as u64
}

fn print_bytes(b: &[u8]) {
    let mut i: usize = 0;
    while i < b.len() {
        io::print_hex(STDOUT_FILENO, byte_number(b[i]), 2);
        i += 1;
    }
}

fn print_refused(number: u8) {
    say(b"refused ");
    io::print_decimal(STDOUT_FILENO, byte_number(number));
    say(b"\n");
}

// The number in the first four bytes, the low one first.
fn wide(s: &[u8]) -> u32 {
    let low = cases::byte(s, 0) as u32 + 256 * cases::byte(s, 1) as u32;
    low + 65536 * cases::byte(s, 2) as u32 + 16777216 * cases::byte(s, 3) as u32
}

// ---- reading

// A reader, its place in a body and the end of the bytes at hand, the events that may still come, and whether reading is over; by finish or a
// refusal, if it is closed.
#[derive(Clone, Copy)]
struct Spot {
    reader: TeamReader,
    at: usize,
    end: usize,
    most: usize,
    over: bool,
    closed: bool,
}

// One byte more at hand, if there is one.
fn grown(spot: Spot, len: usize) -> Spot {
    let mut next = spot;
    if spot.end < len {
        next.end = spot.end + 1;
    } else {
        next.over = true;
    }
    next
}

fn after(spot: Spot, answer: Answer, len: usize) -> Spot {
    let mut next = spot;
    match answer {
        Answer::Event { event: _, used } => {
            next.at = cases::past(spot.at, used, spot.end);
            next.most = cases::difference(spot.most, 1);
            next.over = spot.most <= 1;
        }
        Answer::More => next = grown(spot, len),
        Answer::Finish { used: _ } => next.closed = true,
        Answer::Refused(_) => next.closed = true,
    }
    next
}

fn reader_after(read: TeamRead) -> TeamReader {
    let plain = read.read;
    let reader = plain.reader;
    let teams = read.teams;
    TeamReader { reader, teams }
}

// The flag is off. The windows reach to the end of the bytes, or grow byte by byte.
fn read_on(given: TeamReader, body: &[u8], end: usize, most: usize) -> Spot {
    let mut spot = Spot {
        reader: given,
        at: 0,
        end,
        most,
        over: most == 0,
        closed: false,
    };
    for _ in 0..400000usize {
        if spot.over | spot.closed {
            return spot;
        }
        let reader = spot.reader;
        let read = team_reading::read(reader, cases::window(body, spot.at, spot.end), false);
        let plain = read.read;
        let answer = plain.answer;
        spot = after(spot, answer, body.len());
        spot.reader = reader_after(read);
    }
    spot
}

// ---- readers and boards

fn version_of(b: u8) -> Version {
    if b == 1 { Version::V1 } else { Version::V2 }
}

fn remembering(reader: Reader, cid: i32) -> Reader {
    if cid == 255 {
        return reader;
    }
    let s = reader.scalars;
    let version = s.version;
    let pending = s.pending;
    let standing = s.standing;
    let entries = reader.entries;
    let scalars = Scalars {
        version,
        tick: s.tick,
        inside: s.inside,
        remembered: Some(cid),
        largest: s.largest,
        pending,
        standing,
    };
    Reader { scalars, entries }
}

fn reader_by_hand(given: &[u8]) -> TeamReader {
    let made = team_alike::team_reader_in(given);
    let plain = made.reader;
    let teams = made.teams;
    TeamReader {
        reader: remembering(plain, cases::first(cases::window(given, 17, given.len()))),
        teams,
    }
}

fn reader_of(input: &[u8], most: usize) -> TeamReader {
    let rest = cases::window(input, 1, input.len());
    let version = cases::byte(input, 0);
    if version == 0 {
        return reader_by_hand(rest);
    }
    let spot = read_on(
        TeamReader::empty(version_of(version)),
        rest,
        rest.len(),
        most,
    );
    let reader = spot.reader;
    reader
}

fn with_entry(entries: Entries, what: usize, c: usize, n: i32, mark: u8) -> Entries {
    if 128 <= c {
        return entries;
    }
    let mut made = entries;
    match what {
        10 => made.marks[c] = mark,
        11 => made.xs[c] = n,
        12 => made.ys[c] = n,
        13 => made.held[c] = mark,
        _ => {
            if what < 10 {
                made.inputs[10 * c + what] = n;
            }
        }
    }
    made
}

fn with_team(teams: [i32; 256], what: usize, c: usize, n: i32) -> [i32; 256] {
    if 128 <= c {
        return teams;
    }
    let mut made = teams;
    if what == 16 {
        made[2 * c] = n;
    }
    if what == 17 {
        made[2 * c + 1] = n;
    }
    made
}

fn with_tick(tick: Option<i32>, what: usize, n: i32) -> Option<i32> {
    match what {
        14 => Some(n),
        15 => None,
        _ => tick,
    }
}

fn changed(board: TeamBoard, change: &[u8]) -> TeamBoard {
    let plain = board.board;
    let teams = board.teams;
    let tick = plain.tick;
    let entries = plain.entries;
    let what = cases::size(cases::byte(change, 0));
    let c = cases::size(cases::byte(change, 1));
    let n = num::signed(wide(cases::window(change, 2, 6)));
    TeamBoard {
        board: Board {
            tick: with_tick(tick, what, n),
            entries: with_entry(entries, what, c, n, cases::byte(change, 2)),
        },
        teams: with_team(teams, what, c, n),
    }
}

fn change_all(board: TeamBoard, changes: &[u8]) -> TeamBoard {
    let mut made = board;
    for k in 0..cases::count(changes, 1) {
        made = changed(made, cases::nth(changes, 1, k));
    }
    made
}

// ---- the call

// A target after the call, and what this said.
#[derive(Clone, Copy)]
struct Target {
    bytes: [u8; 16640],
    wrote: Result<usize, Refusal>,
}

// A target before the call.
fn blank() -> [u8; 16640]
    ensures { 16640 ≡ length result }
{
    [165; 16640]
}

// Longer ones are not needed.
fn room_of(n: usize) -> usize
    ensures { result ≤ 16640 }
{
    if n < 16640 { n } else { 16640 }
}

fn on_lent(reader: TeamReader, board: TeamBoard, out: &mut [u8]) -> Result<usize, Refusal> {
    let plain = reader.reader;
    let teams = reader.teams;
    let scalars = plain.scalars;
    let e = plain.entries;
    let wanted = board.board;
    let wteams = board.teams;
    let tick = wanted.tick;
    let w = wanted.entries;
    reaching::reach_lent(
        scalars, &e.marks, &e.xs, &e.ys, &e.held, &e.inputs, &teams, tick, &w.marks, &w.xs, &w.ys,
        &w.held, &w.inputs, &wteams, out,
    )
}

// The number of bytes, or 100000 more than the refusal's number.
fn code(wrote: Result<usize, Refusal>) -> usize {
    match wrote {
        Ok(n) => n,
        Err(why) => 100000 + cases::size(why.number()),
    }
}

// The number of bytes, 0 in a refusal.
fn size(wrote: Result<usize, Refusal>) -> usize {
    match wrote {
        Ok(n) => n,
        Err(_) => 0,
    }
}

// Whether two targets are the same, and what was said of them.
fn same_target(a: Target, b: Target) -> bool {
    let one = a.wrote;
    let other = b.wrote;
    check::same(&a.bytes, &b.bytes) & (code(one) == code(other))
}

fn reach(reader: TeamReader, board: TeamBoard, room: usize) -> Target {
    let mut bytes = blank();
    let mut others = blank();
    let end = room_of(room);
    let wrote = reaching::reach(reader, board, &mut bytes[..end]);
    let said = on_lent(reader, board, &mut others[..end]);
    let target = Target { bytes, wrote };
    let lent = Target {
        bytes: others,
        wrote: said,
    };
    say_unless(same_target(target, lent), b"on lent arrays it differs\n");
    target
}

// Whether a target is untouched from a place on.
fn untouched(target: Target, at: usize) -> bool {
    let bytes = target.bytes;
    let before = blank();
    check::same(
        cases::window(&bytes, at, 16640),
        cases::window(&before, at, 16640),
    )
}

// With much room, with just enough and with a byte less: the rest of a target stays, and all of it in a refusal; a byte less is refused 9, and
// any other refusal comes without room too.
fn hold(reader: TeamReader, board: TeamBoard) {
    let target = reach(reader, board, 16640);
    let wrote = target.wrote;
    let n = size(wrote);
    let short = reach(reader, board, cases::difference(n, 1));
    let said = short.wrote;
    say_unless(untouched(target, n), b"the rest is touched\n");
    say_unless(
        same_target(target, reach(reader, board, n)),
        b"with just enough room it differs\n",
    );
    say_unless(
        (n == 0) | ((code(said) == 100009) & untouched(short, 0)),
        b"a byte short it differs\n",
    );
}

// ---- the bytes, read

fn is_pending(pending: Option<Kind>) -> bool {
    match pending {
        Some(_) => true,
        None => false,
    }
}

// Whether all n bytes are read, nothing is pending and the board is there.
fn arrived(spot: Spot, n: usize, board: TeamBoard) -> bool {
    let reader = spot.reader;
    let plain = reader.reader;
    let s = plain.scalars;
    let pending = s.pending;
    (spot.at == n)
        & !spot.closed
        & !is_pending(pending)
        & team_alike::same_team_board(board, back::team_board_of(reader))
}

fn read_back(reader: TeamReader, board: TeamBoard, bytes: &[u8]) {
    let n = bytes.len();
    let whole = read_on(reader, bytes, n, 400000);
    let slow = read_on(reader, bytes, 0, 400000);
    say(b" ");
    io::print_decimal(STDOUT_FILENO, cases::difference(400000, whole.most) as u64);
    say_unless(arrived(whole, n, board), b" read whole it is another board");
    say_unless(
        arrived(slow, n, board) & (slow.most == whole.most),
        b" read byte by byte it is another board",
    );
}

// ---- cases

fn print_written(reader: TeamReader, board: TeamBoard, bytes: &[u8], by_hand: bool) {
    print_bytes(bytes);
    say_unless(0 < bytes.len(), b"-");
    if !by_hand {
        read_back(reader, board, bytes);
    }
    say(b"\n");
}

fn print_target(reader: TeamReader, board: TeamBoard, target: Target, by_hand: bool) {
    let bytes = target.bytes;
    let wrote = target.wrote;
    match wrote {
        Ok(n) => print_written(reader, board, cases::window(&bytes, 0, n), by_hand),
        Err(why) => print_refused(why.number()),
    }
}

// The board that a part gives; of this reader, if it is empty.
fn board_in(input: &[u8], most: usize, reader: TeamReader) -> TeamBoard {
    if input.len() == 0 {
        return back::team_board_of(reader);
    }
    back::team_board_of(reader_of(input, most))
}

fn run_case(case: &[u8]) {
    let numbers = cases::nth(case, 3, 0);
    let from = cases::nth(case, 3, 1);
    let to = cases::nth(case, 3, 2);
    let room = wide(numbers) as usize;
    let first = wide(cases::window(numbers, 4, 8)) as usize;
    let second = wide(cases::window(numbers, 8, 12)) as usize;
    let reader = reader_of(from, first);
    let board = change_all(board_in(to, second, reader), cases::nth(case, 3, 3));
    print_target(
        reader,
        board,
        reach(reader, board, room),
        cases::byte(from, 0) == 0,
    );
    hold(reader, board);
}

fn main() {
    let mut buf = cases::buffer();
    let n = io::read_full(0, &mut buf);
    for k in 0..cases::count(&buf[..n], 3) {
        run_case(cases::nth(&buf[..n], 3, k));
    }
}
