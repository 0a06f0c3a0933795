// Rewinds bodies and prints what the rewind program prints of them. Standard input holds cases one behind the other, each after its length in
// three bytes, the low one first: the number of ticks in a byte, the ticks in four bytes each, the most events in four bytes (all ones: as many
// as there are), a version byte, a body. Each tick is rewound to by the call on lent arrays, by the one by value and by those for C and Rust
// programs, at once and under way; where they differ a line says so.
#![tactic(auto)]

use back::TeamBoard;
use feed::Hand;
use kinds::Version;
use lines::Ending;
use reel::{Counts, Reel};
use refusal::Refusal;
use rewinding::{RewindAnswer, Rewound};
use state::Entries;
use teams::TeamReader;
use texts::Text;

const STDOUT_FILENO: i32 = 1;

fn say(text: &[u8]) {
    io::write_all(STDOUT_FILENO, text);
}

fn print(text: Text) {
    let bytes = text.bytes;
    say(cases::window(&bytes, 0, text.len));
}

fn print_rewound(rewound: Rewound) {
    let mut text = [0u8; 27036];
    let Ok(n) = board_lines::write_rewound(rewound, &mut text, 0) else {
        return;
    };
    say(cases::window(&text, 0, n));
}

// ---- cases

// The number in the first four bytes, the low one first.
fn wide(s: &[u8]) -> u32 {
    let low = cases::byte(s, 0) as u32 + 256 * cases::byte(s, 1) as u32;
    low + 65536 * cases::byte(s, 2) as u32 + 16777216 * cases::byte(s, 3) as u32
}

fn most_of(n: u32) -> usize {
    if n == 4294967295 {
        return 18446744073709551615;
    }
    n as usize
}

// What is at hand of a body of a length after more of it was wanted: as much again and a byte, then its end.
fn come(hand: Hand, wants: bool, len: usize) -> Hand {
    let mut next = hand;
    if wants {
        let again = cases::difference(hand.end, hand.at);
        next.end = cases::past(cases::past(hand.end, again, len), 1, len);
        next.ended = len <= hand.end;
    }
    next
}

// ---- a body

// Reader and reel after a body, and how many events were read.
#[derive(Clone, Copy)]
struct Read {
    reader: TeamReader,
    reel: Reel,
    events: usize,
}

// The body comes in pieces, a piece where a turn wants more. Reader and reel stay in this function.
fn read_body(version: Version, body: &[u8], events: usize) -> Read {
    let mut rows = [0i32; 5120];
    let mut inputs = [0i32; 5120];
    let mut formers = [0i32; 5120];
    let mut counts = Counts { next: 0, count: 0 };
    let mut reader = TeamReader::empty(version);
    let mut hand = Hand::empty();
    let mut most = events;
    let mut turns: usize = 0;
    while turns < 400000 {
        let turned = rewind_turns::turn(
            reader,
            feed::window(body, hand),
            hand.ended,
            most,
            counts,
            &mut rows,
            &mut inputs,
            &mut formers,
        );
        let next_reader = turned.reader;
        let next_counts = turned.counts;
        reader = next_reader;
        counts = next_counts;
        most = cases::difference(most, turned.count);
        hand = come(feed::pass(hand, turned.used), turned.wants, body.len());
        turns += 1;
        if turned.over {
            turns = 400000;
        }
    }
    Read {
        reader,
        reel: Reel {
            counts,
            rows,
            inputs,
            formers,
        },
        events: cases::difference(events, most),
    }
}

fn number_of(answer: RewindAnswer) -> u8 {
    match answer {
        RewindAnswer::Ended => 0,
        RewindAnswer::Refused(why) => why.number(),
    }
}

fn same_answer(a: Rewound, b: Rewound) -> bool {
    let one: TeamBoard = a.board;
    let other: TeamBoard = b.board;
    let first = a.answer;
    let second = b.answer;
    team_alike::same_team_board(one, other) & (number_of(first) == number_of(second))
}

fn is_second(version: Version) -> bool {
    match version {
        Version::V1 => false,
        Version::V2 => true,
    }
}

// Whether the body read whole, by the call for C and Rust programs, leaves a reel with these counts after so many events.
fn same_read(version: Version, body: &[u8], counts: Counts, events: usize) -> bool {
    let mut rows = [0i32; 5120];
    let mut inputs = [0i32; 5120];
    let mut formers = [0i32; 5120];
    let mut two = [0usize; 2];
    let n = rewind_linked::jolzerv_read_kept(
        is_second(version),
        body,
        &mut rows,
        &mut inputs,
        &mut formers,
        &mut two,
    );
    (n == events) & (two[0] == counts.next) & (two[1] == counts.count)
}

// Whether a copy in arrays and a number are those of a rewind.
fn same_copy(entries: Entries, teams: [i32; 256], number: u8, rewound: Rewound) -> bool {
    let copy: TeamBoard = rewound.board;
    let others = copy.teams;
    let board = copy.board;
    let other = board.entries;
    let answer = rewound.answer;
    alike::same_entries(entries, other)
        & team_alike::same_teams(&teams, &others)
        & (number == number_of(answer))
}

// Whether such a call that rewinds answers the same.
fn same_linked(version: Version, body: &[u8], tick: i32, rewound: Rewound) -> bool {
    let mut rows = [0i32; 5120];
    let mut tens = [0i32; 5120];
    let mut formers = [0i32; 5120];
    let mut marks = [2u8; 128];
    let mut xs = [2i32; 128];
    let mut ys = [2i32; 128];
    let mut held = [2u8; 128];
    let mut inputs = [2i32; 1280];
    let mut teams = [2i32; 256];
    let number = rewind_linked::jolzerv_rewind_body(
        is_second(version),
        body,
        tick,
        &mut rows,
        &mut tens,
        &mut formers,
        &mut marks,
        &mut xs,
        &mut ys,
        &mut held,
        &mut inputs,
        &mut teams,
    );
    let entries = Entries {
        marks,
        xs,
        ys,
        held,
        inputs,
    };
    same_copy(entries, teams, number, rewound)
}

// Goes on by 7 events a call as long as the rewind is going, which 74 calls are enough for: the number of the last answer.
fn go_by_seven(
    tick: i32,
    rows: &[i32; 5120],
    tens: &[i32; 5120],
    formers: &[i32; 5120],
    marks: &mut [u8; 128],
    xs: &mut [i32; 128],
    ys: &mut [i32; 128],
    held: &mut [u8; 128],
    inputs: &mut [i32; 1280],
    teams: &mut [i32; 256],
    three: &mut [usize; 3],
    two: &mut [i32; 2],
) -> u8 {
    let mut number: u8 = 255;
    for _ in 0..74usize {
        if number == 255 {
            number = rewind_linked::jolzerv_go_on(
                tick, 7, rows, tens, formers, marks, xs, ys, held, inputs, teams, three, two,
            );
        }
    }
    number
}

// Reads a body whole, starts a rewind and goes on to its end: 0, or the number of the refusal.
fn under_way(
    second: bool,
    body: &[u8],
    tick: i32,
    marks: &mut [u8; 128],
    xs: &mut [i32; 128],
    ys: &mut [i32; 128],
    held: &mut [u8; 128],
    inputs: &mut [i32; 1280],
    teams: &mut [i32; 256],
) -> u8 {
    let mut rows = [0i32; 5120];
    let mut tens = [0i32; 5120];
    let mut formers = [0i32; 5120];
    let mut three = [600usize; 3];
    let mut two = [2i32; 2];
    let number = rewind_linked::jolzerv_start_rewind(
        second,
        body,
        tick,
        &mut rows,
        &mut tens,
        &mut formers,
        marks,
        xs,
        ys,
        held,
        inputs,
        teams,
        &mut three,
        &mut two,
    );
    if number != 0 {
        return number;
    }
    go_by_seven(
        tick, &rows, &tens, &formers, marks, xs, ys, held, inputs, teams, &mut three, &mut two,
    )
}

// Whether a rewind that is started and gone on with by such calls ends with the same. On a body read whole no event doesn't fit.
fn same_under_way(version: Version, body: &[u8], tick: i32, rewound: Rewound) -> bool {
    let mut marks = [2u8; 128];
    let mut xs = [2i32; 128];
    let mut ys = [2i32; 128];
    let mut held = [2u8; 128];
    let mut inputs = [2i32; 1280];
    let mut teams = [2i32; 256];
    let number = under_way(
        is_second(version),
        body,
        tick,
        &mut marks,
        &mut xs,
        &mut ys,
        &mut held,
        &mut inputs,
        &mut teams,
    );
    let entries = Entries {
        marks,
        xs,
        ys,
        held,
        inputs,
    };
    same_copy(entries, teams, number, rewound)
}

// The calls for C and Rust programs read a body whole, without a window: they are held to the turns on bodies that fit a window and are read to
// their end.
fn is_whole(body: &[u8], events: usize) -> bool {
    (body.len() < 65536) & (events == 18446744073709551615)
}

fn hold_linked(version: Version, body: &[u8], read: Read, tick: i32) {
    let reader = read.reader;
    let reel = read.reel;
    let counts = reel.counts;
    let rewound = rewinding::rewind(reader, reel, tick);
    if !same_read(version, body, counts, read.events) {
        say(b"read in memory it differs\n");
    }
    if !same_linked(version, body, tick, rewound) {
        say(b"rewound in memory it differs\n");
    }
    if !same_under_way(version, body, tick, rewound) {
        say(b"under way in memory it differs\n");
    }
}

fn rewind(read: Read, tick: i32) {
    let reader = read.reader;
    let reel = read.reel;
    let counts = reel.counts;
    let rows = reel.rows;
    let inputs = reel.inputs;
    let formers = reel.formers;
    let rewound = rewinding::rewind_lent(reader, counts, &rows, &inputs, &formers, tick);
    print_rewound(rewound);
    if !same_answer(rewound, rewinding::rewind(reader, reel, tick)) {
        say(b"by value it differs\n");
    }
}

fn run_body(version: Version, body: &[u8], events: usize, case: &[u8]) {
    let read = read_body(version, body, events);
    let whole = is_whole(body, events);
    let ticks = cases::size(cases::byte(case, 0));
    for k in 0..ticks {
        let tick = num::signed(wide(cases::window(case, 1 + 4 * k, case.len())));
        rewind(read, tick);
        if whole {
            hold_linked(version, body, read, tick);
        }
    }
}

fn refuse_each(refusal: Refusal, ticks: usize) {
    for _ in 0..ticks {
        print(texts::last(Ending::Refused(refusal)));
    }
}

fn run_case(case: &[u8]) {
    let ticks = cases::size(cases::byte(case, 0));
    let at = 1 + 4 * ticks;
    let input = cases::window(case, at + 4, case.len());
    match kinds::version_of(cases::first(input)) {
        Ok(version) => run_body(
            version,
            cases::window(input, 1, input.len()),
            most_of(wide(cases::window(case, at, case.len()))),
            case,
        ),
        Err(refusal) => refuse_each(refusal, ticks),
    }
}

fn main() {
    let mut buf = cases::buffer();
    let n = io::read_full(0, &mut buf);
    for k in 0..cases::count(&buf[..n], 3) {
        run_case(cases::nth(&buf[..n], 3, k));
    }
}
