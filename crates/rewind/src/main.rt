// The rewind program: rewind TICK [STEP [EVENTS]]. Standard input is a version byte, 01 or 02, and a body. It is read to its end, or until
// EVENTS events have come, with a reel beside; then the board is rewound to TICK and printed. With a STEP above 0 the rewind goes STEP events
// a call, and the copy is printed after each.
#![tactic(auto)]

ghost use Rattle.std.specs.Prelude.{◌≡◌, ◌<◌, length};

use back::{Board, TeamBoard};
use feed::Hand;
use going::{GoAnswer, LentGo, LentStart, StartAnswer};
use kinds::Version;
use lines::Ending;
use packer::Part;
use reel::Counts;
use refusal::Refusal;
use rewinding::Rewound;
use state::Entries;
use std::env::{Env, FillError};
use std::io::Read;
use teams::TeamReader;

const STDOUT_FILENO: i32 = 1;

const STDERR_FILENO: i32 = 2;

// What the arguments say: whether they are good, the tick, how many events the rewind goes a call (0: all at once), and how many are read at
// most.
#[derive(Clone, Copy)]
struct Wanted {
    good: bool,
    tick: i32,
    step: usize,
    most: usize,
}

// What the first turn begins with, and whether there is one.
#[derive(Clone, Copy)]
struct First {
    reader: TeamReader,
    hand: Hand,
    goes: bool,
}

// What is at hand after a read, and whether the read failed.
#[derive(Clone, Copy)]
struct Fed {
    hand: Hand,
    failed: bool,
}

fn say(text: &[u8]) {
    io::write_all(STDERR_FILENO, text);
}

// The first n bytes, and whether they were written.
fn print(text: &[u8], n: usize) -> bool {
    let start = Part { at: 0, len: n };
    if io::write_all(STDOUT_FILENO, packer::show(text, start)) {
        return true;
    }
    say(b"rewind: a write failed\n");
    false
}

// How many arguments there are, the program's name among them; 5 stands for more.
fn argument_count(rt: &impl Env) -> usize {
    let mut text = [0u8; 64];
    let mut count: usize = 0;
    while count < 5 {
        if let Err(FillError::NotPresent) = rt.arg(count, &mut text) {
            return count;
        }
        count += 1;
    }
    count
}

// One that is missing, or longer than a number needs to be, is bad.
fn argument(rt: &impl Env, i: usize) -> Option<i32> {
    let mut text = [0u8; 64];
    let Ok(n) = rt.arg(i, &mut text) else {
        return None;
    };
    number_args::number_in(packer::show(&text, Part { at: 0, len: n }))
}

fn bad() -> Wanted {
    Wanted {
        good: false,
        tick: 0,
        step: 0,
        most: 0,
    }
}

// The most events, of an argument that may be missing.
fn with_events(rt: &impl Env, tick: i32, step: usize, count: usize) -> Wanted {
    if count < 4 {
        return Wanted {
            good: true,
            tick,
            step,
            most: 18446744073709551615,
        };
    }
    match argument(rt, 3) {
        Some(n) => Wanted {
            good: true,
            tick,
            step,
            most: num::bits(n) as usize,
        },
        None => bad(),
    }
}

// The step, of an argument that may be missing.
fn with_step(rt: &impl Env, tick: i32, count: usize) -> Wanted {
    if count < 3 {
        return with_events(rt, tick, 0, count);
    }
    match argument(rt, 2) {
        Some(n) => with_events(rt, tick, num::bits(n) as usize, count),
        None => bad(),
    }
}

fn arguments(rt: &impl Env) -> Wanted {
    let count = argument_count(rt);
    if 4 < count {
        return bad();
    }
    match argument(rt, 1) {
        Some(tick) => with_step(rt, tick, count),
        None => bad(),
    }
}

// One read, behind the bytes at hand.
fn read_on(input: &mut impl Read, buf: &mut [u8], hand: Hand) -> Fed {
    let n = feed::keep(buf, hand);
    let Ok(more) = input.read(&mut buf[n..]) else {
        say(b"rewind: a read failed\n");
        return Fed { hand, failed: true };
    };
    Fed {
        hand: feed::grow(buf.len(), n, more),
        failed: false,
    }
}

// A read, where a turn wants more bytes.
fn fed_on(wants: bool, input: &mut impl Read, buf: &mut [u8], hand: Hand) -> Fed {
    if wants {
        return read_on(input, buf, hand);
    }
    Fed {
        hand,
        failed: false,
    }
}

// The turns that may follow: fewer than there were, and none where none follows.
fn fewer(turns: u64, goes: bool) -> u64
    requires { 0 < turns }
    ensures { result < turns }
{
    if goes {
        return turns - 1;
    }
    0
}

fn goes_on(over: bool, failed: bool) -> bool {
    if over {
        return false;
    }
    !failed
}

fn less(a: usize, b: usize) -> usize {
    if a < b { 0 } else { a - b }
}

fn print_rewound(rewound: Rewound) {
    let mut text = [0u8; 27036];
    let Ok(n) = board_lines::write_rewound(rewound, &mut text, 0) else {
        return;
    };
    print(&text, n);
}

// The text of a call, from what it answered and the entries and teams that it left, and whether it was written.
fn print_gone(
    went: LentGo,
    marks: [u8; 128],
    xs: [i32; 128],
    ys: [i32; 128],
    held: [u8; 128],
    inputs: [i32; 1280],
    teams: [i32; 256],
) -> bool {
    let answer = went.answer;
    let tick = went.tick;
    let entries = Entries {
        marks,
        xs,
        ys,
        held,
        inputs,
    };
    let board = TeamBoard {
        board: Board { tick, entries },
        teams,
    };
    let mut text = [0u8; 27036];
    let Ok(n) = board_lines::write_gone(answer, board, &mut text, 0) else {
        return false;
    };
    print(&text, n)
}

fn is_over(went: LentGo) -> bool {
    let answer = went.answer;
    match answer {
        GoAnswer::Ended => true,
        GoAnswer::Going => false,
        GoAnswer::Refused(_) => true,
    }
}

// Calls until one isn't going, or can't be printed. One that is going stepped over an event at least, and of 512 fewer than 512 are newer
// than a TickStart.
fn go_all(
    first: LentGo,
    copy: TeamBoard,
    rows: &[i32; 5120],
    tens: &[i32; 5120],
    formers: &[i32; 5120],
    step: usize,
) {
    let mut teams = copy.teams;
    let board = copy.board;
    let entries = board.entries;
    let mut marks = entries.marks;
    let mut xs = entries.xs;
    let mut ys = entries.ys;
    let mut held = entries.held;
    let mut inputs = entries.inputs;
    let mut went = first;
    let mut calls: u64 = 512;
    while 0 < calls {
        went = going::go_further(
            went,
            &mut marks,
            &mut xs,
            &mut ys,
            &mut held,
            &mut inputs,
            &mut teams,
            rows,
            tens,
            formers,
            step,
        );
        let printed = print_gone(went, marks, xs, ys, held, inputs, teams);
        calls = fewer(calls, goes_on(is_over(went), !printed));
    }
}

// What stands before the first call.
fn before(started: &LentStart, counts: Counts) -> LentGo {
    LentGo {
        answer: GoAnswer::Going,
        tick: started.board.board.tick,
        counts,
        progress: started.progress,
    }
}

// The rewind on a reel of its own, so many events a call.
fn rewind_by(
    wanted: Wanted,
    reader: TeamReader,
    counts: Counts,
    rows: &[i32; 5120],
    inputs: &[i32; 5120],
    formers: &[i32; 5120],
) {
    let mut own_rows = [0i32; 5120];
    let mut own_inputs = [0i32; 5120];
    let mut own_formers = [0i32; 5120];
    let started = going::start_lent(
        reader,
        counts,
        rows,
        inputs,
        formers,
        wanted.tick,
        &mut own_rows,
        &mut own_inputs,
        &mut own_formers,
    );
    match started.answer {
        StartAnswer::Started => go_all(
            before(&started, counts),
            started.board,
            &own_rows,
            &own_inputs,
            &own_formers,
            wanted.step,
        ),
        StartAnswer::Refused(why) => refuse(why),
    }
}

// The rewind, all at once or so many events a call.
fn rewind_to(
    wanted: Wanted,
    reader: TeamReader,
    counts: Counts,
    rows: &[i32; 5120],
    inputs: &[i32; 5120],
    formers: &[i32; 5120],
) {
    if wanted.step == 0 {
        print_rewound(rewinding::rewind_lent(reader, counts, rows, inputs, formers, wanted.tick));
        return;
    }
    rewind_by(wanted, reader, counts, rows, inputs, formers);
}

// Turns until one is the last, then the rewind. Each turn gives an event, the end or a read; their number is there to bound them. After a
// failed read nothing is printed.
fn rewind(first: First, wanted: Wanted, input: &mut impl Read, buf: &mut [u8]) {
    let mut rows = [0i32; 5120];
    let mut inputs = [0i32; 5120];
    let mut formers = [0i32; 5120];
    let mut counts = Counts { next: 0, count: 0 };
    let mut reader = first.reader;
    let mut hand = first.hand;
    let mut most = wanted.most;
    let mut failed = false;
    let mut turns: u64 = 18446744073709551615;
    while 0 < turns {
        let turned = rewind_turns::turn(
            reader,
            feed::window(buf, hand),
            hand.ended,
            most,
            counts,
            &mut rows,
            &mut inputs,
            &mut formers,
        );
        let next_reader = turned.reader;
        let next_counts = turned.counts;
        reader = next_reader;
        counts = next_counts;
        most = less(most, turned.count);
        let fed = fed_on(turned.wants, input, buf, feed::pass(hand, turned.used));
        let next_hand = fed.hand;
        hand = next_hand;
        failed = fed.failed;
        turns = fewer(turns, goes_on(turned.over, failed));
    }
    if failed {
        return;
    }
    rewind_to(wanted, reader, counts, &rows, &inputs, &formers);
}

fn refuse(refusal: Refusal) {
    let mut line = [0u8; 138];
    let Ok(n) = lines::write_last(Ending::Refused(refusal), &mut line, 0) else {
        return;
    };
    print(&line, n);
}

fn number(b: u8) -> i32 {
    b as i32
}

fn first_of(version: Version, hand: Hand, goes: bool) -> First {
    First {
        reader: TeamReader::empty(version),
        hand: feed::pass(hand, 1),
        goes,
    }
}

// No turn follows.
fn none(refusal: Refusal, hand: Hand) -> First {
    refuse(refusal);
    first_of(Version::V1, hand, false)
}

// The version byte.
fn behind_version(number: i32, hand: Hand) -> First {
    match kinds::version_of(number) {
        Ok(version) => first_of(version, hand, true),
        Err(refusal) => none(refusal, hand),
    }
}

// After the first read. A body that ends before its version byte is refused 2.
fn begun(fed: Fed, buf: &[u8]) -> First {
    let hand = fed.hand;
    if fed.failed {
        return first_of(Version::V1, hand, false);
    }
    if hand.ended {
        return none(Refusal::UnknownVersion, hand);
    }
    if buf.len() == 0 {
        return none(Refusal::UnknownVersion, hand);
    }
    behind_version(number(buf[0]), hand)
}

fn begin(input: &mut impl Read, buf: &mut [u8]) -> First {
    let fed = read_on(input, buf, Hand::empty());
    begun(fed, buf)
}

// The array that main lends.
fn buffer() -> [u8; 131072]
    ensures { 131072 ≡ length result }
{
    [0; 131072]
}

fn run(wanted: Wanted, input: &mut impl Read) {
    let mut buf = buffer();
    let first = begin(input, &mut buf);
    if first.goes {
        rewind(first, wanted, input, &mut buf);
    }
}

fn main(rt: HostRuntime) {
    let wanted = arguments(&rt);
    if wanted.good {
        run(wanted, &mut rt.stdin());
        return;
    }
    say(b"usage: rewind TICK [STEP [EVENTS]], each a number up to 2147483647\n");
}
