// Rewinds under way while reading goes on. Standard input holds cases one behind the other, each after its length in three bytes, the low one
// first: the number of steps in two bytes, the steps, a version byte, a body. A step has six bytes: what is done, which of three rewinds it is
// done with, a number in four.
//   0: reading goes on until so many more events have come, or to its end
//   1: a rewind to that tick starts, from reader and reel as they stand; where that is refused, the one before stays
//   2: it goes so many events
//   3: the same, and its copy is printed
//   4: its tick is looked up, and the position, the inputs and the team of that client on its copy
//   5: a rewind to that tick in one call, beside a start and calls of 1, 7, 511 and 512 events each: how many calls those take. Unless the start is
//      refused, the rewind that they leave stays
// Before its first start each of the three is the blank one that a refusal hands out. Every start and every call is made by value and on lent
// arrays; where they differ, or splits from one call, a line says so.
#![tactic(auto)]

mod both;
mod same;

ghost use Rattle.std.specs.Prelude.{◌<◌};

use crate::both::{go, none, walk_both};
use crate::same::go_number;
use back::TeamBoard;
use feed::Hand;
use going::{Go, GoAnswer, Rewind, Start, StartAnswer};
use kinds::Version;
use lookups::Pos;
use reel::{Counts, Reel};
use refusal::Refusal;
use rewinding::{RewindAnswer, Rewound};
use teams::TeamReader;
use texts::Text;

const STDOUT_FILENO: i32 = 1;

// ---- lines

fn say(text: &[u8]) {
    io::write_all(STDOUT_FILENO, text);
}

fn print(text: Text) {
    let bytes = text.bytes;
    say(cases::window(&bytes, 0, text.len));
}

// Where something doesn't hold.
fn say_unless(holds: bool, text: &[u8]) {
    if !holds {
        say(text);
    }
}

fn print_number(word: &[u8], n: usize) {
    say(word);
    io::print_decimal(STDOUT_FILENO, n as u64);
}

fn print_gone(answer: GoAnswer) {
    match answer {
        GoAnswer::Ended => say(b"ended\n"),
        GoAnswer::Going => say(b"going\n"),
        GoAnswer::Refused(why) => print(texts::refused(why)),
    }
}

fn print_board(answer: GoAnswer, board: TeamBoard) {
    let mut text = [0u8; 27036];
    let Ok(n) = board_lines::write_gone(answer, board, &mut text, 0) else {
        return;
    };
    say(cases::window(&text, 0, n));
}

// ---- cases

#[derive(Clone, Copy)]
struct Step {
    what: u8,
    place: usize,
    number: u32,
}

// The number in the first four bytes, the low one first.
fn wide(s: &[u8]) -> u32 {
    let low = cases::byte(s, 0) as u32 + 256 * cases::byte(s, 1) as u32;
    low + 65536 * cases::byte(s, 2) as u32 + 16777216 * cases::byte(s, 3) as u32
}

fn step_count(case: &[u8]) -> usize
    ensures { result < 65536 }
{
    cases::size(cases::byte(case, 0)) + 256 * cases::size(cases::byte(case, 1))
}

fn step_at(case: &[u8], k: usize) -> Step
    requires { k < 65536 }
{
    let s = cases::window(case, 2 + 6 * k, 8 + 6 * k);
    Step {
        what: cases::byte(s, 0),
        place: cases::size(cases::byte(s, 1)),
        number: wide(cases::window(s, 2, 6)),
    }
}

// ---- reading

// Reader and reel, and what is at hand of the body.
#[derive(Clone, Copy)]
struct Scene {
    reader: TeamReader,
    reel: Reel,
    hand: Hand,
}

// What is at hand of a body of a length after more of it was wanted: as much again and a byte, then its end.
fn come(hand: Hand, wants: bool, len: usize) -> Hand {
    let mut next = hand;
    if wants {
        let again = cases::difference(hand.end, hand.at);
        next.end = cases::past(cases::past(hand.end, again, len), 1, len);
        next.ended = len <= hand.end;
    }
    next
}

fn scene_of(
    reader: TeamReader,
    counts: Counts,
    rows: [i32; 5120],
    inputs: [i32; 5120],
    formers: [i32; 5120],
    hand: Hand,
) -> Scene {
    Scene {
        reader,
        reel: Reel {
            counts,
            rows,
            inputs,
            formers,
        },
        hand,
    }
}

// The body comes in pieces, a piece where a turn wants more.
fn read_on(scene: Scene, body: &[u8], events: usize) -> Scene {
    let reel = scene.reel;
    let mut rows = reel.rows;
    let mut inputs = reel.inputs;
    let mut formers = reel.formers;
    let mut counts = reel.counts;
    let mut reader = scene.reader;
    let mut hand = scene.hand;
    let mut most = events;
    let mut turns: usize = 0;
    while turns < 400000 {
        let turned = rewind_turns::turn(
            reader,
            feed::window(body, hand),
            hand.ended,
            most,
            counts,
            &mut rows,
            &mut inputs,
            &mut formers,
        );
        let next_reader = turned.reader;
        let next_counts = turned.counts;
        reader = next_reader;
        counts = next_counts;
        most = cases::difference(most, turned.count);
        hand = come(feed::pass(hand, turned.used), turned.wants, body.len());
        turns += 1;
        if turned.over {
            turns = 400000;
        }
    }
    scene_of(reader, counts, rows, inputs, formers, hand)
}

// ---- starting

// From reader and reel as they stand.
fn start(scene: Scene, tick: i32, old: Rewind) -> Start {
    let reader = scene.reader;
    let given = scene.reel;
    both::start(reader, given, tick, old)
}

// The rewind that is there after a start.
fn placed(made: Start, old: Rewind) -> Rewind {
    let answer = made.answer;
    let rewind = made.rewind;
    match answer {
        StartAnswer::Started => rewind,
        StartAnswer::Refused(_) => old,
    }
}

fn start_step(scene: Scene, tick: i32, old: Rewind) -> Rewind {
    let made = start(scene, tick, old);
    let answer = made.answer;
    match answer {
        StartAnswer::Started => say(b"started\n"),
        StartAnswer::Refused(why) => print(texts::refused(why)),
    }
    placed(made, old)
}

// ---- going on

fn go_step(rewind: Rewind, events: usize) -> Rewind {
    let gone = go(rewind, events);
    let answer = gone.answer;
    let left = gone.rewind;
    print_gone(answer);
    left
}

fn board_step(rewind: Rewind, events: usize) -> Rewind {
    let gone = go(rewind, events);
    let answer = gone.answer;
    let left = gone.rewind;
    let board = left.board;
    print_board(answer, board);
    left
}

// ---- looking at the copy

fn print_pos(pos: Option<Pos>) {
    match pos {
        Some(Pos { x, y }) => print(texts::plain(b"at", &[x, y])),
        None => say(b"nowhere\n"),
    }
}

fn print_input(looked: Option<[i32; 10]>) {
    if let Some(ten) = looked {
        print(texts::plain(b"has", &ten));
        return;
    }
    say(b"no inputs\n");
}

fn print_team(team: Option<i32>) {
    match team {
        Some(n) => print(texts::plain(b"team", &[n])),
        None => say(b"team -\n"),
    }
}

fn look_step(rewind: Rewind, cid: i32) -> Rewind {
    match rewinds::tick(rewind) {
        Some(t) => print(texts::plain(b"tick", &[t])),
        None => say(b"tick -\n"),
    }
    print_pos(rewinds::player_pos(rewind, cid));
    print_input(rewinds::input(rewind, cid));
    print_team(rewinds::team(rewind, cid));
    rewind
}

// ---- splits

fn number_of(answer: RewindAnswer) -> u8 {
    match answer {
        RewindAnswer::Ended => 0,
        RewindAnswer::Refused(why) => why.number(),
    }
}

// Whether calls answer and leave what one call does.
fn same_whole(whole: Rewound, gone: Go) -> bool {
    let left = gone.rewind;
    let one = whole.board;
    let other = left.board;
    let first = whole.answer;
    let last = gone.answer;
    team_alike::same_team_board(one, other) & (number_of(first) == go_number(last))
}

// More calls than there are events on a reel are not needed.
fn split(whole: Rewound, rewind: Rewind, events: usize) -> Rewind {
    let walked = walk_both(rewind, events, 600);
    let gone = walked.go;
    let left = gone.rewind;
    print_number(b" ", walked.calls);
    say_unless(same_whole(whole, gone), b" differing from one call");
    left
}

fn split_each(whole: Rewound, rewind: Rewind) -> Rewind {
    say(b"splits");
    split(whole, rewind, 1);
    split(whole, rewind, 7);
    split(whole, rewind, 511);
    let left = split(whole, rewind, 512);
    say(b"\n");
    left
}

fn refuse_splits(whole: Rewound, why: Refusal) {
    let answer = whole.answer;
    print(texts::refused(why));
    say_unless(
        number_of(answer) == why.number(),
        b"in one call the refusal differs\n",
    );
}

fn splits_step(scene: Scene, tick: i32, old: Rewind) -> Rewind {
    let reader = scene.reader;
    let given = scene.reel;
    let whole = rewinding::rewind(reader, given, tick);
    let made = start(scene, tick, old);
    let answer = made.answer;
    let rewind = made.rewind;
    match answer {
        StartAnswer::Started => split_each(whole, rewind),
        StartAnswer::Refused(why) => {
            refuse_splits(whole, why);
            old
        }
    }
}

// ---- steps

fn read_step(scene: Scene, body: &[u8], step: Step) -> Scene {
    if step.what != 0 {
        return scene;
    }
    read_on(scene, body, step.number as usize)
}

// What a step leaves of the rewind that it is done with.
fn rewind_step(scene: Scene, rewind: Rewind, step: Step) -> Rewind {
    let what = step.what;
    let events = step.number as usize;
    let number = num::signed(step.number);
    match what {
        0 => rewind,
        1 => start_step(scene, number, rewind),
        2 => go_step(rewind, events),
        3 => board_step(rewind, events),
        4 => look_step(rewind, number),
        _ => splits_step(scene, number, rewind),
    }
}

fn run_body(version: Version, body: &[u8], case: &[u8]) {
    let reel = Reel::empty();
    let mut scene = Scene {
        reader: TeamReader::empty(version),
        reel,
        hand: Hand::empty(),
    };
    let mut under_way = [none(); 3];
    for k in 0..step_count(case) {
        let step = step_at(case, k);
        let place = step.place;
        scene = read_step(scene, body, step);
        if place < 3 {
            let rewind = under_way[place];
            under_way[place] = rewind_step(scene, rewind, step);
        }
    }
}

fn run_case(case: &[u8]) {
    let input = cases::window(case, 2 + 6 * step_count(case), case.len());
    match kinds::version_of(cases::first(input)) {
        Ok(version) => run_body(version, cases::window(input, 1, input.len()), case),
        Err(why) => print(texts::refused(why)),
    }
}

fn main() {
    let mut buf = cases::buffer();
    let n = io::read_full(0, &mut buf);
    for k in 0..cases::count(&buf[..n], 3) {
        run_case(cases::nth(&buf[..n], 3, k));
    }
}
