// Reels that no reading fills, beside good and bad readers, and rewinds under way over them: refusals 17, 18, 20 and 19, their order, and what a
// refusal leaves as it was.
// Standard input holds cases one behind the other, each after its length in two bytes, the low one first: what it is, the length of its name,
// the name, bytes. A number is 100 more than it stands for.
//   0: a rewind. A reader as alike::reader_in takes it, a tick, a client that is looked up on the copy, a reel
//   1: an event kept. Its sort as in a row, five numbers, the place of one of its ten numbers, that number, the former one, a reel. Beside a
//      record the former team is the fourth number, if the third is 1
//   2: reading. A reader, the most events, whether the window is the last, its length, the window, a reel
//   3: a reel: its counts, and what the row before the next place tells
//   4: a rewind under way. A reader whose board is the copy, a tick, a client that is looked up after each call, how many rows are newer than
//      TickStart in two bytes, whether an event didn't fit, the number of calls, of each call the number of events in two bytes, a reel
//   5: a start. A reader, a tick, a client and the calls on what is started as in 4, a reel
//   10, 12, 14, 15: as 0, 2, 4, 5, with the reader's teams, as team_alike::teams_in takes them, behind its other bytes
// A reel is the next place and the number of rows kept, two bytes each, the low one first; the first number of every row; how many rows are
// written over; each of these: its place in two bytes, its first six numbers, the place of one of its ten numbers, that number, the former one.
#![tactic(auto)]

mod under_way;

use back::{TeamBoard, Undo};
use item::Item;
use kinds::Version;
use lookups::Pos;
use many::Stop;
use reel::{Counts, KeepAnswer, KeptReel, Reel};
use rewinding::{RewindAnswer, Rewound};
use state::Event;
use teams::TeamReader;
use texts::Text;

const STDOUT_FILENO: i32 = 1;

// ---- lines

fn say(text: &[u8]) {
    io::write_all(STDOUT_FILENO, text);
}

fn print(text: Text) {
    let bytes = text.bytes;
    say(cases::window(&bytes, 0, text.len));
}

fn print_ten(word: &[u8], ten: [i32; 10]) {
    print(texts::plain(word, &ten));
}

fn say_two(word: &[u8], a: usize, b: usize) {
    say(word);
    io::print_decimal(STDOUT_FILENO, a as u64);
    say(b" ");
    io::print_decimal(STDOUT_FILENO, b as u64);
}

fn print_two(word: &[u8], a: usize, b: usize) {
    say_two(word, a, b);
    say(b"\n");
}

// A line where something holds.
fn say_if(holds: bool, text: &[u8]) {
    if holds {
        say(text);
    }
}

// ---- what a case holds

fn place_in(s: &[u8]) -> usize {
    cases::size(cases::byte(s, 0)) + 256 * cases::size(cases::byte(s, 1))
}

fn put_row(rows: &mut [i32; 5120], p: usize, s: &[u8]) {
    if 512 <= p {
        return;
    }
    for j in 0..6usize {
        let n = cases::number(s, j);
        rows[10 * p + j] = n;
    }
}

fn put_number(numbers: &mut [i32; 5120], p: usize, k: usize, n: i32) {
    if 512 <= p {
        return;
    }
    if k < 10 {
        numbers[10 * p + k] = n;
    }
}

fn with_row(given: Reel, s: &[u8]) -> Reel {
    let counts = given.counts;
    let mut rows = given.rows;
    let mut inputs = given.inputs;
    let mut formers = given.formers;
    let p = place_in(s);
    let k = cases::size(cases::byte(s, 8));
    put_row(&mut rows, p, cases::window(s, 2, 8));
    put_number(&mut inputs, p, k, cases::number(s, 9));
    put_number(&mut formers, p, k, cases::number(s, 10));
    Reel {
        counts,
        rows,
        inputs,
        formers,
    }
}

fn filled(n: i32) -> [i32; 5120] {
    let mut rows = [0i32; 5120];
    for p in 0..512usize {
        rows[10 * p] = n;
    }
    rows
}

fn reel_in(s: &[u8]) -> Reel {
    let none = Reel::empty();
    let inputs = none.inputs;
    let formers = none.formers;
    let mut made = Reel {
        counts: Counts {
            next: place_in(s),
            count: place_in(cases::window(s, 2, 4)),
        },
        rows: filled(cases::number(s, 4)),
        inputs,
        formers,
    };
    for k in 0..cases::size(cases::byte(s, 5)) {
        made = with_row(made, cases::window(s, 6 + 11 * k, 17 + 11 * k));
    }
    made
}

fn event_in(s: &[u8]) -> Event {
    let cid = cases::number(s, 1);
    let x = cases::number(s, 2);
    let y = cases::number(s, 3);
    match cases::byte(s, 0) {
        1 => Event::TickStart(cid),
        2 => Event::TickEnd(cid),
        3 => Event::PlayerNew { cid, x, y },
        4 => Event::PlayerChange {
            cid,
            x,
            y,
            old_x: cases::number(s, 4),
            old_y: cases::number(s, 5),
        },
        5 => Event::PlayerOld { cid, x, y },
        6 => Event::Input {
            cid,
            former: x == 1,
        },
        8 => Event::Record(Item::PlayerTeam { cid, team: x }),
        _ => Event::Record(Item::Join { cid }),
    }
}

// The former team beside it.
fn team_in(s: &[u8]) -> Option<i32> {
    if (7 <= cases::byte(s, 0)) & (cases::number(s, 3) == 1) {
        return Some(cases::number(s, 4));
    }
    None
}

fn ten_with(k: usize, n: i32) -> [i32; 10] {
    let mut ten = [0i32; 10];
    if k < 10 {
        ten[k] = n;
    }
    ten
}

// ---- reels

fn same_numbers(a: &[i32; 5120], b: &[i32; 5120]) -> bool {
    let mut i: usize = 0;
    while i < 5120 {
        if a[i] != b[i] {
            return false;
        }
        i += 1;
    }
    true
}

fn same_counts(a: Counts, b: Counts) -> bool {
    (a.next == b.next) & (a.count == b.count)
}

fn same_arrays(a: Reel, b: Reel) -> bool {
    same_numbers(&a.rows, &b.rows)
        & same_numbers(&a.inputs, &b.inputs)
        & same_numbers(&a.formers, &b.formers)
}

fn same_reel(a: Reel, b: Reel) -> bool {
    let one = a.counts;
    let other = b.counts;
    same_counts(one, other) & same_arrays(a, b)
}

// The counts, and the numbers at a place and in the row before it.
fn print_reel(given: Reel, p: usize) {
    let counts = given.counts;
    let rows = given.rows;
    let inputs = given.inputs;
    let formers = given.formers;
    print_two(b"counts ", counts.next, counts.count);
    print_ten(b"row", keeping::ten_at(&rows, p));
    print_ten(b"ten", keeping::ten_at(&inputs, p));
    print_ten(b"former", keeping::ten_at(&formers, p));
    print_ten(b"before", keeping::ten_at(&rows, reel::place_before(p)));
}

// ---- a rewind

fn print_rewound(rewound: Rewound) {
    let mut text = [0u8; 27036];
    let Ok(n) = board_lines::write_rewound(rewound, &mut text, 0) else {
        return;
    };
    say(cases::window(&text, 0, n));
}

// What lookups found.
fn print_found(pos: Option<Pos>, looked: Option<[i32; 10]>, team: Option<i32>) {
    match pos {
        Some(Pos { x, y }) => print(texts::plain(b"at", &[x, y])),
        None => say(b"nowhere\n"),
    }
    if let Some(ten) = looked {
        print_ten(b"has", ten);
    }
    if let Some(n) = team {
        print(texts::plain(b"joined", &[n]));
    }
}

fn blank() -> TeamBoard {
    back::team_board_of(TeamReader::empty(Version::V1))
}

fn number_of(answer: RewindAnswer) -> u8 {
    match answer {
        RewindAnswer::Ended => 0,
        RewindAnswer::Refused(why) => why.number(),
    }
}

// The copy; in a refusal it is to be blank.
fn report(rewound: Rewound, cid: i32) {
    let answer = rewound.answer;
    let board = rewound.board;
    print_rewound(rewound);
    if number_of(answer) == 0 {
        let plain = board.board;
        print_found(
            back::player_pos(plain, cid),
            back::input(plain, cid),
            back::team(board, cid),
        );
        return;
    }
    say_if(
        !team_alike::same_team_board(board, blank()),
        b"the board is not blank\n",
    );
}

fn same_rewound(a: Rewound, b: Rewound) -> bool {
    let one = a.board;
    let other = b.board;
    let first = a.answer;
    let second = b.answer;
    team_alike::same_team_board(one, other) & (number_of(first) == number_of(second))
}

fn rewind_case(reader: TeamReader, s: &[u8]) {
    let tick = cases::number(s, 0);
    let given = reel_in(cases::window(s, 2, s.len()));
    let counts = given.counts;
    let rows = given.rows;
    let inputs = given.inputs;
    let formers = given.formers;
    let rewound = rewinding::rewind_lent(reader, counts, &rows, &inputs, &formers, tick);
    report(rewound, cases::number(s, 1));
    say_if(
        !same_rewound(rewound, rewinding::rewind(reader, given, tick)),
        b"by value it differs\n",
    );
    say_if(
        !under_way::same_in_calls(rewound, reader, given, tick),
        b"in calls it differs\n",
    );
}

// ---- an event kept

fn print_kept(answer: KeepAnswer) {
    match answer {
        KeepAnswer::Kept => say(b"kept\n"),
        KeepAnswer::Refused(why) => print(texts::refused(why)),
    }
}

fn kept_number(answer: KeepAnswer) -> u8 {
    match answer {
        KeepAnswer::Kept => 0,
        KeepAnswer::Refused(why) => why.number(),
    }
}

fn same_kept(a: KeptReel, b: KeptReel) -> bool {
    let one = a.reel;
    let other = b.reel;
    let first = a.answer;
    let second = b.answer;
    same_reel(one, other) & (kept_number(first) == kept_number(second))
}

fn keep_lent(
    given: Reel,
    event: Event,
    input: [i32; 10],
    former: [i32; 10],
    team: Option<i32>,
) -> KeptReel {
    let counts = given.counts;
    let mut rows = given.rows;
    let mut inputs = given.inputs;
    let mut formers = given.formers;
    let kept = keeping::keep_lent(
        counts,
        event,
        team,
        &input,
        &former,
        &mut rows,
        &mut inputs,
        &mut formers,
    );
    let answer = kept.answer;
    let left = kept.counts;
    KeptReel {
        answer,
        reel: Reel {
            counts: left,
            rows,
            inputs,
            formers,
        },
    }
}

fn keep_case(s: &[u8]) {
    let event = event_in(s);
    let team = team_in(s);
    let k = cases::size(cases::byte(s, 6));
    let input = ten_with(k, cases::number(s, 7));
    let former = ten_with(k, cases::number(s, 8));
    let given = reel_in(cases::window(s, 9, s.len()));
    let counts = given.counts;
    let kept = keep_lent(given, event, input, former, team);
    let answer = kept.answer;
    let left = kept.reel;
    print_kept(answer);
    print_reel(left, counts.next);
    say_if(same_reel(given, left), b"the reel is as it was\n");
    say_if(
        !same_kept(kept, keeping::keep(given, event, input, former, team)),
        b"by value it differs\n",
    );
}

// ---- reading

fn print_stop(stop: Stop) {
    match stop {
        Stop::Full => say(b"full\n"),
        Stop::More => say(b"more\n"),
        Stop::Finish => say(b"finish\n"),
        Stop::Refused(why) => print(texts::refused(why)),
    }
}

fn print_team(cid: i32, team: Option<i32>) {
    if let Some(n) = team {
        print(texts::plain(b"team", &[cid, n]));
    }
}

// Of each client that has one.
fn print_teams(teams: &[i32; 256]) {
    for c in 0..128u32 {
        let cid = num::signed(c);
        print_team(cid, teams::team_of(teams, cid));
    }
}

fn read(reader: TeamReader, most: usize, last: bool, window: &[u8], given: Reel) {
    let counts = given.counts;
    let mut rows = given.rows;
    let mut inputs = given.inputs;
    let mut formers = given.formers;
    let got = reeling::read_kept(
        reader,
        window,
        last,
        most,
        counts,
        &mut rows,
        &mut inputs,
        &mut formers,
    );
    let stop = got.stop;
    let next = got.reader;
    let kept = got.counts;
    let left = Reel {
        counts: kept,
        rows,
        inputs,
        formers,
    };
    print_stop(stop);
    print_two(b"events and bytes ", got.count, got.used);
    print_reel(left, reel::place_before(kept.next));
    print_teams(&next.teams);
    say_if(same_reel(given, left), b"the reel is as it was\n");
    say_if(
        team_alike::same_team_reader(reader, next),
        b"the reader is as it was\n",
    );
}

fn read_case(reader: TeamReader, s: &[u8]) {
    let end = 3 + cases::size(cases::byte(s, 2));
    read(
        reader,
        cases::size(cases::byte(s, 0)),
        cases::byte(s, 1) == 1,
        cases::window(s, 3, end),
        reel_in(cases::window(s, end, s.len())),
    );
}

// ---- a reel

fn flag(b: bool) -> i32 {
    if b { 1 } else { 0 }
}

// The row of an event that is known by its undo.
fn told(undo: Undo) -> [i32; 10] {
    match undo {
        Undo::Start(t) => [1, t, 0, 0, 0, 0, 0, 0, 0, 0],
        Undo::End(t) => [2, t, 0, 0, 0, 0, 0, 0, 0, 0],
        Undo::New { cid, x, y } => [3, cid, x, y, 0, 0, 0, 0, 0, 0],
        Undo::Change {
            cid,
            x,
            y,
            old_x,
            old_y,
        } => [4, cid, x, y, old_x, old_y, 0, 0, 0, 0],
        Undo::Old { cid, x, y } => [5, cid, x, y, 0, 0, 0, 0, 0, 0],
        Undo::Input { cid, former } => [6, cid, flag(former), 0, 0, 0, 0, 0, 0, 0],
        Undo::Team { cid, team, former } => [
            8,
            cid,
            team,
            teams::mark_for(former),
            teams::number_for(former),
            0,
            0,
            0,
            0,
            0,
        ],
        Undo::Nothing => [7, 0, 0, 0, 0, 0, 0, 0, 0, 0],
    }
}

fn reel_case(s: &[u8]) {
    let given = reel_in(s);
    let counts = given.counts;
    let rows = given.rows;
    let more = reel::one_more(counts);
    let before = reel::place_before(counts.next);
    let undo = reel::undo_in(keeping::ten_at(&rows, before));
    say_if(!reel::good_counts(counts), b"bad counts\n");
    print_two(b"one more ", more.next, more.count);
    print_two(b"at and before ", counts.next, before);
    print_ten(b"tells", told(undo));
}

// ---- cases

// Behind a reader.
fn run_read(what: u8, reader: TeamReader, s: &[u8]) {
    match what {
        0 => rewind_case(reader, s),
        2 => read_case(reader, s),
        4 => under_way::go_case(reader, s),
        _ => under_way::start_case(reader, s),
    }
}

// A reader in so many bytes.
fn run_behind(what: u8, n: usize, s: &[u8]) {
    run_read(
        what,
        team_alike::team_reader_in(cases::window(s, 0, n)),
        cases::window(s, n, s.len()),
    );
}

fn run_named(what: u8, s: &[u8]) {
    match what {
        1 => keep_case(s),
        3 => reel_case(s),
        10 => run_behind(0, 17, s),
        12 => run_behind(2, 17, s),
        14 => run_behind(4, 17, s),
        15 => run_behind(5, 17, s),
        _ => run_behind(what, 14, s),
    }
}

fn run_case(case: &[u8]) {
    let named = cases::window(case, 1, case.len());
    say(cases::name(named));
    say(b"\n");
    run_named(cases::byte(case, 0), cases::behind_name(named));
}

fn main() {
    let mut buf = io::large_buffer();
    let n = io::read_full(0, &mut buf);
    for k in 0..cases::count(&buf[..n], 2) {
        run_case(cases::nth(&buf[..n], 2, k));
    }
}
