// Lists bodies that are whole in memory, by the linked call, and prints their lists as the ladder program does. Beside each, silent unless it is wrong:
// what stands behind the rows in the arrays lent; the list that is made event by event.
// Standard input holds inputs one behind the other, each after its length in three bytes, the low one first: a version byte, then a body.
#![tactic(auto)]

use kinds::Version;
use lines::Ending;
use refusal::Refusal;
use results::Results;
use state::{Answer, Event, Reader};
use texts::Text;

const STDOUT_FILENO: i32 = 1;

fn say(text: &[u8]) {
    io::write_all(STDOUT_FILENO, text);
}

fn print(text: Text) {
    let bytes = text.bytes;
    say(cases::window(&bytes, 0, text.len));
}

// ---- the list of a body

// What the arrays hold when they are lent.
const CLIENT: i32 = -7;

const TIME: i32 = -8;

const TICK: i32 = -9;

// A place of the arrays: a row, or what was lent.
fn print_place(row: bool, client: i32, time: i32, tick: i32) {
    if row {
        print(texts::plain(b"row", &[client, time, tick]));
        return;
    }
    if (client != CLIENT) | (time != TIME) | (tick != TICK) {
        say(b"behind changed\n");
    }
}

fn print_rows(rows: usize, clients: &[i32; 128], times: &[i32; 128], ticks: &[i32; 128]) {
    let mut i: usize = 0;
    while i < 128 {
        print_place(i < rows, clients[i], times[i], ticks[i]);
        i += 1;
    }
}

fn print_others(n: u64) {
    say(b"others ");
    io::print_decimal(STDOUT_FILENO, n);
    say(b"\n");
}

// 0 stands for finish.
fn print_end(number: u64) {
    if number == 0 {
        print(texts::last(Ending::Finish));
        return;
    }
    say(b"refused ");
    io::print_decimal(STDOUT_FILENO, number);
    say(b"\n");
}

// ---- the same event by event

// A reader at its place in the body, and the list of what it read; or that it has ended.
#[derive(Clone, Copy)]
struct Spot {
    reader: Reader,
    at: usize,
    list: Results,
    over: bool,
}

fn count_in(counted: Result<u64, Refusal>, before: u64) -> u64 {
    match counted {
        Ok(n) => n,
        Err(_) => before,
    }
}

fn kept(event: Event, tick: i32, list: Results) -> Results {
    let mut marks = list.marks;
    let mut times = list.times;
    let mut ticks = list.ticks;
    let counted = results::keep_event(event, tick, list.others, &mut marks, &mut times, &mut ticks);
    Results {
        marks,
        times,
        ticks,
        others: count_in(counted, list.others),
    }
}

// A call with a window to the body's end, which is the last.
fn one_call(spot: Spot, body: &[u8]) -> Spot {
    let mut next = spot;
    let before = spot.reader;
    let list = spot.list;
    let read = reader::read(before, cases::window(body, spot.at, body.len()), true);
    let answer = read.answer;
    let reader = read.reader;
    let Answer::Event { event, used } = answer else {
        next.over = true;
        return next;
    };
    next.list = kept(event, reader.scalars.tick, list);
    next.reader = reader;
    next.at = cases::past(spot.at, used, body.len());
    next
}

fn by_events(version: Version, body: &[u8]) -> Results {
    let mut spot = Spot {
        reader: Reader::empty(version),
        at: 0,
        list: Results::empty(),
        over: false,
    };
    for _ in 0..400000usize {
        spot = one_call(spot, body);
        if spot.over {
            return spot.list;
        }
    }
    spot.list
}

fn same<'a>(a: &'a [i32; 128], b: &'a [i32; 128]) -> bool {
    let mut i: usize = 0;
    while i < 128 {
        if a[i] != b[i] {
            return false;
        }
        i += 1;
    }
    true
}

// Whether a list has the rows that stand in the arrays.
fn has_rows(
    list: Results,
    rows: usize,
    clients: &[i32; 128],
    times: &[i32; 128],
    ticks: &[i32; 128],
) -> bool {
    let mut cs = [CLIENT; 128];
    let mut ts = [TIME; 128];
    let mut ks = [TICK; 128];
    let n = ranking::rank(list, &mut cs, &mut ts, &mut ks);
    (n == rows) & same(&cs, clients) & same(&ts, times) & same(&ks, ticks)
}

// ---- inputs

fn is_second(version: Version) -> bool {
    match version {
        Version::V1 => false,
        Version::V2 => true,
    }
}

fn run_body(version: Version, body: &[u8]) {
    let mut clients = [CLIENT; 128];
    let mut times = [TIME; 128];
    let mut ticks = [TICK; 128];
    let mut two = [7u64; 2];
    let rows = list_linked::jolzerv_list_body(
        is_second(version),
        body,
        &mut clients,
        &mut times,
        &mut ticks,
        &mut two,
    );
    print_rows(rows, &clients, &times, &ticks);
    print_others(two[0]);
    print_end(two[1]);
    let list = by_events(version, body);
    if !(has_rows(list, rows, &clients, &times, &ticks) & (list.others == two[0])) {
        say(b"event by event differs\n");
    }
}

fn refuse(why: Refusal) {
    print_others(0);
    print(texts::refused(why));
}

fn run_case(input: &[u8]) {
    match kinds::version_of(cases::first(input)) {
        Ok(version) => run_body(version, cases::window(input, 1, input.len())),
        Err(why) => refuse(why),
    }
}

fn main() {
    let mut buf = cases::buffer();
    let n = io::read_full(0, &mut buf);
    for k in 0..cases::count(&buf[..n], 3) {
        run_case(cases::nth(&buf[..n], 3, k));
    }
}
