// Lists made by hand: their rows in order, and an event kept in one. Standard input holds cases one behind the other, each after its length
// in two bytes, the low one first: what it is, the length of its name, the name, a list, bytes.
//   0: the list is ranked
//   1: an event and the tick that is open at it: the event is kept in the list, which is ranked
// Rows are printed by client, and `falls` where a time does, so that the order of equal times isn't seen.
#![tactic(auto)]

use item::Item;
use refusal::Refusal;
use results::Results;
use state::Event;
use texts::Text;

const STDOUT_FILENO: i32 = 1;

fn say(text: &[u8]) {
    io::write_all(STDOUT_FILENO, text);
}

fn print(text: Text) {
    let bytes = text.bytes;
    say(cases::window(&bytes, 0, text.len));
}

fn print_count(word: &[u8], n: u64) {
    say(word);
    io::print_decimal(STDOUT_FILENO, n);
    say(b"\n");
}

// ---- a list in bytes: how far its count of others is below 2^64 - 1, 255 for a count of 0; how many entries follow; of each the client, the
// mark, the time, the tick

// A number of a byte, 100 more than it; 254 stands for the largest, 255 for the least.
fn number(s: &[u8], i: usize) -> i32 {
    if cases::byte(s, i) == 254 {
        return 2147483647;
    }
    cases::number(s, i)
}

fn others_of(b: u8) -> u64 {
    if b == 255 {
        return 0;
    }
    18446744073709551615 - b as u64
}

// The list with one more entry.
fn with_entry(list: Results, s: &[u8]) -> Results {
    let c = cases::size(cases::byte(s, 0));
    if 128 <= c {
        return list;
    }
    let mut made = list;
    made.marks[c] = cases::byte(s, 1);
    made.times[c] = number(s, 2);
    made.ticks[c] = number(s, 3);
    made
}

fn list_in(s: &[u8]) -> Results {
    let mut list = Results::empty();
    list.others = others_of(cases::byte(s, 0));
    let n = cases::size(cases::byte(s, 1));
    for k in 0..n {
        list = with_entry(list, cases::window(s, 2 + 4 * k, s.len()));
    }
    list
}

// What stands behind a list.
fn behind_list(s: &[u8]) -> &[u8] {
    let n = cases::size(cases::byte(s, 1));
    cases::window(s, 2 + 4 * n, s.len())
}

// ---- its rows

// The rows of a client among the first so many of the arrays.
fn print_rows_of(
    client: i32,
    rows: usize,
    clients: &[i32; 128],
    times: &[i32; 128],
    ticks: &[i32; 128],
) {
    let mut i: usize = 0;
    while i < 128 {
        if (i < rows) & (clients[i] == client) {
            print(texts::plain(b"row", &[client, times[i], ticks[i]]));
        }
        i += 1;
    }
}

// A place behind one of this time: a row whose time is no lower, or what was lent.
fn check_place(row: bool, before: i32, client: i32, time: i32, tick: i32) {
    if row {
        if time < before {
            say(b"falls\n");
        }
        return;
    }
    if (client != -7) | (time != -8) | (tick != -9) {
        say(b"behind changed\n");
    }
}

fn check_places(rows: usize, clients: &[i32; 128], times: &[i32; 128], ticks: &[i32; 128]) {
    let mut before = -2147483648i32;
    let mut i: usize = 0;
    while i < 128 {
        let time = times[i];
        check_place(i < rows, before, clients[i], time, ticks[i]);
        before = time;
        i += 1;
    }
}

fn print_list(list: Results) {
    let mut clients = [-7i32; 128];
    let mut times = [-8i32; 128];
    let mut ticks = [-9i32; 128];
    let rows = ranking::rank(list, &mut clients, &mut times, &mut ticks);
    print_count(b"rows ", rows as u64);
    for c in 0..128usize {
        print_rows_of(c as i32, rows, &clients, &times, &ticks);
    }
    check_places(rows, &clients, &times, &ticks);
    print_count(b"others ", list.others);
}

// ---- an event

// 0 a PlayerFinish, 1 a TeamFinish, else a TickStart; its numbers.
fn event_in(s: &[u8]) -> Event {
    let what = cases::byte(s, 0);
    if what == 0 {
        return Event::Record(Item::PlayerFinish {
            cid: number(s, 1),
            time_ticks: number(s, 2),
        });
    }
    if what == 1 {
        return Event::Record(Item::TeamFinish {
            team: number(s, 1),
            time_ticks: number(s, 2),
        });
    }
    Event::TickStart(number(s, 1))
}

// The count; a refusal is printed, and the count stays.
fn count_in(counted: Result<u64, Refusal>, before: u64) -> u64 {
    match counted {
        Ok(n) => n,
        Err(why) => {
            print(texts::refused(why));
            before
        }
    }
}

fn keep(list: Results, s: &[u8]) {
    let mut marks = list.marks;
    let mut times = list.times;
    let mut ticks = list.ticks;
    let counted = results::keep_event(
        event_in(s),
        number(s, 3),
        list.others,
        &mut marks,
        &mut times,
        &mut ticks,
    );
    print_list(Results {
        marks,
        times,
        ticks,
        others: count_in(counted, list.others),
    });
}

// ---- cases

fn run_named(what: u8, s: &[u8]) {
    if what == 0 {
        print_list(list_in(s));
        return;
    }
    keep(list_in(s), behind_list(s));
}

fn run_case(case: &[u8]) {
    let named = cases::window(case, 1, case.len());
    say(cases::name(named));
    run_named(cases::byte(case, 0), cases::behind_name(named));
}

fn main() {
    let mut buf = io::large_buffer();
    let n = io::read_full(0, &mut buf);
    for k in 0..cases::count(&buf[..n], 2) {
        run_case(cases::nth(&buf[..n], 2, k));
    }
}
