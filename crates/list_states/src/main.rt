// Windows read on beside a list, from readers that no body gives and lists that are full. Standard input holds cases one behind the other,
// each after its length in two bytes, the low one first: what it is, the length of its name, the name, bytes.
//   0: how far the list's count of others is below 2^64 - 1; a reader as alike::reader_in takes it; the flag; a window
//   1: a version and a body, read in one window, then in two for each cut: a line for each cut where that differs
#![tactic(auto)]

use kinds::Version;
use lines::Ending;
use listing::{End, ListRead};
use results::Results;
use state::Reader;
use texts::Text;

const STDOUT_FILENO: i32 = 1;

// ---- lines

fn say(text: &[u8]) {
    io::write_all(STDOUT_FILENO, text);
}

fn print(text: Text) {
    let bytes = text.bytes;
    say(cases::window(&bytes, 0, text.len));
}

fn print_count(word: &[u8], n: usize) {
    say(word);
    io::print_decimal(STDOUT_FILENO, n as u64);
    say(b"\n");
}

// The lines of a list without its last, which is `finish`.
fn print_list(list: Results) {
    let mut text = [0u8; 5286];
    let Ok(n) = result_lines::write_list(list, Ending::Finish, &mut text, 0) else {
        return;
    };
    say(cases::window(&text, 0, cases::difference(n, 7)));
}

fn print_end(end: End) {
    match end {
        End::More => say(b"more\n"),
        End::Finish => print(texts::last(Ending::Finish)),
        End::Refused(why) => print(texts::refused(why)),
    }
}

// ---- lists

// Client 3 has a row, of time 50 in tick 2; client 4 has none, since its mark is 2.
fn list_with(others: u64) -> Results {
    let mut list = Results::empty();
    list.marks[3] = 1;
    list.times[3] = 50;
    list.ticks[3] = 2;
    list.marks[4] = 2;
    list.times[4] = 1;
    list.others = others;
    list
}

fn same_list(a: Results, b: Results) -> bool {
    let mut c: usize = 0;
    while c < 128 {
        if (a.marks[c] != b.marks[c]) | (a.times[c] != b.times[c]) | (a.ticks[c] != b.ticks[c]) {
            return false;
        }
        c += 1;
    }
    a.others == b.others
}

// ---- one window

// What a call said, and whether it left list and reader as they were.
fn report(list: Results, reader: Reader, read: ListRead) {
    let after = read.list;
    let left = read.reader;
    let end = read.end;
    print_list(after);
    print_end(end);
    print_count(b"used ", read.used);
    if read.gave {
        say(b"gave an event\n");
    }
    if same_list(list, after) {
        say(b"list as it was\n");
    }
    if alike::same_reader(reader, left) {
        say(b"reader as it was\n");
    }
}

fn window_case(s: &[u8]) {
    let list = list_with(18446744073709551615 - cases::byte(s, 0) as u64);
    let reader = alike::reader_in(cases::window(s, 1, 15));
    let window = cases::window(s, 16, s.len());
    report(
        list,
        reader,
        listing::read_on(list, reader, window, cases::byte(s, 15) == 1),
    );
}

// ---- two windows

fn first_window(version: Version, window: &[u8], last: bool) -> ListRead {
    listing::read_on(list_with(0), Reader::empty(version), window, last)
}

// The second window begins at the bytes not used; there is none where the first ends the body.
fn in_two(version: Version, body: &[u8], cut: usize) -> ListRead {
    let first = first_window(version, cases::window(body, 0, cut), false);
    let list = first.list;
    let reader = first.reader;
    let end = first.end;
    let End::More = end else {
        return first;
    };
    let mut second = listing::read_on(
        list,
        reader,
        cases::window(body, first.used, body.len()),
        true,
    );
    second.used = cases::past(first.used, second.used, body.len());
    second
}

fn end_number(end: End) -> u8 {
    match end {
        End::More => 100,
        End::Finish => 0,
        End::Refused(why) => why.number(),
    }
}

// Whether two readings end alike, with the same list and reader.
fn same_read(a: ListRead, b: ListRead) -> bool {
    let list = a.list;
    let reader = a.reader;
    let end = a.end;
    let other_list = b.list;
    let other_reader = b.reader;
    let other_end = b.end;
    same_list(list, other_list)
        & alike::same_reader(reader, other_reader)
        & (end_number(end) == end_number(other_end))
        & (a.used == b.used)
}

fn body_case(version: Version, body: &[u8]) {
    let whole = first_window(version, body, true);
    let list = whole.list;
    let end = whole.end;
    print_list(list);
    print_end(end);
    for cut in 0..body.len() {
        if !same_read(whole, in_two(version, body, cut)) {
            print_count(b"differs at ", cut);
        }
    }
    print_count(b"cuts ", body.len());
}

fn version_of(b: u8) -> Version {
    if b == 1 { Version::V1 } else { Version::V2 }
}

// ---- cases

fn run_named(what: u8, s: &[u8]) {
    if what == 0 {
        window_case(s);
        return;
    }
    body_case(version_of(cases::byte(s, 0)), cases::window(s, 1, s.len()));
}

fn run_case(case: &[u8]) {
    let named = cases::window(case, 1, case.len());
    say(cases::name(named));
    run_named(cases::byte(case, 0), cases::behind_name(named));
}

fn main() {
    let mut buf = io::large_buffer();
    let n = io::read_full(0, &mut buf);
    for k in 0..cases::count(&buf[..n], 2) {
        run_case(cases::nth(&buf[..n], 2, k));
    }
}
