// Many events in one call on a reader with teams, run: the rows, why the call stopped, and the team entry that is left.
// Standard input holds cases one behind the other, each after its length in two bytes, the low one first: the length of a name, the name, a
// reader as team_alike::team_reader_in takes it (17 bytes), a window, which is the last. Behind the rows stand the mark and the number of the
// client that the reader's last three bytes name.
#![tactic(auto)]

use lines::Ending;
use many::{ManyAnswer, Stop};
use teams::TeamReader;
use texts::Text;

const STDOUT_FILENO: i32 = 1;

fn say(text: &[u8]) {
    io::write_all(STDOUT_FILENO, text);
}

fn print(text: Text) {
    let bytes = text.bytes;
    say(cases::window(&bytes, 0, text.len));
}

fn print_stop(stop: Stop) {
    match stop {
        Stop::Full => say(b"full\n"),
        Stop::More => say(b"more\n"),
        Stop::Finish => print(texts::last(Ending::Finish)),
        Stop::Refused(r) => print(texts::refused(r)),
    }
}

// Row i of eight.
fn print_row(rows: &[i32; 64], i: usize) {
    if 8 <= i {
        return;
    }
    let at = 8 * i;
    let row = [
        rows[at],
        rows[at + 1],
        rows[at + 2],
        rows[at + 3],
        rows[at + 4],
        rows[at + 5],
        rows[at + 6],
        rows[at + 7],
    ];
    print(texts::plain(b"row", &row));
}

fn print_rows(rows: &[i32; 64], count: usize) {
    for i in 0..8usize {
        if i < count {
            print_row(rows, i);
        }
    }
}

fn print_team(reader: TeamReader, c: usize) {
    let teams = reader.teams;
    if c < 128 {
        print(texts::plain(b"team", &[teams[2 * c], teams[2 * c + 1]]));
    }
}

fn report(many: ManyAnswer, rows: &[i32; 64], c: usize) {
    let stop = many.stop;
    let left = many.reader;
    print_rows(rows, many.count);
    print_stop(stop);
    print_team(left, c);
}

// Room for eight events.
fn read_case(s: &[u8]) {
    let mut rows = [0i32; 64];
    let mut tens = [0i32; 160];
    let reader = team_alike::team_reader_in(cases::window(s, 0, 17));
    let many = many::read_many(
        reader,
        cases::window(s, 17, s.len()),
        true,
        &mut rows,
        &mut tens,
    );
    report(many, &rows, cases::size(cases::byte(s, 14)));
}

fn run_case(case: &[u8]) {
    say(cases::name(case));
    say(b"\n");
    read_case(cases::behind_name(case));
}

fn main() {
    let mut buf = io::large_buffer();
    let n = io::read_full(0, &mut buf);
    for k in 0..cases::count(&buf[..n], 2) {
        run_case(cases::nth(&buf[..n], 2, k));
    }
}
