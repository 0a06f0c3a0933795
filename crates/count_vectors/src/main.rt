// Asks for the empty reader of a version and counts the events of a body by the three libraries. Standard input holds inputs one behind the
// other, each after its length in two bytes, the low one first: a version byte, then a body. Of each it prints `refused n`, or `wanted v t l`
// (version, tick, largest client), `good a b` (1 if the reader is good; the same of that reader at tick -1) and `events n n n`.
#![tactic(auto)]

use kinds::Version;
use state::Reader;
use texts::Text;

const STDOUT_FILENO: i32 = 1;

fn print(text: Text) {
    let bytes = text.bytes;
    io::write_all(STDOUT_FILENO, cases::window(&bytes, 0, text.len));
}

fn small(n: u64) -> i32 {
    (n % 2147483648) as i32
}

fn flag(b: bool) -> i32 {
    if b { 1 } else { 0 }
}

fn version_number(version: Version) -> i32 {
    match version {
        Version::V1 => 1,
        Version::V2 => 2,
    }
}

// The reader at tick -1, which is refused 17.
fn bad(reader: Reader) -> Reader {
    let mut scalars = reader.scalars;
    let entries = reader.entries;
    scalars.tick = -1;
    Reader { scalars, entries }
}

fn print_reader(version: i32, tick: i32, largest: i32) {
    print(texts::plain(b"wanted", &[version, tick, largest]));
}

fn print_good(reader: Reader) {
    let fine = flag(queries::is_good(reader));
    let spoilt = flag(queries::is_good(bad(reader)));
    print(texts::plain(b"good", &[fine, spoilt]));
}

fn print_counts(second: bool, body: &[u8]) {
    let each = small(count_each::jolzerv_count_each(second, body));
    let lent = small(count_lent::jolzerv_count_lent(second, body));
    let many = small(count_many::jolzerv_count_many(second, body));
    print(texts::plain(b"events", &[each, lent, many]));
}

fn run_reader(reader: Reader, body: &[u8]) {
    let s = reader.scalars;
    let v = s.version;
    let version = version_number(v);
    print_reader(version, s.tick, s.largest);
    print_good(reader);
    print_counts(version == 2, body);
}

fn run_case(input: &[u8]) {
    if input.len() == 0 {
        return;
    }
    match queries::wanted(cases::first(input)) {
        Ok(reader) => run_reader(reader, cases::window(input, 1, input.len())),
        Err(why) => print(texts::refused(why)),
    }
}

fn main() {
    let mut buf = io::large_buffer();
    let n = io::read_full(0, &mut buf);
    for k in 0..cases::count(&buf[..n], 2) {
        run_case(cases::nth(&buf[..n], 2, k));
    }
}
