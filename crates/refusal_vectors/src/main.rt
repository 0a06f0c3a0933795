// Answers that no body gives: a line for each case, its name and the answer. Standard input holds cases one behind the other, each after its
// length in a byte: what it is, the length of its name, the name, bytes.
//   0: the magic call on these bytes
//   1: a version: a number 100 less than the first byte (255: the least), and 256 times the second
//   2: a part of four bytes: its place and its length, where 255 stands for 18446744073709551615
#![tactic(auto)]

use kinds::Version;
use packer::Part;
use refusal::Refusal;

const STDOUT_FILENO: i32 = 1;

fn say(text: &[u8]) {
    io::write_all(STDOUT_FILENO, text);
}

fn say_refused(why: Refusal) {
    say(b" refused ");
    io::print_decimal(STDOUT_FILENO, why.number() as u64);
    say(b"\n");
}

fn magic(s: &[u8]) {
    match ids::read_magic(s) {
        Ok(n) => {
            if n == 16 {
                say(b" 16 used\n");
            }
        }
        Err(r) => say_refused(r),
    }
}

fn times_256(b: u8) -> i32 {
    num::signed(b as u32 * 256)
}

fn say_version(version: Version) {
    match version {
        Version::V1 => say(b" is V1\n"),
        Version::V2 => say(b" is V2\n"),
    }
}

fn version(s: &[u8]) {
    match kinds::version_of(num::wrapping_add(cases::number(s, 0), times_256(cases::byte(s, 1)))) {
        Ok(v) => say_version(v),
        Err(r) => say_refused(r),
    }
}

fn place(b: u8) -> usize {
    if b == 255 {
        return 18446744073709551615;
    }
    cases::size(b)
}

fn show(at: usize, len: usize) {
    say(b" <");
    say(packer::show(b"abcd", Part { at, len }));
    say(b">\n");
}

fn run_bytes(what: u8, s: &[u8]) {
    match what {
        0 => magic(s),
        1 => version(s),
        _ => show(place(cases::byte(s, 0)), place(cases::byte(s, 1))),
    }
}

fn run_named(what: u8, case: &[u8]) {
    say(cases::name(case));
    run_bytes(what, cases::behind_name(case));
}

fn run_case(case: &[u8]) {
    run_named(cases::byte(case, 0), cases::window(case, 1, case.len()));
}

fn main() {
    let mut buf = io::large_buffer();
    let n = io::read_full(0, &mut buf);
    for k in 0..cases::count(&buf[..n], 1) {
        run_case(cases::nth(&buf[..n], 1, k));
    }
}
