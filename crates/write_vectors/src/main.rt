// Writes records: every cause of refusal 11 but data above 2147483647 bytes, which a program has no memory for, each beside a record that is
// written; and records that bytes give. A line is a name, where the case has one, then the written form in hex, `refused` with the number, or
// `-` where the bytes give no record. A record is written with room around it, into a target that it fills, and into one that is a byte short.
// Standard input holds cases one behind the other, each after its length in a byte.
//   1 or 2: a version; then bytes, of which the record is read and written again
//   0: a record made by hand: the length of its name, the name, and what bytes say: version, which record (`simple`, `with_part`, `with_place`), a
//      number, the place of an identifier, the place and the length of a part, the same of every argument, how many arguments; then the
//      bytes lent. From 252 on a byte stands for a large number
#![tactic(auto)]

use fields::Args;
use item::{Item, Record};
use kinds::Version;
use packer::Part;
use record_call::CallAnswer;
use refusal::Refusal;

const STDOUT_FILENO: i32 = 1;

fn say(text: &[u8]) {
    io::write_all(STDOUT_FILENO, text);
}

fn wide(b: u8) -> u64 {
    b as u64
}

fn print_bytes(b: &[u8]) {
    let mut i: usize = 0;
    while i < b.len() {
        io::print_hex(STDOUT_FILENO, wide(b[i]), 2);
        i += 1;
    }
}

fn print_refused(number: u8) {
    say(b"refused ");
    io::print_decimal(STDOUT_FILENO, wide(number));
}

// ---- writing

// A target after the writer, and what this said.
#[derive(Clone, Copy)]
struct Target {
    bytes: [u8; 512],
    wrote: Result<usize, Refusal>,
}

fn write_at(version: Version, value: Record, w: &[u8], at: usize) -> Target {
    let mut bytes = [165u8; 512];
    let wrote = record_writer::write_record(version, value, w, &mut bytes, at);
    Target { bytes, wrote }
}

// The place past the record; 0 in a refusal.
fn end_of(wrote: Result<usize, Refusal>) -> usize {
    match wrote {
        Ok(end) => end,
        Err(_) => 0,
    }
}

// The number of the refusal; 0 if it is written.
fn refused(wrote: Result<usize, Refusal>) -> u8 {
    match wrote {
        Ok(_) => 0,
        Err(r) => r.number(),
    }
}

// Whether a target is untouched from a place to an end.
fn untouched(bytes: [u8; 512], at: usize, end: usize) -> bool {
    let before = [165u8; 512];
    check::same(
        cases::window(&bytes, at, end),
        cases::window(&before, at, end),
    )
}

// Whether two targets have the same bytes from a place in each.
fn same_from(a: [u8; 512], i: usize, b: [u8; 512], j: usize, size: usize) -> bool {
    check::same(
        cases::window(&a, i, cases::past(i, size, 512)),
        cases::window(&b, j, cases::past(j, size, 512)),
    )
}

// Into a target that has one byte too few: refused 9, and the target stays.
fn short(version: Version, value: Record, w: &[u8], size: usize) -> bool {
    let target = write_at(version, value, w, cases::difference(513, size));
    let bytes = target.bytes;
    let wrote = target.wrote;
    (refused(wrote) == 9) & untouched(bytes, 0, 512)
}

// Into a target that the record fills to its end: the bytes that stood at place 3, and nothing before them.
fn full(version: Version, value: Record, w: &[u8], first: [u8; 512], size: usize) -> bool {
    let at = cases::difference(512, size);
    let target = write_at(version, value, w, at);
    let bytes = target.bytes;
    let wrote = target.wrote;
    (end_of(wrote) == 512) & same_from(bytes, at, first, 3, size) & untouched(bytes, 0, at)
}

// With room around the record: nothing is written beside it.
fn only(bytes: [u8; 512], end: usize) -> bool {
    untouched(bytes, 0, 3) & untouched(bytes, end, 512)
}

fn print_wrote(target: Target) {
    let bytes = target.bytes;
    let wrote = target.wrote;
    match wrote {
        Ok(end) => print_bytes(cases::window(&bytes, 3, end)),
        Err(r) => print_refused(r.number()),
    }
}

// Whether the other two targets agree, and the rest of this one is untouched.
fn agrees(version: Version, value: Record, w: &[u8], bytes: [u8; 512], end: usize) -> bool {
    let size = cases::difference(end, 3);
    full(version, value, w, bytes, size) & short(version, value, w, size) & only(bytes, end)
}

fn right(version: Version, value: Record, w: &[u8], target: Target) -> bool {
    let bytes = target.bytes;
    let wrote = target.wrote;
    match wrote {
        Ok(end) => agrees(version, value, w, bytes, end),
        Err(_) => untouched(bytes, 0, 512),
    }
}

fn write_line(version: Version, value: Record, w: &[u8]) {
    let target = write_at(version, value, w, 3);
    print_wrote(target);
    if !right(version, value, w, target) {
        say(b" another target differs, or bytes beside the record");
    }
    say(b"\n");
}

// ---- a record made by hand

fn number(s: &[u8], i: usize) -> usize {
    match cases::byte(s, i) {
        252 => 2147483647,
        253 => 2147483648,
        254 => 4294967295,
        255 => 18446744073709551615,
        b => cases::size(b),
    }
}

fn word(n: usize) -> u32 {
    (n % 4294967296) as u32
}

fn part_in(s: &[u8], at: usize, len: usize) -> Part {
    Part {
        at: number(s, at),
        len: number(s, len),
    }
}

fn version_of(b: u8) -> Version {
    if b == 1 { Version::V1 } else { Version::V2 }
}

fn simple(which: u8, n: u32) -> Item {
    match which {
        0 => Item::PlayerDiff {
            cid: num::signed(n),
            dx: 1,
            dy: -1,
        },
        1 => Item::TickSkip { dt: n },
        2 => Item::Joinver6 { cid: 5 },
        _ => Item::PlayerSwap { cid1: 5, cid2: 6 },
    }
}

fn with_part(which: u8, p: Part) -> Item {
    match which {
        4 => Item::ConsoleCommand {
            cid: 5,
            flag_mask: 4294967295,
            cmd: p,
        },
        5 => Item::Drop { cid: 5, reason: p },
        6 => Item::AuthInit {
            cid: 5,
            level: 6,
            identity: p,
        },
        7 => Item::AuthLogin {
            cid: 5,
            level: 6,
            identity: p,
        },
        8 => Item::PlayerName { cid: 5, name: p },
        9 => Item::Message { cid: 5, msg: p },
        _ => Item::Antibot { data: p },
    }
}

// With an identifier of 16 bytes that begins at a place.
fn with_place(which: u8, place: usize, p: Part) -> Item {
    match which {
        11 => Item::Ddnetver {
            cid: 5,
            connection_id: place,
            ddnet_version: 6,
            ddnet_version_str: p,
        },
        12 => Item::TeamLoadSuccess {
            team: 5,
            save_uuid: place,
            save: p,
        },
        13 => Item::TeamSaveSuccess {
            team: 5,
            save_uuid: place,
            save: p,
        },
        _ => Item::UnknownEx {
            uuid: place,
            data: p,
        },
    }
}

fn item_in(s: &[u8]) -> Item {
    let which = cases::byte(s, 1);
    if which < 4 {
        return simple(which, word(number(s, 2)));
    }
    if which < 11 {
        return with_part(which, part_in(s, 4, 5));
    }
    with_place(which, number(s, 3), part_in(s, 4, 5))
}

fn record_in(s: &[u8]) -> Record {
    let args = Args {
        count: number(s, 8),
        parts: [part_in(s, 6, 7); 16],
    };
    Record {
        item: item_in(s),
        input: [0; 10],
        args,
    }
}

// Written with the bytes lent, which stand behind what the record is made of.
fn write_made(s: &[u8]) {
    let version = version_of(cases::byte(s, 0));
    write_line(version, record_in(s), cases::window(s, 9, s.len()));
}

fn by_hand(s: &[u8]) {
    say(cases::name(s));
    say(b" ");
    write_made(cases::behind_name(s));
}

// ---- a record that bytes give

fn by_bytes(version: Version, w: &[u8]) {
    let call = record_call::record_call(version, w, true);
    let answer = call.answer;
    let value = call.value;
    if let CallAnswer::Got(_) = answer {
        write_line(version, value, w);
        return;
    }
    say(b"-\n");
}

fn run_case(case: &[u8]) {
    let what = cases::byte(case, 0);
    let rest = cases::window(case, 1, case.len());
    if what == 0 {
        by_hand(rest);
        return;
    }
    by_bytes(version_of(what), rest);
}

fn main() {
    let mut buf = cases::buffer();
    let n = io::read_full(0, &mut buf);
    for k in 0..cases::count(&buf[..n], 1) {
        run_case(cases::nth(&buf[..n], 1, k));
    }
}
