// Runs the record call over the cases on standard input and prints a line for each, in the form of the oracle's `records`: the bytes
// used, the record's name and its fields; `runs out`; or `refused` with the number and the kind. A case is a length in a byte, a version
// and bytes. Each is called with the flag off and on: where the bytes run out the second call is to be refused 3, elsewhere to say the
// same.
#![tactic(auto)]

ghost use Rattle.std.specs.Prelude.{◌<◌};

use extensions::Extension;
use item::{Record, Tag};
use kinds::Version;
use packer::Part;
use record_call::{CallAnswer, RecordCall};
use refusal::Refusal;
use shapes::Fields;

const STDOUT_FILENO: i32 = 1;

// What is printed of each: 1 the kind's client, 2 a number, 4 an identifier, 8 another number, 16 a part, 32 ten numbers, 64 arguments.
const FIELDS: [u8; 32] = [
    16, 26, 26, 2, 30, 10, 2, 2, 10, 18, 2, 2, 10, 10, 10, 2, 22, 10, 2, 22, 11, 0, 2, 11, 1, 34,
    34, 18, 2, 18, 90, 20,
];

// The rows of the kinds are in the order of their numbers, downwards from that of PlayerDiff.
fn kind_row(number: i32) -> usize
    ensures { result < 32 }
{
    if 0 <= number {
        return 20;
    }
    let k = num::bits(!number);
    if k < 11 {
        return 21 + k as usize;
    }
    31
}

fn extension_row(which: Extension) -> usize
    ensures { result < 32 }
{
    match which {
        Extension::Antibot => 0,
        Extension::AuthInit => 1,
        Extension::AuthLogin => 2,
        Extension::AuthLogout => 3,
        Extension::Ddnetver => 4,
        Extension::DdnetverOld => 5,
        Extension::Joinver6 => 6,
        Extension::Joinver7 => 7,
        Extension::PlayerFinish => 8,
        Extension::PlayerName => 9,
        Extension::PlayerReady => 10,
        Extension::PlayerRejoin => 11,
        Extension::PlayerSwap => 12,
        Extension::PlayerTeam => 13,
        Extension::TeamFinish => 14,
        Extension::TeamLoadFailure => 15,
        Extension::TeamLoadSuccess => 16,
        Extension::TeamPractice => 17,
        Extension::TeamSaveFailure => 18,
        Extension::TeamSaveSuccess => 19,
    }
}

fn row_of(tag: Tag) -> usize
    ensures { result < 32 }
{
    match tag {
        Tag::Plain(kind) => kind_row(kind.number()),
        Tag::Named(which) => extension_row(which),
        Tag::Other => 31,
    }
}

fn say(text: &[u8]) {
    io::write_all(STDOUT_FILENO, text);
}

// The 20 extensions, the kinds, UnknownEx: their names one behind the other, and where each begins.
const STARTS: [usize; 33] = [
    0, 7, 15, 24, 34, 42, 53, 61, 69, 81, 91, 102, 114, 124, 134, 144, 159, 174, 186, 201, 216,
    226, 232, 240, 249, 258, 267, 275, 282, 286, 290, 304, 313,
];

fn print_name(row: usize)
    requires { row < 32 }
{
    let names =
        b"AntibotAuthInitAuthLoginAuthLogoutDdnetverDdnetverOldJoinver6Joinver7PlayerFinishPlayerNamePlayerReadyPlayerRejoinPlayerSwapPlayerTeamTeamFinishTeamLoadFailureTeamLoadSuccessTeamPracticeTeamSaveFailureTeamSaveSuccessPlayerDiffFinishTickSkipPlayerNewPlayerOldInputDiffInputNewMessageJoinDropConsoleCommandUnknownEx";
    say(cases::window(names, STARTS[row], STARTS[row + 1]));
}

fn print_unsigned(n: u32) {
    say(b" ");
    io::print_decimal(STDOUT_FILENO, n as u64);
}

fn print_signed(value: i32) {
    say(b" ");
    if value < 0 {
        say(b"-");
        io::print_decimal(STDOUT_FILENO, 4294967296 - num::bits(value) as u64);
        return;
    }
    io::print_decimal(STDOUT_FILENO, num::bits(value) as u64);
}

fn wide(b: u8) -> u64 {
    b as u64
}

// Bytes as lowercase hex digits; `-` for none.
fn print_bytes(b: &[u8]) {
    say(b" ");
    if b.len() == 0 {
        say(b"-");
    }
    let mut i: usize = 0;
    while i < b.len() {
        io::print_hex(STDOUT_FILENO, wide(b[i]), 2);
        i += 1;
    }
}

fn print_ten(input: [i32; 10]) {
    for k in 0..10usize {
        print_signed(input[k]);
    }
}

fn print_args(w: &[u8], count: usize, parts: [Part; 16]) {
    say(b" ");
    io::print_decimal(STDOUT_FILENO, count as u64);
    let mut k: usize = 0;
    while k < count {
        if 16 <= k {
            return;
        }
        let p = parts[k];
        print_bytes(packer::show(w, p));
        k += 1;
    }
}

fn print_client(cid: Option<i32>) {
    if let Some(c) = cid {
        print_signed(c);
    }
}

fn has(fields: u8, bit: u8) -> bool
    requires { 0 < bit }
{
    fields / bit % 2 == 1
}

// A number, an identifier and another number.
fn print_numbers(w: &[u8], fields: u8, f: Fields) {
    if has(fields, 2) {
        print_signed(f.first);
    }
    if has(fields, 4) {
        let id = Part {
            at: f.uuid,
            len: 16,
        };
        print_bytes(packer::show(w, id));
    }
    if has(fields, 8) {
        if has(fields, 64) {
            print_unsigned(num::bits(f.second));
        } else {
            print_signed(f.second);
        }
    }
}

// A part, ten numbers and arguments.
fn print_rest(w: &[u8], fields: u8, text: Part, value: Record) {
    if has(fields, 16) {
        print_bytes(packer::show(w, text));
    }
    if has(fields, 32) {
        let input = value.input;
        print_ten(input);
    }
    if has(fields, 64) {
        let args = value.args;
        let parts = args.parts;
        print_args(w, args.count, parts);
    }
}

fn print_record(w: &[u8], used: usize, value: Record) {
    let item = value.item;
    let t = item.take_apart();
    let tag = t.tag;
    let f = t.fields;
    let text = f.text;
    let row = row_of(tag);
    let fields = FIELDS[row];
    io::print_decimal(STDOUT_FILENO, used as u64);
    say(b" ");
    print_name(row);
    if has(fields, 1) {
        print_client(item.cid());
    }
    print_numbers(w, fields, f);
    print_rest(w, fields, text, value);
}

fn print_refusal(r: Refusal) {
    say(b"refused ");
    io::print_decimal(STDOUT_FILENO, r.number() as u64);
    if let Refusal::UnknownType(kind) = r {
        print_signed(kind);
    }
}

fn print_call(w: &[u8], call: RecordCall) {
    let answer = call.answer;
    let value = call.value;
    match answer {
        CallAnswer::Got(used) => print_record(w, used, value),
        CallAnswer::More => say(b"runs out"),
        CallAnswer::Refused(r) => print_refusal(r),
    }
    say(b"\n");
}

// The number of a refusal; that of *more* is given; 0 of a record.
fn number_of(answer: CallAnswer, more: u8) -> u8 {
    match answer {
        CallAnswer::Got(_) => 0,
        CallAnswer::More => more,
        CallAnswer::Refused(r) => r.number(),
    }
}

fn used_in(answer: CallAnswer) -> usize {
    match answer {
        CallAnswer::Got(used) => used,
        CallAnswer::More => 0,
        CallAnswer::Refused(_) => 0,
    }
}

// Whether the call with the flag on says what it should beside the one with the flag off: 3 in the place of *more*, else the same.
fn flag_agrees(off: CallAnswer, on: CallAnswer) -> bool {
    (number_of(off, 3) == number_of(on, 255)) & (used_in(off) == used_in(on))
}

fn version_of(b: u8) -> Version {
    if b == 1 { Version::V1 } else { Version::V2 }
}

// The answer with the flag on.
fn answer_on(version: Version, w: &[u8]) -> CallAnswer {
    let call = record_call::record_call(version, w, true);
    let answer = call.answer;
    answer
}

fn call_twice(version: Version, w: &[u8]) {
    let off = record_call::record_call(version, w, false);
    let answer = off.answer;
    print_call(w, off);
    if !flag_agrees(answer, answer_on(version, w)) {
        say(b"the flag changes the answer\n");
    }
}

fn run_case(case: &[u8]) {
    call_twice(
        version_of(cases::byte(case, 0)),
        cases::window(case, 1, case.len()),
    );
}

fn main() {
    let mut buf = io::large_buffer();
    let n = io::read_full(0, &mut buf);
    for k in 0..cases::count(&buf[..n], 1) {
        run_case(cases::nth(&buf[..n], 1, k));
    }
}
