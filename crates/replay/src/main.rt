// The replay program: standard input is a version byte, 01 or 02, and a body; a line is printed for each event, and a last line. Lines come
// as the bytes come: what is at hand is replayed before more is read.
#![tactic(auto)]

ghost use Rattle.std.specs.Prelude.{◌≡◌, ◌<◌, length};

use feed::Hand;
use kinds::Version;
use lines::Ending;
use packer::Part;
use refusal::Refusal;
use replayer::Turned;
use std::io::Read;
use teams::TeamReader;

const STDOUT_FILENO: i32 = 1;

const STDERR_FILENO: i32 = 2;

// What a turn leaves to the next: whether there is a next, and whether it wants more bytes.
#[derive(Clone, Copy)]
struct Left {
    reader: TeamReader,
    hand: Hand,
    goes: bool,
    wants: bool,
}

// What is at hand after a read, and whether the read failed.
#[derive(Clone, Copy)]
struct Fed {
    hand: Hand,
    failed: bool,
}

fn say(text: &[u8]) {
    io::write_all(STDERR_FILENO, text);
}

// The first n bytes: whether they were written.
fn print(text: &[u8], n: usize) -> bool {
    let start = Part { at: 0, len: n };
    if io::write_all(STDOUT_FILENO, packer::show(text, start)) {
        return true;
    }
    say(b"replay: a write failed\n");
    false
}

// Whether another turn follows one whose text is printed.
fn goes_on(text: &[u8], filled: usize, ended: bool) -> bool {
    if print(text, filled) {
        return !ended;
    }
    false
}

// One read, behind the bytes at hand.
fn read_on(input: &mut impl Read, buf: &mut [u8], hand: Hand) -> Fed {
    let n = feed::keep(buf, hand);
    let Ok(more) = input.read(&mut buf[n..]) else {
        say(b"replay: a read failed\n");
        return Fed { hand, failed: true };
    };
    Fed {
        hand: feed::grow(buf.len(), n, more),
        failed: false,
    }
}

fn left_after(turned: Turned, hand: Hand, goes: bool) -> Left {
    let reader = turned.reader;
    Left {
        reader,
        hand: feed::pass(hand, turned.used),
        goes,
        wants: turned.wants,
    }
}

// A turn on the bytes at hand, and its text.
fn one_turn(left: Left, buf: &[u8], rows: &mut [i32], tens: &mut [i32], out: &mut [u8]) -> Left {
    let reader = left.reader;
    let hand = left.hand;
    let turned = replayer::turn(reader, feed::window(buf, hand), hand.ended, rows, tens, out);
    let goes = goes_on(out, turned.filled, turned.ended);
    left_after(turned, hand, goes)
}

// A read, where more bytes are wanted.
fn with_read(left: Left, input: &mut impl Read, buf: &mut [u8]) -> Left {
    let mut next = left;
    if good::both(next.goes, next.wants) {
        let fed = read_on(input, buf, next.hand);
        let hand = fed.hand;
        next.hand = hand;
        next.goes = !fed.failed;
        next.wants = false;
    }
    next
}

// A turn, and a read where it wants more bytes.
fn round(
    left: Left,
    input: &mut impl Read,
    buf: &mut [u8],
    rows: &mut [i32],
    tens: &mut [i32],
    out: &mut [u8],
) -> Left {
    with_read(one_turn(left, buf, rows, tens, out), input, buf)
}

// The turns that may follow: fewer than there were, and none where none follows.
fn fewer(turns: u64, goes: bool) -> u64
    requires { 0 < turns }
    ensures { result < turns }
{
    if goes {
        return turns - 1;
    }
    0
}

// Turns until one is the last. Each gives an event, the last line or a read; their number is there to bound them.
fn replay(
    first: Left,
    input: &mut impl Read,
    buf: &mut [u8],
    rows: &mut [i32],
    tens: &mut [i32],
    out: &mut [u8],
) {
    let mut left = first;
    let mut turns: u64 = fewer(18446744073709551615, left.goes);
    while 0 < turns {
        left = round(left, input, buf, rows, tens, out);
        turns = fewer(turns, left.goes);
    }
}

fn refuse(refusal: Refusal) {
    let mut line = [0u8; 138];
    let Ok(n) = lines::write_last(Ending::Refused(refusal), &mut line, 0) else {
        return;
    };
    print(&line, n);
}

fn number(b: u8) -> i32 {
    b as i32
}

// What the first turn of a body begins with: what is at hand, behind the version byte.
fn first_left(version: Version, hand: Hand, goes: bool) -> Left {
    Left {
        reader: TeamReader::empty(version),
        hand: feed::pass(hand, 1),
        goes,
        wants: false,
    }
}

// No turn follows.
fn no_turn(hand: Hand) -> Left {
    first_left(Version::V1, hand, false)
}

// The version byte.
fn behind_version(number: i32, hand: Hand) -> Left {
    match kinds::version_of(number) {
        Ok(version) => first_left(version, hand, true),
        Err(r) => {
            refuse(r);
            no_turn(hand)
        }
    }
}

// After the first read. A body that ends before its version byte is refused 2.
fn begun(fed: Fed, buf: &[u8]) -> Left {
    let hand = fed.hand;
    if fed.failed {
        return no_turn(hand);
    }
    if hand.ended {
        refuse(Refusal::UnknownVersion);
        return no_turn(hand);
    }
    if buf.len() == 0 {
        return no_turn(hand);
    }
    behind_version(number(buf[0]), hand)
}

fn begin(input: &mut impl Read, buf: &mut [u8]) -> Left {
    let fed = read_on(input, buf, Hand::empty());
    begun(fed, buf)
}

// The arrays that main lends.
fn buffer() -> [u8; 131072]
    ensures { 131072 ≡ length result }
{
    [0; 131072]
}

fn row_space() -> [i32; 32768]
    ensures { 32768 ≡ length result }
{
    [0; 32768]
}

fn ten_space() -> [i32; 81920]
    ensures { 81920 ≡ length result }
{
    [0; 81920]
}

fn text_space() -> [u8; 565524]
    ensures { 565524 ≡ length result }
{
    [0; 565524]
}

fn main(rt: HostRuntime) {
    let mut input = rt.stdin();
    let mut buf = buffer();
    let mut rows = row_space();
    let mut tens = ten_space();
    let mut out = text_space();
    let first = begin(&mut input, &mut buf);
    replay(first, &mut input, &mut buf, &mut rows, &mut tens, &mut out);
}
