// The ladder program: standard input is a version byte, 01 or 02, and a body; its results list is printed, a row for each client that
// finished, the number of the finishes of other clients, and a last line. What is at hand is listed before more is read.
#![tactic(auto)]

ghost use Rattle.std.specs.Prelude.{◌≡◌, ◌<◌, length};

use feed::Hand;
use kinds::Version;
use ladder_turns::After;
use lines::Ending;
use packer::Part;
use refusal::Refusal;
use results::Results;
use state::Reader;
use std::io::Read;

const STDOUT_FILENO: i32 = 1;

const STDERR_FILENO: i32 = 2;

// What a turn leaves to the next: what follows it, and whether there is a next.
#[derive(Clone, Copy)]
struct Left {
    list: Results,
    reader: Reader,
    hand: Hand,
    after: After,
    goes: bool,
}

// What is at hand after a read, and whether the read failed.
#[derive(Clone, Copy)]
struct Fed {
    hand: Hand,
    failed: bool,
}

fn say(text: &[u8]) {
    io::write_all(STDERR_FILENO, text);
}

// The first n bytes.
fn print(text: &[u8], n: usize) {
    let start = Part { at: 0, len: n };
    if io::write_all(STDOUT_FILENO, packer::show(text, start)) {
        return;
    }
    say(b"ladder: a write failed\n");
}

// One read, behind the bytes at hand.
fn read_on(input: &mut impl Read, buf: &mut [u8], hand: Hand) -> Fed {
    let n = feed::keep(buf, hand);
    let Ok(more) = input.read(&mut buf[n..]) else {
        say(b"ladder: a read failed\n");
        return Fed { hand, failed: true };
    };
    Fed {
        hand: feed::grow(buf.len(), n, more),
        failed: false,
    }
}

// A read, where a turn wants more bytes.
fn fed_on(after: After, input: &mut impl Read, buf: &mut [u8], hand: Hand) -> Fed {
    if after.wants() {
        return read_on(input, buf, hand);
    }
    Fed {
        hand,
        failed: false,
    }
}

fn goes_on(after: After, failed: bool) -> bool {
    if failed {
        return false;
    }
    !after.ends()
}

// The turns that may follow: fewer than there were, and none where none follows.
fn fewer(turns: u64, goes: bool) -> u64
    requires { 0 < turns }
    ensures { result < turns }
{
    if goes {
        return turns - 1;
    }
    0
}

// Turns until one is the last. Each gives an event, the end or a read; their number is there to bound them. List and reader stay in this
// function: handed on in a struct, they would be copied at each step.
fn climb(first: Left, input: &mut impl Read, buf: &mut [u8]) -> Left {
    let mut list = first.list;
    let mut reader = first.reader;
    let mut hand = first.hand;
    let mut after = first.after;
    let mut turns: u64 = fewer(18446744073709551615, first.goes);
    while 0 < turns {
        let turned = ladder_turns::turn(list, reader, feed::window(buf, hand), hand.ended);
        let next_list = turned.list;
        let next_reader = turned.reader;
        let next_after = turned.after;
        let fed = fed_on(next_after, input, buf, feed::pass(hand, turned.used));
        let next_hand = fed.hand;
        list = next_list;
        reader = next_reader;
        after = next_after;
        hand = next_hand;
        turns = fewer(turns, goes_on(next_after, fed.failed));
    }
    Left {
        list,
        reader,
        hand,
        after,
        goes: false,
    }
}

fn print_list(list: Results, ending: Ending) {
    let mut text = [0u8; 5286];
    let Ok(n) = result_lines::write_list(list, ending, &mut text, 0) else {
        return;
    };
    print(&text, n);
}

// The text of the list. After a failed read there is none.
fn finish(left: Left) {
    let list = left.list;
    let after = left.after;
    let After::Ends(ending) = after else {
        return;
    };
    print_list(list, ending);
}

fn number(b: u8) -> i32 {
    b as i32
}

// What the first turn of a body begins with: an empty list, and what is at hand behind the version byte.
fn first_left(version: Version, hand: Hand, after: After, goes: bool) -> Left {
    Left {
        list: Results::empty(),
        reader: Reader::empty(version),
        hand: feed::pass(hand, 1),
        after,
        goes,
    }
}

// No turn follows.
fn refused(refusal: Refusal, hand: Hand) -> Left {
    first_left(
        Version::V1,
        hand,
        After::Ends(Ending::Refused(refusal)),
        false,
    )
}

// The version byte.
fn behind_version(number: i32, hand: Hand) -> Left {
    match kinds::version_of(number) {
        Ok(version) => first_left(version, hand, After::GoesOn, true),
        Err(refusal) => refused(refusal, hand),
    }
}

// After the first read. A body that ends before its version byte is refused 2.
fn begun(fed: Fed, buf: &[u8]) -> Left {
    let hand = fed.hand;
    if fed.failed {
        return first_left(Version::V1, hand, After::Wants, false);
    }
    if hand.ended {
        return refused(Refusal::UnknownVersion, hand);
    }
    if buf.len() == 0 {
        return refused(Refusal::UnknownVersion, hand);
    }
    behind_version(number(buf[0]), hand)
}

fn begin(input: &mut impl Read, buf: &mut [u8]) -> Left {
    let fed = read_on(input, buf, Hand::empty());
    begun(fed, buf)
}

// The array that main lends.
fn buffer() -> [u8; 131072]
    ensures { 131072 ≡ length result }
{
    [0; 131072]
}

fn main(rt: HostRuntime) {
    let mut input = rt.stdin();
    let mut buf = buffer();
    let first = begin(&mut input, &mut buf);
    finish(climb(first, &mut input, &mut buf));
}
