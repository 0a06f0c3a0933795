// The reach program: reach FROM TO. Each names a file that holds a version byte, 01 or 02, and a body, which may stop anywhere between records.
// The bytes of records that bring the reader after FROM to the board after TO go to standard output. Where there are none a line on standard
// error says why.
#![tactic(auto)]

ghost use Rattle.std.specs.Prelude.{◌≡◌, ◌<◌, length};

use feed::Hand;
use kinds::Version;
use lines::Ending;
use many::Stop;
use packer::Part;
use refusal::Refusal;
use std::alloc::Alloc;
use std::env::{Env, FillError};
use std::fs;
use std::fs::Files;
use std::io::{Error, Read};
use teams::TeamReader;

const STDOUT_FILENO: i32 = 1;

const STDERR_FILENO: i32 = 2;

// The system's numbers of errors.
const EINVAL: i32 = 22;

const ENAMETOOLONG: i32 = 36;

const EILSEQ: i32 = 84;

// One of the two files.
#[derive(Clone, Copy)]
enum File {
    From,
    To,
}

// What the first turn on a file begins with, and whether there is one.
#[derive(Clone, Copy)]
struct First {
    reader: TeamReader,
    hand: Hand,
    goes: bool,
}

// What is at hand after a read, and whether the read failed.
#[derive(Clone, Copy)]
struct Fed {
    hand: Hand,
    failed: bool,
}

// What the turns on a file leave: why the last one's calls stopped, whether that ended the reading, whether a read failed, and how many bytes are at
// hand.
#[derive(Clone, Copy)]
struct Left {
    reader: TeamReader,
    stop: Stop,
    over: bool,
    failed: bool,
    rest: usize,
}

// The reader after a file, and whether all of the file was read.
#[derive(Clone, Copy)]
struct Body {
    reader: TeamReader,
    whole: bool,
}

// ---- lines on standard error

fn say(text: &[u8]) {
    io::write_all(STDERR_FILENO, text);
}

// A line on a file.
fn tell(file: File, text: &[u8]) {
    match file {
        File::From => say(b"reach: FROM: "),
        File::To => say(b"reach: TO: "),
    }
    say(text);
}

// `refused n` or `too long`.
fn say_last(ending: Ending) {
    let mut line = [0u8; 138];
    let Ok(n) = lines::write_last(ending, &mut line, 0) else {
        return;
    };
    say(packer::show(&line, Part { at: 0, len: n }));
}

fn tell_last(file: File, ending: Ending) {
    tell(file, b"");
    say_last(ending);
}

// The text of an error without its number.
fn cause(text: &str) -> &str {
    match text.split_once(" (os error ") {
        Some((cause, _)) => cause,
        None => text,
    }
}

// A line: what failed, a colon and why.
fn fail(rt: &impl Alloc, what: &[u8], error: Error) {
    say(what);
    if let Ok(text) = format!(in rt.alloc(); "{error}") {
        say(b": ");
        say(cause(text.as_str()).as_bytes());
    }
    say(b"\n");
}

fn fail_open(rt: &impl Alloc, file: File, error: Error) {
    match file {
        File::From => fail(rt, b"reach: FROM: can't be opened", error),
        File::To => fail(rt, b"reach: TO: can't be opened", error),
    }
}

fn fail_read(rt: &impl Alloc, file: File, error: Error) {
    match file {
        File::From => fail(rt, b"reach: FROM: a read failed", error),
        File::To => fail(rt, b"reach: TO: a read failed", error),
    }
}

// ---- a file

fn place(file: File) -> usize {
    match file {
        File::From => 1,
        File::To => 2,
    }
}

// The error of an argument that names no file.
fn no_name(error: FillError) -> Error {
    match error {
        FillError::NotPresent => Error::from_raw_os_error(EINVAL),
        FillError::TooLong => Error::from_raw_os_error(ENAMETOOLONG),
    }
}

// The file of a path, which is UTF-8.
fn open_path<R: Files>(rt: &R, path: &[u8]) -> Result<R::File, Error> {
    match str::from_utf8(path) {
        Ok(path) => fs::open(rt, path),
        Err(_) => Err(Error::from_raw_os_error(EILSEQ)),
    }
}

// The file that an argument names.
fn open_argument<R: Env + Files>(rt: &R, i: usize) -> Result<R::File, Error> {
    let mut path = io::buffer();
    match rt.arg(i, &mut path) {
        Ok(n) => open_path(rt, &path[..n]),
        Err(error) => Err(no_name(error)),
    }
}

// The file that an argument names; a line where it can't be opened.
fn open<R: Alloc + Env + Files>(rt: &R, file: File) -> Option<R::File> {
    match open_argument(rt, place(file)) {
        Ok(opened) => Some(opened),
        Err(error) => {
            fail_open(rt, file, error);
            None
        }
    }
}

// One read, behind the bytes at hand.
fn read_on(rt: &impl Alloc, file: File, opened: &mut impl Read, buf: &mut [u8], hand: Hand) -> Fed {
    let n = feed::keep(buf, hand);
    match opened.read(&mut buf[n..]) {
        Ok(more) => Fed {
            hand: feed::grow(buf.len(), n, more),
            failed: false,
        },
        Err(error) => {
            fail_read(rt, file, error);
            Fed { hand, failed: true }
        }
    }
}

// A read, where a turn wants more bytes.
fn fed_on(
    wants: bool,
    rt: &impl Alloc,
    file: File,
    opened: &mut impl Read,
    buf: &mut [u8],
    hand: Hand,
) -> Fed {
    if wants {
        return read_on(rt, file, opened, buf, hand);
    }
    Fed {
        hand,
        failed: false,
    }
}

// Whether a read follows a turn: more bytes are wanted, or it has to be seen whether bytes stand behind a Finish.
fn reads_on(wants: bool, stop: Stop) -> bool {
    match stop {
        Stop::Full => wants,
        Stop::More => wants,
        Stop::Finish => true,
        Stop::Refused(_) => wants,
    }
}

// Whether another turn follows. None does where a read showed that the file has ended.
fn goes_on(over: bool, fed: Fed) -> bool {
    let hand = fed.hand;
    if over {
        return false;
    }
    if fed.failed {
        return false;
    }
    !hand.ended
}

// The turns that may follow: fewer than there were, and none where none follows.
fn fewer(turns: u64, goes: bool) -> u64
    requires { 0 < turns }
    ensures { result < turns }
{
    if goes {
        return turns - 1;
    }
    0
}

// Turns until one is the last. Each gives an event, the end or a read; their number is there to bound them.
fn read_body(
    first: First,
    rt: &impl Alloc,
    file: File,
    opened: &mut impl Read,
    buf: &mut [u8],
) -> Left {
    let mut reader = first.reader;
    let mut hand = first.hand;
    let mut stop = Stop::Full;
    let mut over = false;
    let mut failed = false;
    let mut turns: u64 = 18446744073709551615;
    while 0 < turns {
        let turned = reach_turns::turn(reader, feed::window(buf, hand));
        let next_reader = turned.reader;
        let next_stop = turned.stop;
        reader = next_reader;
        stop = next_stop;
        over = turned.over;
        let fed = fed_on(
            reads_on(turned.wants, next_stop),
            rt,
            file,
            opened,
            buf,
            feed::pass(hand, turned.used),
        );
        let next_hand = fed.hand;
        hand = next_hand;
        failed = fed.failed;
        turns = fewer(turns, goes_on(over, fed));
    }
    Left {
        reader,
        stop,
        over,
        failed,
        rest: feed::window(buf, hand).len(),
    }
}

// Whether no bytes are left; a line where some are.
fn uses_all(file: File, rest: usize) -> bool {
    if rest == 0 {
        return true;
    }
    tell(file, b"bytes left unread\n");
    false
}

// Whether all of a file was read; a line where not.
fn is_whole(file: File, stop: Stop, over: bool, rest: usize) -> bool {
    match stop {
        Stop::Full => uses_all(file, rest),
        Stop::More => {
            if over {
                tell_last(file, Ending::TooLong);
                return false;
            }
            uses_all(file, rest)
        }
        Stop::Finish => uses_all(file, rest),
        Stop::Refused(refusal) => {
            tell_last(file, Ending::Refused(refusal));
            false
        }
    }
}

fn body_of(file: File, left: Left) -> Body {
    let reader = left.reader;
    let stop = left.stop;
    if left.failed {
        return Body {
            reader,
            whole: false,
        };
    }
    Body {
        reader,
        whole: is_whole(file, stop, left.over, left.rest),
    }
}

fn number(b: u8) -> i32 {
    b as i32
}

fn first_of(version: Version, hand: Hand, goes: bool) -> First {
    First {
        reader: TeamReader::empty(version),
        hand: feed::pass(hand, 1),
        goes,
    }
}

// No turn follows.
fn none(hand: Hand) -> First {
    first_of(Version::V1, hand, false)
}

fn refused(file: File, refusal: Refusal, hand: Hand) -> First {
    tell_last(file, Ending::Refused(refusal));
    none(hand)
}

// The version byte.
fn behind_version(file: File, number: i32, hand: Hand) -> First {
    match kinds::version_of(number) {
        Ok(version) => first_of(version, hand, true),
        Err(refusal) => refused(file, refusal, hand),
    }
}

// After the first read. A file without a version byte is refused 2.
fn begun(file: File, fed: Fed, buf: &[u8]) -> First {
    let hand = fed.hand;
    if fed.failed {
        return none(hand);
    }
    if hand.ended {
        return refused(file, Refusal::UnknownVersion, hand);
    }
    if buf.len() == 0 {
        return refused(file, Refusal::UnknownVersion, hand);
    }
    behind_version(file, number(buf[0]), hand)
}

fn begin(rt: &impl Alloc, file: File, opened: &mut impl Read, buf: &mut [u8]) -> First {
    let fed = read_on(rt, file, opened, buf, Hand::empty());
    begun(file, fed, buf)
}

fn no_body(reader: TeamReader) -> Body {
    Body {
        reader,
        whole: false,
    }
}

// A file that is open.
fn read_fd(rt: &impl Alloc, file: File, opened: &mut impl Read, buf: &mut [u8]) -> Body {
    let first = begin(rt, file, opened, buf);
    if first.goes {
        return body_of(file, read_body(first, rt, file, opened, buf));
    }
    no_body(first.reader)
}

fn read_file<R: Alloc + Env + Files>(rt: &R, file: File, buf: &mut [u8]) -> Body {
    let Some(mut opened) = open(rt, file) else {
        return no_body(TeamReader::empty(Version::V1));
    };
    read_fd(rt, file, &mut opened, buf)
}

// ---- both

// The first n bytes, on standard output.
fn print(bytes: &[u8], n: usize) {
    if io::write_all(STDOUT_FILENO, packer::show(bytes, Part { at: 0, len: n })) {
        return;
    }
    say(b"reach: a write failed\n");
}

fn reach(from: TeamReader, to: TeamReader) {
    let mut bytes = [0u8; 16384];
    match reaching::reach(from, back::team_board_of(to), &mut bytes) {
        Ok(n) => print(&bytes, n),
        Err(refusal) => say_last(Ending::Refused(refusal)),
    }
}

// A kind that is pending at TO's end.
fn is_between(to: &TeamReader) -> bool {
    match to.reader.scalars.pending {
        Some(_) => false,
        None => true,
    }
}

fn reach_board(from: TeamReader, to: TeamReader) {
    if is_between(&to) {
        reach(from, to);
        return;
    }
    tell(File::To, b"a kind is left pending\n");
}

// The array that main lends.
fn buffer() -> [u8; 131072]
    ensures { 131072 ≡ length result }
{
    [0; 131072]
}

fn run<R: Alloc + Env + Files>(rt: &R) {
    let mut buf = buffer();
    let from = read_file(rt, File::From, &mut buf);
    if !from.whole {
        return;
    }
    let to = read_file(rt, File::To, &mut buf);
    if to.whole {
        reach_board(from.reader, to.reader);
    }
}

// How many arguments there are, the program's name among them; 4 stands for more.
fn argument_count(rt: &impl Env) -> usize {
    let mut text = [0u8; 0];
    let mut count: usize = 0;
    while count < 4 {
        if let Err(FillError::NotPresent) = rt.arg(count, &mut text) {
            return count;
        }
        count += 1;
    }
    count
}

fn main(rt: HostRuntime) {
    if argument_count(&rt) == 3 {
        run(&rt);
        return;
    }
    say(b"usage: reach FROM TO, each a file that holds a version byte and a body\n");
}
