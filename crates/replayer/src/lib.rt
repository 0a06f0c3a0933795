// The replay program's work: reading calls on the bytes at hand, and the lines of their events.
#![tactic(auto)]

ghost use Rattle.std.specs.Prelude.{◌≡◌, ◌+◌, ◌-◌, ◌/◌, ◌≤◌, min, length};
ghost use Rattle.lines.specs.Lines.{longest};
ghost use Rattle.lines.specs.steps.Puts.{PutsText};
ghost use Rattle.many.specs.Many.{halt_of};
ghost use Rattle.windows.specs.Windows.{team_turn_run};
ghost use Rattle.replayer.specs.Replay.{ending_of, turn_room, no_turn, Turns};

use lines::Ending;
use many::Stop;
use teams::TeamReader;

const FULL: usize = 65536;

const LONGEST: usize = 138;

// What a turn leaves: the reader, the bytes used, the bytes of text, whether the text ends with the last line, and whether nothing can follow
// before more bytes are at hand or the input has ended.
#[derive(Drop)]
pub struct Turned {
    pub reader: TeamReader,
    pub used: usize,
    pub filled: usize,
    pub ended: bool,
    pub wants: bool,
}

// The last line, if there is one: the place past it.
fn put_ending(short: bool, stop: Stop, count: usize, out: &mut [u8], at: usize) -> usize
    requires { at + longest ≤ length out.old }
    ensures { PutsText out.old at (ending_of short (halt_of stop) count) result out.new }
{
    match stop {
        Stop::Full => at,
        Stop::More => {
            if windows::is_too_long(short, count) {
                return row_lines::past_or(lines::write_last(Ending::TooLong, out, at), at);
            }
            at
        }
        Stop::Finish => row_lines::past_or(lines::write_last(Ending::Finish, out, at), at),
        Stop::Refused(refusal) => row_lines::past_or(
            lines::write_last(Ending::Refused(refusal), out, at),
            at,
        ),
    }
}

// For how many lines there is room, besides a last one.
fn line_room(out: usize) -> usize
    ensures { result ≡ (out - longest) / longest }
{
    out.saturating_sub(LONGEST) / LONGEST
}

// For how many events there is room.
fn event_room(rows: usize, tens: usize, out: usize) -> usize
    ensures { result ≡ min (min (rows / 8) (tens / 20)) ((out - longest) / longest) }
{
    (rows / 8).min(tens / 20).min(line_room(out))
}

// Where there is no room for an event.
fn no_turn(reader: TeamReader) -> Turned
    ensures { result ≡ no_turn reader }
{
    Turned {
        reader,
        used: 0,
        filled: 0,
        ended: false,
        wants: false,
    }
}

// Many reading calls on the window at the front of the bytes, as many as there is room for, and their lines into the target. The bytes
// are those at hand from the reader's place on; where the input has ended, they are all that are left.
pub fn turn(
    reader: TeamReader,
    bytes: &[u8],
    ended: bool,
    rows: &mut [i32],
    tens: &mut [i32],
    out: &mut [u8],
) -> Turned
    ensures { Turns bytes.now (team_turn_run (turn_room rows.old tens.old out.old) reader bytes.now ended) reader.teams rows.old tens.old out.old result rows.new tens.new out.new }
{
    let n = event_room(rows.len(), tens.len(), out.len());
    if n == 0 {
        return no_turn(reader);
    }
    let end = bytes.len().min(FULL);
    let short = bytes.len() < FULL;
    let row_end = 8 * n;
    let ten_end = 20 * n;
    let many = many::read_many(
        reader,
        &bytes[..end],
        windows::is_last(ended, short),
        &mut rows[..row_end],
        &mut tens[..ten_end],
    );
    let stop = many.stop;
    let count = many.count;
    let left = many.reader;
    let at = row_lines::put_rows(rows, tens, count, out);
    Turned {
        reader: left,
        used: many.used,
        filled: put_ending(short, stop, count, out, at),
        ended: windows::has_ending(short, stop, count),
        wants: windows::wants_more(short, stop),
    }
}
