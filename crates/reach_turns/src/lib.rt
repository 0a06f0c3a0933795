// The reach program's reading: calls on the bytes at hand, of a body that may stop anywhere between records.
#![tactic(auto)]

ghost use Rattle.std.specs.Prelude.{◌≡◌, min, length};
ghost use Rattle.reach_turns.specs.Turns.{turn_on, TurnIs};

use many::Stop;
use teams::TeamReader;

const FULL: usize = 65536;

// What a turn leaves: the reader and the bytes used; why its calls stopped; whether that ends the reading, and whether nothing can follow before
// more bytes are at hand.
#[derive(Clone, Copy)]
pub struct Turned {
    pub reader: TeamReader,
    pub used: usize,
    pub stop: Stop,
    pub over: bool,
    pub wants: bool,
}

// Memory for the rows of 512 events, and for the numbers beside them.
fn row_space() -> [i32; 4096]
    ensures { 4096 ≡ length result }
{
    [0; 4096]
}

fn ten_space() -> [i32; 10240]
    ensures { 10240 ≡ length result }
{
    [0; 10240]
}

// Reading calls on the window at the front of the bytes, until 512 events came or one gives none. The bytes are those at hand from the reader's
// place on. The flag is off, whether or not the input has ended.
pub fn turn(reader: TeamReader, bytes: &[u8]) -> Turned
    ensures { TurnIs bytes.now (turn_on reader bytes.now) reader.teams result }
{
    let short = bytes.len() < FULL;
    let end = bytes.len().min(FULL);
    let mut rows = row_space();
    let mut tens = ten_space();
    let many = many::read_many(reader, &bytes[..end], false, &mut rows, &mut tens);
    let stop = many.stop;
    let left = many.reader;
    Turned {
        reader: left,
        used: many.used,
        stop,
        over: windows::has_ending(short, stop, many.count),
        wants: windows::wants_more(short, stop),
    }
}
