// The rewind program's reading: calls on the bytes at hand, with a reel beside.
#![tactic(auto)]

ghost use Rattle.std.specs.Prelude.{◌≡◌, ◌||◌};
ghost use Rattle.many.specs.Many.{halt_of};
ghost use Rattle.windows.specs.Windows.{ends};
ghost use Rattle.reel.specs.Reel.{reel_of};
ghost use Rattle.rewind_turns.specs.Turns.{turn_kept, has_all, KeepsTurn};

use many::Stop;
use reel::Counts;
use teams::TeamReader;

const FULL: usize = 65536;

// What a turn leaves: the reader, the reel's counts, the bytes used, the number of events; whether nothing follows, and whether nothing can
// follow before more bytes are at hand or the input has ended.
#[derive(Clone, Copy)]
pub struct ReelTurn {
    pub reader: TeamReader,
    pub counts: Counts,
    pub used: usize,
    pub count: usize,
    pub over: bool,
    pub wants: bool,
}

fn is_over(short: bool, stop: Stop, count: usize) -> bool
    ensures { result ≡ (has_all (halt_of stop) || ends short (halt_of stop) count) }
{
    matches!(stop, Stop::Full) || windows::has_ending(short, stop, count)
}

// Reading calls on the window at the front of the bytes until so many events came, each of which the reel keeps. The bytes are those at hand
// from the reader's place on; where the input has ended, they are all that are left.
pub fn turn(
    reader: TeamReader,
    bytes: &[u8],
    ended: bool,
    most: usize,
    counts: Counts,
    rows: &mut [i32; 5120],
    inputs: &mut [i32; 5120],
    formers: &mut [i32; 5120],
) -> ReelTurn
    ensures { KeepsTurn bytes.now (turn_kept most reader (reel_of counts rows.old inputs.old formers.old) bytes.now ended) reader.teams
        (reel_of counts rows.old inputs.old formers.old) result
        (reel_of result.counts rows.new inputs.new formers.new) }
{
    let short = bytes.len() < FULL;
    let end = bytes.len().min(FULL);
    let read = reeling::read_kept(
        reader,
        &bytes[..end],
        windows::is_last(ended, short),
        most,
        counts,
        rows,
        inputs,
        formers,
    );
    let stop = read.stop;
    let left = read.reader;
    let kept = read.counts;
    ReelTurn {
        reader: left,
        counts: kept,
        used: read.used,
        count: read.count,
        over: is_over(short, stop, read.count),
        wants: windows::wants_more(short, stop),
    }
}
