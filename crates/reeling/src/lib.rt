// Many reading calls in one, with a reel beside that keeps their events.
#![tactic(auto)]

ghost use Rattle.std.specs.Prelude.{◌≡◌, true};
ghost use Rattle.state.specs.State.{reader_with, good_reader};
ghost use Rattle.state.specs.Laws.{Sound};
ghost use Rattle.calls.specs.Along.{calls};
ghost use Rattle.reel.specs.Reel.{good_counts, reel_of};
ghost use Rattle.reeling.specs.Reeling.{kept_calls, KeptIs};
ghost use Rattle.reeling.specs.steps.Kept.{calls_kept, answer_of, not_read};

use keeping::keep_lent;
use many::Stop;
use reel::Counts;
use refusal::Refusal;
use state::{Answer, Entries, Memory, Reader, Scalars};
use teams::TeamReader;

// Why the calls stopped, how many events there are, the bytes used in all, the reader and the reel's counts left.
#[derive(Clone, Copy)]
pub struct ReelRead {
    pub stop: Stop,
    pub count: usize,
    pub used: usize,
    pub reader: TeamReader,
    pub counts: Counts,
}

// The same where memory and teams are lent.
#[derive(Clone, Copy)]
struct CallsKept {
    stop: Stop,
    count: usize,
    used: usize,
    scalars: Scalars,
    counts: Counts,
}

fn stopped(stop: Stop, count: usize, used: usize, scalars: Scalars, counts: Counts) -> CallsKept
    ensures { result ≡ calls_kept stop count used scalars counts }
{
    CallsKept {
        stop,
        count,
        used,
        scalars,
        counts,
    }
}

// Calls on lent memory and teams while fewer events came than wanted and they give events, each of which the reel keeps. What input and
// former hold before is never seen.
fn keep_calls(
    scalars: Scalars,
    m: &mut Memory,
    teams: &mut [i32; 256],
    w: &[u8],
    last: bool,
    most: usize,
    reel: Counts,
    rows: &mut [i32; 5120],
    tens: &mut [i32; 5120],
    formers: &mut [i32; 5120],
) -> CallsKept
    requires { Sound (reader_with scalars m.old.entries) × (good_counts reel ≡ true) }
    ensures { KeptIs (calls most (reader_with scalars m.old.entries) w.now last) teams.old
        (reel_of reel rows.old tens.old formers.old)
        (answer_of result m.new.entries teams.new)
        (reel_of result.counts rows.new tens.new formers.new) }
{
    let mut s = scalars;
    let mut counts = reel;
    let mut count: usize = 0;
    let mut used: usize = 0;
    while count < most {
        let o = step::good_call(s, m, &w[used..], last);
        let next = o.scalars;
        let answer = o.answer;
        s = next;
        match answer {
            Answer::Event { event, used: n } => {
                let team = teams::apply(teams, event);
                let kept = keep_lent(
                    counts, event, team, &m.input, &m.former, rows, tens, formers,
                );
                let left = kept.counts;
                counts = left;
                used += n;
                count += 1;
            }
            Answer::More => return stopped(Stop::More, count, used, s, counts),
            Answer::Finish { used: n } => return stopped(Stop::Finish, count, used + n, s, counts),
            Answer::Refused(r) => return stopped(Stop::Refused(r), count, used, s, counts),
        }
    }
    stopped(Stop::Full, count, used, s, counts)
}

// Calls on a good reader.
fn keep_good(
    scalars: Scalars,
    entries: Entries,
    given: [i32; 256],
    window: &[u8],
    last: bool,
    most: usize,
    counts: Counts,
    rows: &mut [i32; 5120],
    tens: &mut [i32; 5120],
    formers: &mut [i32; 5120],
) -> ReelRead
    requires { (good_reader (reader_with scalars entries) ≡ true) × (good_counts counts ≡ true) }
    ensures { KeptIs (calls most (reader_with scalars entries) window.now last) given
        (reel_of counts rows.old tens.old formers.old) result
        (reel_of result.counts rows.new tens.new formers.new) }
{
    let mut m = Memory::of(entries);
    let mut teams = given;
    let r = keep_calls(
        scalars, &mut m, &mut teams, window, last, most, counts, rows, tens, formers,
    );
    answer_of(r, m.entries, teams)
}

fn answer_of(r: CallsKept, entries: Entries, teams: [i32; 256]) -> ReelRead
    ensures { result ≡ answer_of r entries teams }
{
    let stop = r.stop;
    let scalars = r.scalars;
    let counts = r.counts;
    ReelRead {
        stop,
        count: r.count,
        used: r.used,
        reader: TeamReader {
            reader: Reader { scalars, entries },
            teams,
        },
        counts,
    }
}

fn unread(why: Refusal, reader: TeamReader, counts: Counts) -> ReelRead
    ensures { result ≡ not_read why reader counts }
{
    ReelRead {
        stop: Stop::Refused(why),
        count: 0,
        used: 0,
        reader,
        counts,
    }
}

// Reads until so many events came, the window runs out, the body finishes or a call is refused; the reel, whose arrays are lent, keeps the
// events. Reader and reel are tested once, before the first call.
pub fn read_kept(
    reader: TeamReader,
    window: &[u8],
    last: bool,
    most: usize,
    counts: Counts,
    rows: &mut [i32; 5120],
    inputs: &mut [i32; 5120],
    formers: &mut [i32; 5120],
) -> ReelRead
    ensures { KeptIs (kept_calls most reader (reel_of counts rows.old inputs.old formers.old) window.now last) reader.teams
        (reel_of counts rows.old inputs.old formers.old) result
        (reel_of result.counts rows.new inputs.new formers.new) }
{
    let teams = reader.teams;
    let plain = reader.reader;
    let scalars = plain.scalars;
    let entries = plain.entries;
    if !good::both(
        reel::good_counts(counts),
        good::both(
            good::both(
                good_reader::good_scalars(scalars),
                good::good_entries(entries),
            ),
            teams::good_teams(&teams),
        ),
    ) {
        return unread(Refusal::BadState, reader, counts);
    }
    let standing = scalars.standing;
    if standing.is_closed() {
        return unread(Refusal::Closed, reader, counts);
    }
    keep_good(
        scalars, entries, teams, window, last, most, counts, rows, inputs, formers,
    )
}
