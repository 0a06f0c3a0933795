// Many reading calls in one: the events as rows of numbers in lent memory.
#![tactic(auto)]

ghost use Rattle.std.specs.Prelude.{◌≡◌, true};
ghost use Rattle.state.specs.State.{reader_with, good_reader};
ghost use Rattle.state.specs.Laws.{Sound};
ghost use Rattle.calls.specs.Along.{calls};
ghost use Rattle.rows.specs.Rows.{room};
ghost use Rattle.many.specs.Many.{many_calls, ManyIs};
ghost use Rattle.many.specs.steps.Stores.{Room, rows_read, answer_of, not_read};

use refusal::Refusal;
use state::{Answer, Entries, Memory, Reader, Scalars};
use teams::TeamReader;

// Why the calls stopped: no room for another event, or the answer to the last call, which gave no event.
#[derive(Clone, Copy)]
pub enum Stop {
    Full,
    More,
    Finish,
    Refused(Refusal),
}

// How many events there are, the bytes used in all, and the reader left.
#[derive(Clone, Copy)]
pub struct ManyAnswer {
    pub stop: Stop,
    pub count: usize,
    pub used: usize,
    pub reader: TeamReader,
}

// The same where memory and teams are lent.
#[derive(Clone, Copy)]
struct RowsRead {
    stop: Stop,
    count: usize,
    used: usize,
    scalars: Scalars,
}

fn stopped(stop: Stop, count: usize, used: usize, scalars: Scalars) -> RowsRead
    ensures { result ≡ rows_read stop count used scalars }
{
    RowsRead {
        stop,
        count,
        used,
        scalars,
    }
}

// Calls on lent memory and teams while there is room and they give events. What input and former hold before is never seen.
fn read_rows(
    scalars: Scalars,
    m: &mut Memory,
    teams: &mut [i32; 256],
    w: &[u8],
    last: bool,
    rows: &mut [i32],
    tens: &mut [i32],
    room: usize,
) -> RowsRead
    requires { Sound (reader_with scalars m.old.entries) × Room room rows.old tens.old }
    ensures { ManyIs (calls room (reader_with scalars m.old.entries) w.now last) teams.old rows.old tens.old (answer_of result m.new.entries teams.new) rows.new tens.new }
{
    let mut s = scalars;
    let mut count: usize = 0;
    let mut used: usize = 0;
    while count < room {
        let pending = rows::pending_flag(s);
        let o = step::good_call(s, m, &w[used..], last);
        let next = o.scalars;
        let answer = o.answer;
        s = next;
        match answer {
            Answer::Event { event, used: n } => {
                rows::put_event(
                    event, n, pending, count, teams, rows, tens, &m.input, &m.former,
                );
                used += n;
                count += 1;
            }
            Answer::More => return stopped(Stop::More, count, used, s),
            Answer::Finish { used: n } => return stopped(Stop::Finish, count, used + n, s),
            Answer::Refused(r) => return stopped(Stop::Refused(r), count, used, s),
        }
    }
    stopped(Stop::Full, count, used, s)
}

// Calls on a good reader.
fn read_good(
    scalars: Scalars,
    entries: Entries,
    given: [i32; 256],
    window: &[u8],
    last: bool,
    rows: &mut [i32],
    tens: &mut [i32],
    room: usize,
) -> ManyAnswer
    requires { (good_reader (reader_with scalars entries) ≡ true) × Room room rows.old tens.old }
    ensures { ManyIs (calls room (reader_with scalars entries) window.now last) given rows.old tens.old result rows.new tens.new }
{
    let mut m = Memory::of(entries);
    let mut teams = given;
    let r = read_rows(scalars, &mut m, &mut teams, window, last, rows, tens, room);
    answer_of(r, m.entries, teams)
}

fn answer_of(r: RowsRead, entries: Entries, teams: [i32; 256]) -> ManyAnswer
    ensures { result ≡ answer_of r entries teams }
{
    let stop = r.stop;
    let scalars = r.scalars;
    ManyAnswer {
        stop,
        count: r.count,
        used: r.used,
        reader: TeamReader {
            reader: Reader { scalars, entries },
            teams,
        },
    }
}

fn unread(stop: Stop, reader: TeamReader) -> ManyAnswer
    ensures { result ≡ not_read stop reader }
{
    ManyAnswer {
        stop,
        count: 0,
        used: 0,
        reader,
    }
}

// Reads until there is no room for another event, the window runs out, the body finishes or a call is refused. Event i has its row of
// eight numbers at 8 i of rows, and an input its ten numbers and the former ten at 20 i of tens. The state is tested once, before the room.
pub fn read_many(
    reader: TeamReader,
    window: &[u8],
    last: bool,
    rows: &mut [i32],
    tens: &mut [i32],
) -> ManyAnswer
    ensures { ManyIs (many_calls (room rows.old tens.old) reader window.now last) reader.teams rows.old tens.old result rows.new tens.new }
{
    let teams = reader.teams;
    let plain = reader.reader;
    let scalars = plain.scalars;
    let entries = plain.entries;
    if !good::both(
        good::both(
            good_reader::good_scalars(scalars),
            good::good_entries(entries),
        ),
        teams::good_teams(&teams),
    ) {
        return unread(Stop::Refused(Refusal::BadState), reader);
    }
    let standing = scalars.standing;
    if standing.is_closed() {
        return unread(Stop::Refused(Refusal::Closed), reader);
    }
    let free = rows::room_for(rows.len(), tens.len());
    read_good(scalars, entries, teams, window, last, rows, tens, free)
}
