// A results list built beside a reader, window by window: a body of any length is listed in constant memory.
#![tactic(auto)]

ghost use Rattle.std.specs.Prelude.{◌≡◌, true};
ghost use Rattle.state.specs.State.{reader_with, good_reader};
ghost use Rattle.state.specs.Views.{event_is};
ghost use Rattle.state.specs.Laws.{Sound};
ghost use Rattle.results.specs.Results.{results_with};
ghost use Rattle.listing.specs.Listing.{whole_run, list_run, said_run};
ghost use Rattle.listing.specs.steps.Lists.{KeepsEvent, calls_read, unchanged, calls_leave, said_calls};

use refusal::Refusal;
use results::Results;
use state::{Answer, Entries, Event, Memory, Reader, Scalars};

// Why the calls stopped.
#[derive(Clone, Copy)]
pub enum End {
    More,
    Finish,
    Refused(Refusal),
}

// Why the calls stopped, whether one gave an event, the bytes used in all, the list and the reader left.
#[derive(Clone, Copy)]
pub struct ListRead {
    pub end: End,
    pub gave: bool,
    pub used: usize,
    pub list: Results,
    pub reader: Reader,
}

// The same where memory and list are lent, and whether the list's count could rise that far.
#[derive(Clone, Copy)]
struct CallsRead {
    fits: bool,
    end: End,
    gave: bool,
    used: usize,
    others: u64,
    scalars: Scalars,
}

// Whether a list's count could rise at an event, and the count behind it.
#[derive(Clone, Copy)]
struct Kept {
    fits: bool,
    others: u64,
}

// An event beside a lent list, in the tick that is open.
fn keep_beside(
    event: Event,
    tick: i32,
    others: u64,
    marks: &mut [u8; 128],
    times: &mut [i32; 128],
    ticks: &mut [i32; 128],
) -> Kept
    ensures { KeepsEvent (results_with marks.old times.old ticks.old others) tick (event_is event) result (results_with marks.new times.new ticks.new result.others) }
{
    match results::keep_event(event, tick, others, marks, times, ticks) {
        Ok(n) => Kept {
            fits: true,
            others: n,
        },
        Err(_) => Kept {
            fits: false,
            others,
        },
    }
}

fn stopped(
    fits: bool,
    end: End,
    gave: bool,
    used: usize,
    others: u64,
    scalars: Scalars,
) -> CallsRead
    ensures { result ≡ calls_read fits end gave used others scalars }
{
    CallsRead {
        fits,
        end,
        gave,
        used,
        others,
        scalars,
    }
}

// Calls on lent memory while they give events, and the finishes among these into a lent list. What input and former hold before is
// never seen.
fn list_calls(
    scalars: Scalars,
    m: &mut Memory,
    w: &[u8],
    last: bool,
    others: u64,
    listed: &mut [u8; 128],
    times: &mut [i32; 128],
    ticks: &mut [i32; 128],
) -> CallsRead
    requires { Sound (reader_with scalars m.old.entries) }
    ensures { said_calls (results_with listed.old times.old ticks.old others) (reader_with scalars m.old.entries) result (results_with listed.new times.new ticks.new result.others) m.new.entries
        ≡ list_run (results_with listed.old times.old ticks.old others) (reader_with scalars m.old.entries) (whole_run (reader_with scalars m.old.entries) w.now last) }
{
    let mut s = scalars;
    let mut count = others;
    let mut used: usize = 0;
    let mut gave = false;
    while used <= w.len() {
        let o = step::good_call(s, m, &w[used..], last);
        let next = o.scalars;
        let answer = o.answer;
        s = next;
        match answer {
            Answer::Event { event, used: n } => {
                let kept = keep_beside(event, s.tick, count, listed, times, ticks);
                if !kept.fits {
                    return stopped(false, End::More, gave, used, count, s);
                }
                count = kept.others;
                used += n;
                gave = true;
            }
            Answer::More => return stopped(true, End::More, gave, used, count, s),
            Answer::Finish { used: n } => return stopped(
                true,
                End::Finish,
                gave,
                used + n,
                count,
                s,
            ),
            Answer::Refused(r) => return stopped(true, End::Refused(r), gave, used, count, s),
        }
    }
    stopped(true, End::More, gave, used, count, s)
}

fn unread(why: Refusal, list: Results, reader: Reader) -> ListRead
    ensures { said_run result ≡ unchanged why list reader }
{
    ListRead {
        end: End::Refused(why),
        gave: false,
        used: 0,
        list,
        reader,
    }
}

// Calls on a good reader.
fn list_good(list: Results, reader: Reader, window: &[u8], last: bool) -> ListRead
    requires { good_reader reader ≡ true }
    ensures { said_run result ≡ list_run list reader (whole_run reader window.now last) }
{
    let scalars = reader.scalars;
    let mut m = Memory::of(reader.entries);
    let mut listed = list.marks;
    let mut times = list.times;
    let mut ticks = list.ticks;
    let r = list_calls(
        scalars,
        &mut m,
        window,
        last,
        list.others,
        &mut listed,
        &mut times,
        &mut ticks,
    );
    if !r.fits {
        return unread(Refusal::BadState, list, reader);
    }
    let left = m.entries;
    let after = Results {
        marks: listed,
        times,
        ticks,
        others: r.others,
    };
    answer_of(r, after, left)
}

fn answer_of(r: CallsRead, list: Results, entries: Entries) -> ListRead
    ensures { said_run result ≡ calls_leave r list entries }
{
    let end = r.end;
    let scalars = r.scalars;
    ListRead {
        end,
        gave: r.gave,
        used: r.used,
        list,
        reader: Reader { scalars, entries },
    }
}

// Reads on all of a window, and keeps the finishes among the events in a list. Refused 17, with nothing changed, where the reader is no good
// one or the list's count of others can't rise that far.
pub fn read_on(list: Results, reader: Reader, window: &[u8], last: bool) -> ListRead
    ensures { said_run result ≡ list_run list reader (whole_run reader window.now last) }
{
    if !good::both(
        good_reader::good_scalars(reader.scalars),
        good::good_entries(reader.entries),
    ) {
        return unread(Refusal::BadState, list, reader);
    }
    let scalars = reader.scalars;
    let standing = scalars.standing;
    if standing.is_closed() {
        return unread(Refusal::Closed, list, reader);
    }
    list_good(list, reader, window, last)
}
