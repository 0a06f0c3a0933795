// A results list: of each client 0 to 127 its finish with the lowest time.
#![tactic(auto)]

ghost use Rattle.std.specs.Prelude.{◌≡◌, ◌+◌, ◌<◌, cond, leb, Ok, Err};
ghost use Rattle.refusal.specs.declared.Refusal.TheVariants.{BadState};
ghost use Rattle.item.specs.Contents.{item_of};
ghost use Rattle.state.specs.Views.{event_is};
ghost use Rattle.results.specs.Results.{is_player_finish, finish_of, results_with, no_results, Keeps};
ghost use Rattle.results.specs.steps.Keeps.{FinishInRecord, FinishOfEvent, KeepsRow};

use extensions::Extension;
use item::{Item, Tag};
use refusal::Refusal;
use state::Event;

// A mark 1 for each client that has a row, its time and its tick; the number of the finishes of other clients.
#[derive(Clone, Copy)]
pub struct Results {
    pub marks: [u8; 128],
    pub times: [i32; 128],
    pub ticks: [i32; 128],
    pub others: u64,
}

impl Results {
    pub fn empty() -> Results
        ensures { result ≡ no_results }
    {
        Results {
            marks: [0; 128],
            times: [0; 128],
            ticks: [0; 128],
            others: 0,
        }
    }
}

// A finish of a client, whatever its tick.
#[derive(Clone, Copy)]
struct PlayerFinish {
    cid: i32,
    time: i32,
}

#[tactic(auto, unfolding(crate::specs::Results::is_player_finish, kinds::specs::Magic::same_bytes, extensions::specs::Extensions::id_at, extensions::specs::Extensions::extension_row))]
fn is_player_finish(which: Extension) -> bool
    ensures { result ≡ is_player_finish which }
{
    matches!(which, Extension::PlayerFinish)
}

// The finish that a record is, whatever tick is open.
fn finish_in(item: Item) -> Option<PlayerFinish>
    ensures { FinishInRecord (item_of item) result }
{
    let t = item.take_apart();
    let tag = t.tag;
    let cid = t.fields.first;
    let time = t.fields.second;
    match tag {
        Tag::Plain(_) => None,
        Tag::Named(which) => {
            if is_player_finish(which) {
                return Some(PlayerFinish { cid, time });
            }
            None
        }
        Tag::Other => None,
    }
}

// The finish that an event is, whatever tick is open.
fn finish_of(event: Event) -> Option<PlayerFinish>
    ensures { FinishOfEvent (event_is event) result }
{
    match event {
        Event::TickStart(_) => None,
        Event::TickEnd(_) => None,
        Event::PlayerNew { .. } => None,
        Event::PlayerChange { .. } => None,
        Event::PlayerOld { .. } => None,
        Event::Input { .. } => None,
        Event::Record(item) => finish_in(item),
    }
}

// A finish of client c, which is below 128.
fn keep_row(
    c: usize,
    time: i32,
    tick: i32,
    marks: &mut [u8; 128],
    times: &mut [i32; 128],
    ticks: &mut [i32; 128],
)
    requires { c < 128 }
    ensures { KeepsRow c time tick marks.old times.old ticks.old marks.new times.new ticks.new }
{
    if marks[c] == 1 && times[c] <= time {
        return;
    }
    marks[c] = 1;
    times[c] = time;
    ticks[c] = tick;
}

// Another client's finish.
fn count_other(others: u64) -> Result<u64, Refusal>
    ensures { result ≡ cond (leb (others + 1) 18446744073709551615) (Ok (others + 1)) (Err BadState) }
{
    if others == 18446744073709551615 {
        return Err(Refusal::BadState);
    }
    Ok(others + 1)
}

// Keeps the finish that an event may be in a list whose arrays are lent; tick is the one that is open at the event, the reader's.
pub fn keep_event(
    event: Event,
    tick: i32,
    others: u64,
    marks: &mut [u8; 128],
    times: &mut [i32; 128],
    ticks: &mut [i32; 128],
) -> Result<u64, Refusal>
    ensures { Keeps (results_with marks.old times.old ticks.old others) (finish_of tick (event_is event)) result marks.new times.new ticks.new }
{
    let Some(PlayerFinish { cid, time }) = finish_of(event) else {
        return Ok(others);
    };
    let bits = num::bits(cid);
    if bits < 128 {
        keep_row(bits as usize, time, tick, marks, times, ticks);
        return Ok(others);
    }
    count_other(others)
}
