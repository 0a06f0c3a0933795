// The scalars of a reader: what each act leaves of them, the next tick, the tick rules (raw.rs, Reader).
#![tactic(auto)]

ghost use Rattle.std.specs.Prelude.{◌≡◌, ◌<◌};
ghost use Rattle.item.specs.Said.{gives};
ghost use Rattle.state.specs.State.{larger};
ghost use Rattle.state.specs.declared.Memory.{Memory};
ghost use Rattle.state.specs.Reading.{step_of, turned, closing, raised_to, raising, naming, starting, ending, skipping, refusal_step, out_of, next_tick, tick_skip, player_rule, other_rule, tick_rule};
ghost use Rattle.state.specs.steps.Parts.{ticking};
ghost use Rattle.state.specs.Views.{event_is};
ghost use Rattle.state.specs.steps.Inside.{done};
ghost use Rattle.state.specs.steps.Inside.{no_entry};

use kinds::Kind;
use refusal::Refusal;
use state::{Answer, Event, Outcome, Rule, Scalars, Standing};

// The scalars that a call leaves; the version stays.
fn turn(
    s: Scalars,
    tick: i32,
    inside: bool,
    remembered: Option<i32>,
    largest: i32,
    pending: Option<Kind>,
    standing: Standing,
) -> Scalars
    ensures { result ≡ turned s tick inside remembered largest pending standing }
{
    let version = s.version;
    Scalars {
        version,
        tick,
        inside,
        remembered,
        largest,
        pending,
        standing,
    }
}

// After a refusal or finish: closed by it, with nothing pending.
pub fn closed(s: Scalars, by: Standing) -> Scalars
    ensures { result ≡ closing by s }
{
    let remembered = s.remembered;
    let none = None;
    turn(s, s.tick, s.inside, remembered, s.largest, none, by)
}

pub fn refuse(s: Scalars, why: Refusal) -> Outcome
    ensures { (m : Memory) → done result m ≡ refusal_step why s m }
{
    let scalars = closed(s, Standing::Refused);
    Outcome {
        answer: Answer::Refused(why),
        scalars,
    }
}

// Why a client without an entry is refused, from its bits: 8 where it is negative.
pub fn no_entry(bits: u32, why: Refusal) -> Refusal
    ensures { result ≡ no_entry bits why }
{
    if bits < 2147483648 {
        return why;
    }
    Refusal::InvalidClientId
}

// An event, and the scalars that it leaves.
pub fn gave(event: Event, used: usize, scalars: Scalars) -> Outcome
    ensures { (m : Memory) → done result m ≡ step_of (gives (event_is event) used) scalars m }
{
    Outcome {
        answer: Answer::Event { event, used },
        scalars,
    }
}

// The bytes needed run out: more, or 3 where no more come.
pub fn run_out(s: Scalars, last: bool) -> Outcome
    ensures { (m : Memory) → done result m ≡ out_of last s m }
{
    if last {
        return refuse(s, Refusal::UnexpectedEnd);
    }
    Outcome {
        answer: Answer::More,
        scalars: s,
    }
}

fn larger_of(a: i32, b: i32) -> i32
    ensures { result ≡ larger a b }
{
    a.max(b)
}

fn raised_to(largest: i32, cid: Option<i32>) -> i32
    ensures { result ≡ raised_to largest cid }
{
    let Some(c) = cid else {
        return largest;
    };
    larger_of(largest, c)
}

// After a record whose client this is.
pub fn raised(s: Scalars, cid: Option<i32>) -> Scalars
    ensures { result ≡ raising cid s }
{
    let remembered = s.remembered;
    let largest = raised_to(s.largest, cid);
    let none = None;
    let standing = s.standing;
    turn(s, s.tick, s.inside, remembered, largest, none, standing)
}

// After a player record of a client.
pub fn named(s: Scalars, cid: i32) -> Scalars
    ensures { result ≡ naming cid s }
{
    let largest = larger_of(s.largest, cid);
    let none = None;
    let standing = s.standing;
    turn(s, s.tick, s.inside, Some(cid), largest, none, standing)
}

// At the start or the end of a tick.
fn ticked(
    s: Scalars,
    tick: i32,
    inside: bool,
    remembered: Option<i32>,
    pending: Option<Kind>,
) -> Scalars
    ensures { result ≡ ticking tick inside remembered pending s }
{
    let standing = s.standing;
    turn(s, tick, inside, remembered, s.largest, pending, standing)
}

// A tick starts, and the kind is pending.
pub fn started(s: Scalars, kind: Kind) -> Scalars
    ensures { result ≡ starting kind s }
{
    let remembered = s.remembered;
    ticked(s, s.tick, true, remembered, Some(kind))
}

// A tick ends, and the kind is pending.
pub fn ended(s: Scalars, tick: i32, remembered: Option<i32>, kind: Kind) -> Scalars
    ensures { result ≡ ending tick remembered kind s }
{
    ticked(s, tick, false, remembered, Some(kind))
}

// After a TickSkip nothing is pending, and no client is remembered.
fn skipped_to(s: Scalars, tick: i32, inside: bool) -> Scalars
    ensures { result ≡ skipping tick inside s }
{
    ticked(s, tick, inside, None, None)
}

fn wide(x: u32) -> u64
    ensures { (result ≡ x) × (result < 4294967296) }
{
    x as u64
}

fn next_tick(tick: i32, k: u32) -> Option<i32>
    ensures { result ≡ next_tick tick k }
{
    let b = wide(num::bits(tick));
    if 2147483648 <= b {
        return None;
    }
    let to = b + wide(k) + 1;
    if 2147483648 <= to {
        return None;
    }
    Some(to as i32)
}

pub fn tick_skip(s: Scalars, dt: u32, used: usize) -> Outcome
    ensures { (m : Memory) → done result m ≡ tick_skip s m dt used }
{
    let tick = s.tick;
    let Some(t) = next_tick(tick, dt) else {
        return refuse(s, Refusal::TickOverflow);
    };
    if s.inside {
        return gave(Event::TickEnd(tick), used, skipped_to(s, t, false));
    }
    gave(Event::TickStart(t), used, skipped_to(s, t, true))
}

fn player_rule(s: Scalars, cid: i32) -> Rule
    ensures { result ≡ player_rule s cid }
{
    if !s.inside {
        return Rule::Starts;
    }
    let prev = s.remembered;
    let Some(p) = prev else {
        return Rule::Reads;
    };
    if p < cid {
        return Rule::Reads;
    }
    let tick = s.tick;
    let Some(t) = next_tick(tick, 0) else {
        return Rule::Over;
    };
    Rule::Ends(t)
}

fn other_rule(s: Scalars) -> Rule
    ensures { result ≡ other_rule s }
{
    if s.inside {
        return Rule::Reads;
    }
    Rule::Starts
}

// The tick rules.
pub fn tick_rule(s: Scalars, kind: Kind) -> Rule
    ensures { result ≡ tick_rule s kind }
{
    // three arms for the players: an or-pattern that binds a signed number gets no proof
    match kind {
        Kind::PlayerDiff(cid) => player_rule(s, cid),
        Kind::PlayerNew(cid) => player_rule(s, cid),
        Kind::PlayerOld(cid) => player_rule(s, cid),
        Kind::Finish => {
            if s.inside {
                return Rule::EndsHere;
            }
            Rule::Reads
        }
        Kind::TickSkip => Rule::Reads,
        _ => other_rule(s),
    }
}
