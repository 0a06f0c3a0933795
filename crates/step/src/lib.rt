// One reading call on an open reader whose memory is lent: the pending kind or a kind that is read, the tick rules, the record and what
// it changes (crate rests). Every public form of reading goes through `open_call`.
#![tactic(auto)]

ghost use Rattle.std.specs.Prelude.{◌≡◌};
ghost use Rattle.kinds.specs.steps.Kinds.{kind_is};
ghost use Rattle.state.specs.Reading.{next_kind, with_rule, open_call, good_call};
ghost use Rattle.state.specs.Slim.{slim_step};
ghost use Rattle.state.specs.steps.Inside.{done};

use kinds::{Kind, KindRead, Version};
use refusal::Refusal;
use state::{Answer, Event, Memory, Outcome, Rule, Scalars};

pub fn next_kind(version: Version, pending: Option<Kind>, w: &[u8]) -> KindRead
    ensures { kind_is result ≡ next_kind version pending w.now }
{
    let Some(kind) = pending else {
        return kinds::read_kind(version, w, 0);
    };
    KindRead::Got { kind, next: 0 }
}

// What the tick rule says of the kind.
fn with_rule(
    s: Scalars,
    m: &mut Memory,
    kind: Kind,
    w: &[u8],
    at: usize,
    last: bool,
    rule: Rule,
) -> Outcome
    ensures { done result m.new ≡ slim_step (with_rule s m.old w.now last kind at rule) }
{
    let tick = s.tick;
    let remembered = s.remembered;
    match rule {
        Rule::Reads => rests::with_record(s, m, kind, w, at, last),
        Rule::Starts => ticks::gave(Event::TickStart(tick), at, ticks::started(s, kind)),
        Rule::Ends(t) => ticks::gave(Event::TickEnd(tick), at, ticks::ended(s, t, None, kind)),
        Rule::EndsHere => ticks::gave(
            Event::TickEnd(tick),
            at,
            ticks::ended(s, tick, remembered, kind),
        ),
        Rule::Over => ticks::refuse(s, Refusal::TickOverflow),
    }
}

// A call on an open reader.
pub fn open_call(s: Scalars, m: &mut Memory, w: &[u8], last: bool) -> Outcome
    ensures { done result m.new ≡ slim_step (open_call s m.old w.now last) }
{
    let version = s.version;
    let pending = s.pending;
    let read = next_kind(version, pending, w);
    match read {
        KindRead::Got { kind, next } => {
            let rule = ticks::tick_rule(s, kind);
            with_rule(s, m, kind, w, next, last, rule)
        }
        KindRead::RunsOut => ticks::run_out(s, last),
        KindRead::Refused(r) => ticks::refuse(s, r),
    }
}

// A call on a good reader: a closed one is refused 18.
pub fn good_call(s: Scalars, m: &mut Memory, w: &[u8], last: bool) -> Outcome
    ensures { done result m.new ≡ slim_step (good_call s m.old w.now last) }
{
    let standing = s.standing;
    if standing.is_closed() {
        return Outcome {
            answer: Answer::Refused(Refusal::Closed),
            scalars: s,
        };
    }
    open_call(s, m, w, last)
}
