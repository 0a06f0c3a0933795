// The rest of a record of a kind, read from a window, and what it changes in the scalars and the memory that is lent.
#![tactic(auto)]

ghost use Rattle.std.specs.Prelude.{◌≡◌, true};
ghost use Rattle.item.specs.Records.{read_rest};
ghost use Rattle.item.specs.Said.{finish};
ghost use Rattle.kinds.specs.steps.Kinds.{input_kind};
ghost use Rattle.state.specs.Reading.{step_of, closing};
ghost use Rattle.state.specs.declared.Standing.TheVariants.{Finished};
ghost use Rattle.state.specs.Slim.{slim_step};
ghost use Rattle.state.specs.steps.Parts.{with_rest};
ghost use Rattle.state.specs.steps.Inside.{done};
ghost use Rattle.rests.specs.steps.Kinds.{pair_kind, is_other, input_of};
ghost use Rattle.state.specs.Sorts.{sort_of};

use fields::InputAnswer;
use kinds::Kind;
use records::ItemRead;
use refusal::Refusal;
use shapes::PairRead;
use state::{Answer, Event, Memory, Outcome, Scalars, Standing};
use varint::IntRead;

// PlayerNew or PlayerDiff of a client.
fn with_pair(
    s: Scalars,
    m: &mut Memory,
    new: bool,
    cid: i32,
    w: &[u8],
    at: usize,
    last: bool,
) -> Outcome
    ensures { done result m.new ≡ slim_step (with_rest s m.old last (read_rest (pair_kind new cid) w.now at)) }
{
    let PairRead::Got {
        first,
        second,
        next,
    } = shapes::read_pair(w, at)
    else {
        return ticks::run_out(s, last);
    };
    let t = ticks::named(s, cid);
    if new {
        return players::player_new(t, m, cid, first, second, next);
    }
    players::player_diff(t, m, cid, first, second, next)
}

fn with_skip(s: Scalars, w: &[u8], at: usize, last: bool) -> Outcome
    ensures { (m : Memory) → done result m ≡ slim_step (with_rest s m last (read_rest Kind.TickSkip w.now at)) }
{
    let IntRead::Got {
        value,
        next,
        remark: _,
    } = varint::read_int(w, at)
    else {
        return ticks::run_out(s, last);
    };
    if value < 0 {
        return ticks::refuse(s, Refusal::NegativeDt);
    }
    ticks::tick_skip(s, value as u32, next)
}

// InputNew or InputDiff.
fn with_input(s: Scalars, m: &mut Memory, new: bool, w: &[u8], at: usize, last: bool) -> Outcome
    ensures { done result m.new ≡ slim_step (with_rest s m.old last (read_rest (input_kind new) w.now at)) }
{
    let read = fields::read_input(w, at);
    let answer = read.answer;
    let numbers = read.input;
    let InputAnswer::Got { cid, next } = answer else {
        return ticks::run_out(s, last);
    };
    let t = ticks::raised(s, Some(cid));
    if new {
        return inputs::input_new(t, m, cid, numbers, next);
    }
    inputs::input_diff(t, m, cid, numbers, next)
}

// A record that changes no entry.
fn with_other(s: Scalars, kind: Kind, w: &[u8], at: usize, last: bool) -> Outcome
    requires { is_other kind ≡ true }
    ensures { (m : Memory) → done result m ≡ slim_step (with_rest s m last (read_rest kind w.now at)) }
{
    let read = records::read_item(kind, w, at);
    match read {
        ItemRead::Got { item, next } => {
            let scalars = ticks::raised(s, item.cid());
            ticks::gave(Event::Record(item), next, scalars)
        }
        ItemRead::RunsOut => ticks::run_out(s, last),
        ItemRead::Refused(r) => ticks::refuse(s, r),
    }
}

fn finished(s: Scalars, used: usize) -> Outcome
    ensures { (m : Memory) → done result m ≡ step_of (finish used) (closing Finished s) m }
{
    let scalars = ticks::closed(s, Standing::Finished);
    Outcome {
        answer: Answer::Finish { used },
        scalars,
    }
}

// Of the kind of an input, whether it is that of an InputNew.
fn input_of(kind: Kind) -> Option<bool>
    ensures { result ≡ input_of (sort_of kind) }
{
    match kind {
        Kind::PlayerDiff(_) => None,
        Kind::Finish => None,
        Kind::TickSkip => None,
        Kind::PlayerNew(_) => None,
        Kind::PlayerOld(_) => None,
        Kind::InputDiff => Some(false),
        Kind::InputNew => Some(true),
        Kind::Message => None,
        Kind::Join => None,
        Kind::Drop => None,
        Kind::ConsoleCommand => None,
        Kind::Ex => None,
    }
}

// The rest of a record of a kind, and what it changes. The inputs share one call, and so do the kinds that change no entry, so that it is
// inlined: called from several places, it would make the scalars and the event of every record pass through memory.
pub fn with_record(
    s: Scalars,
    m: &mut Memory,
    kind: Kind,
    w: &[u8],
    at: usize,
    last: bool,
) -> Outcome
    ensures { done result m.new ≡ slim_step (with_rest s m.old last (read_rest kind w.now at)) }
{
    match kind {
        Kind::PlayerDiff(cid) => return with_pair(s, m, false, cid, w, at, last),
        Kind::Finish => return finished(s, at),
        Kind::TickSkip => return with_skip(s, w, at, last),
        Kind::PlayerNew(cid) => return with_pair(s, m, true, cid, w, at, last),
        Kind::PlayerOld(cid) => {
            return players::player_old(ticks::named(s, cid), m, cid, at);
        }
        Kind::InputDiff => {}
        Kind::InputNew => {}
        Kind::Message => {}
        Kind::Join => {}
        Kind::Drop => {}
        Kind::ConsoleCommand => {}
        Kind::Ex => {}
    }
    let Some(new) = input_of(kind) else {
        return with_other(s, kind, w, at, last);
    };
    with_input(s, m, new, w, at, last)
}
