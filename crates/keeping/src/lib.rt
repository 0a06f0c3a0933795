// Events kept in a reel, whose arrays are lent.
#![tactic(auto)]

ghost use Rattle.std.specs.Prelude.{◌≡◌, cond, [], ◌∷◌, ◌<◌, ltb, pos};
ghost use Rattle.fields.specs.Views.{zeros};
ghost use Rattle.state.specs.State.{ten_of, put_ten};
ghost use Rattle.state.specs.Views.{event_is};
ghost use Rattle.teams.specs.steps.Joinings.{joining_is};
ghost use Rattle.back.specs.Undo.{undo_of, undo_joining};
ghost use Rattle.reel.specs.Reel.{numbers_of, reel_of, keeping};
ghost use Rattle.keeping.specs.steps.Lent.{Stored, kept_is};

use inputs::{put_ten, take_ten};
use reel::{Counts, KeepAnswer, KeptReel, Reel};
use refusal::Refusal;
use state::Event;
use teams::PlayerTeam;

// What is answered, and the counts of the reel that is left.
#[derive(Clone, Copy)]
pub struct KeptCounts {
    pub answer: KeepAnswer,
    pub counts: Counts,
}

// The ten numbers at a place; zeros where there is no such place.
pub fn ten_at(numbers: &[i32; 5120], p: usize) -> [i32; 10]
    ensures { result ≡ cond (ltb p 512) (ten_of numbers.now p) (zeros 10) }
{
    take_ten(numbers, p)
}

// The ten numbers of a row, in its place; those behind e are 0.
fn put_row(rows: &mut [i32; 5120], p: usize, k: i32, a: i32, b: i32, c: i32, d: i32, e: i32)
    requires { p < 512 }
    ensures { rows.new ≡ put_ten rows.old p (k ∷ a ∷ b ∷ c ∷ d ∷ e ∷ pos 0 ∷ pos 0 ∷ pos 0 ∷ pos 0 ∷ []) }
{
    put_ten(rows, p, [k, a, b, c, d, e, 0, 0, 0, 0]);
}

// The row of a record, in its place.
fn put_record(rows: &mut [i32; 5120], p: usize, joining: Option<PlayerTeam>, team: Option<i32>)
    requires { p < 512 }
    ensures { rows.new ≡ put_ten rows.old p (numbers_of (undo_joining (joining_is joining) team)) }
{
    match joining {
        Some(PlayerTeam { cid, team: number }) => put_row(
            rows,
            p,
            8,
            cid,
            number,
            teams::mark_for(team),
            teams::number_for(team),
            0,
        ),
        None => put_row(rows, p, 7, 0, 0, 0, 0, 0),
    }
}

// The row of an event, in its place.
fn store(
    p: usize,
    event: Event,
    team: Option<i32>,
    input: &[i32; 10],
    former: &[i32; 10],
    rows: &mut [i32; 5120],
    inputs: &mut [i32; 5120],
    formers: &mut [i32; 5120],
)
    requires { p < 512 }
    ensures { Stored (undo_of (event_is event) team) p input.now former.now rows.old inputs.old formers.old rows.new inputs.new formers.new }
{
    match event {
        Event::TickStart(t) => put_row(rows, p, 1, t, 0, 0, 0, 0),
        Event::TickEnd(t) => put_row(rows, p, 2, t, 0, 0, 0, 0),
        Event::PlayerNew { cid, x, y } => put_row(rows, p, 3, cid, x, y, 0, 0),
        Event::PlayerChange {
            cid,
            x,
            y,
            old_x,
            old_y,
        } => put_row(rows, p, 4, cid, x, y, old_x, old_y),
        Event::PlayerOld { cid, x, y } => put_row(rows, p, 5, cid, x, y, 0, 0),
        Event::Input { cid, former: had } => {
            put_row(rows, p, 6, cid, i32::from(had), 0, 0, 0);
            put_ten(&mut *inputs, p, *input);
            put_ten(&mut *formers, p, *former);
        }
        Event::Record(item) => put_record(rows, p, teams::joining_in(item), team),
    }
}

// An event in the next place of a reel whose arrays are lent, with the ten numbers and the former ten that stand beside it (of an input; else
// they are not looked at); team is the former one beside a PlayerTeam. Refused 17, with nothing changed, where the counts pass the room.
pub fn keep_lent(
    counts: Counts,
    event: Event,
    team: Option<i32>,
    input: &[i32; 10],
    former: &[i32; 10],
    rows: &mut [i32; 5120],
    inputs: &mut [i32; 5120],
    formers: &mut [i32; 5120],
) -> KeptCounts
    ensures { kept_is result rows.new inputs.new formers.new
        ≡ keeping (reel_of counts rows.old inputs.old formers.old) (event_is event) input.now former.now team }
{
    if !reel::good_counts(counts) {
        return KeptCounts {
            answer: KeepAnswer::Refused(Refusal::BadState),
            counts,
        };
    }
    store(
        counts.next,
        event,
        team,
        input,
        former,
        rows,
        inputs,
        formers,
    );
    KeptCounts {
        answer: KeepAnswer::Kept,
        counts: reel::one_more(counts),
    }
}

// The same for a reel by value.
pub fn keep(
    reel: Reel,
    event: Event,
    input: [i32; 10],
    former: [i32; 10],
    team: Option<i32>,
) -> KeptReel
    ensures { result ≡ keeping reel (event_is event) input former team }
{
    let counts = reel.counts;
    let mut rows = reel.rows;
    let mut inputs = reel.inputs;
    let mut formers = reel.formers;
    let kept = keep_lent(
        counts,
        event,
        team,
        &input,
        &former,
        &mut rows,
        &mut inputs,
        &mut formers,
    );
    let answer = kept.answer;
    let left = kept.counts;
    KeptReel {
        answer,
        reel: Reel {
            counts: left,
            rows,
            inputs,
            formers,
        },
    }
}
