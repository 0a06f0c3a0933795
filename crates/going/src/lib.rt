// A rewind under way on lent arrays: it goes so many events a call, and between calls its copy of the board can be looked at.
#![tactic(auto)]

ghost use Rattle.std.specs.Prelude.{◌+◌, ◌≤◌, ◌<◌, min, ◌≡◌, false, cond, ◌&&◌, List, eqb, ℤ, pos};
ghost use Rattle.state.specs.State.{entries_with};
ghost use Rattle.back.specs.Board.{board};
ghost use Rattle.back.specs.TeamBoard.{team_board, good_team_board};
ghost use Rattle.reel.specs.Reel.{good_counts, reel_of, rows_of};
ghost use Rattle.rewinding.specs.Rewinding.{blank_board};
ghost use Rattle.going.specs.Going.{progress_of, rewind_of, start_rewind, start_behind, go_on};
ghost use Rattle.going.specs.Lent.{StartIs, go_is};
ghost use Rattle.going.specs.steps.Places.{places_before, lent_of};
ghost use Rattle.going.specs.declared.StartAnswer.TheVariants as starts;
ghost use Rattle.going.specs.declared.GoAnswer.TheVariants as answers;

use back::TeamBoard;
use reel::{Counts, Reel};
use refusal::Refusal;
use rewinding::Over;
use teams::TeamReader;

// The tick, how many rows of the own reel are newer than its TickStart, and whether an event didn't fit.
#[derive(Clone, Copy)]
pub struct Progress {
    pub tick: i32,
    pub newer: usize,
    pub misfit: bool,
}

// The copy of the board, the rewind's own reel, and how far it has come.
#[derive(Clone, Copy)]
pub struct Rewind {
    pub board: TeamBoard,
    pub reel: Reel,
    pub progress: Progress,
}

#[derive(Clone, Copy)]
pub enum StartAnswer {
    Started,
    Refused(Refusal),
}

// In a refusal there is no rewind, and what stands for it is blank.
#[derive(Clone, Copy)]
pub struct Start {
    pub answer: StartAnswer,
    pub rewind: Rewind,
}

// The same where the own reel's arrays are lent.
#[derive(Clone, Copy)]
pub struct LentStart {
    pub answer: StartAnswer,
    pub board: TeamBoard,
    pub progress: Progress,
}

#[derive(Clone, Copy)]
pub enum GoAnswer {
    Ended,
    Going,
    Refused(Refusal),
}

#[derive(Clone, Copy)]
pub struct Go {
    pub answer: GoAnswer,
    pub rewind: Rewind,
}

// The same where the arrays of the copy and of the own reel are lent: the copy's tick and the reel's counts.
#[derive(Clone, Copy)]
pub struct LentGo {
    pub answer: GoAnswer,
    pub tick: Option<i32>,
    pub counts: Counts,
    pub progress: Progress,
}

// ---- starting

fn started(board: TeamBoard, tick: i32, newer: usize) -> LentStart
    ensures { result ≡ record { answer = starts.Started; board = board; progress = progress_of tick newer false } }
{
    LentStart {
        answer: StartAnswer::Started,
        board,
        progress: Progress {
            tick,
            newer,
            misfit: false,
        },
    }
}

fn refuse_start(why: Refusal) -> LentStart
    ensures { result ≡ record { answer = starts.Refused why; board = blank_board; progress = progress_of (pos 0) 0 false } }
{
    LentStart {
        answer: StartAnswer::Refused(why),
        board: rewinding::blank_board(),
        progress: Progress {
            tick: 0,
            newer: 0,
            misfit: false,
        },
    }
}

// Starts a rewind to just after the newest TickStart of a tick on a reel; nothing is stepped over yet. The reel is copied into the rewind's
// own. Refused 17 (reader, reel), 18 (a reader closed by a refusal), 20 (no such TickStart), in this order; then the own reel stays as it was.
pub fn start_lent(
    reader: TeamReader,
    counts: Counts,
    rows: &[i32; 5120],
    inputs: &[i32; 5120],
    formers: &[i32; 5120],
    tick: i32,
    own_rows: &mut [i32; 5120],
    own_inputs: &mut [i32; 5120],
    own_formers: &mut [i32; 5120],
) -> LentStart
    ensures { StartIs (start_rewind reader (reel_of counts rows.now inputs.now formers.now) tick)
        (reel_of counts rows.now inputs.now formers.now)
        (reel_of counts own_rows.old own_inputs.old own_formers.old) result
        (reel_of counts own_rows.new own_inputs.new own_formers.new) }
{
    match rewinding::seek(reader, counts, rows, tick) {
        Ok(newer) => {
            *own_rows = *rows;
            *own_inputs = *inputs;
            *own_formers = *formers;
            started(back::team_board_of(reader), tick, newer)
        }
        Err(why) => refuse_start(why),
    }
}

// ---- going on

// The place of the row behind n others.
fn behind(next: usize, n: usize) -> usize
    requires { (next < 512) × (n < 512) }
    ensures { result ≡ places_before (n + 1) next }
{
    if n < next {
        return next - n - 1;
    }
    next + 511 - n
}

// Whether the TickStart stands in its place on the own reel.
fn has_start(counts: Counts, rows: &[i32; 5120], tick: i32, newer: usize) -> bool
    requires { (counts.next < 512) × (counts.count ≤ 512) }
    ensures { (inputs formers : List ℤ) → result ≡ start_behind tick newer (rows_of (reel_of counts rows.now inputs formers)) }
{
    newer < counts.count && rewinding::start_at(rows, behind(counts.next, newer), tick)
}

// Whether the copy and the own reel are not refused 17.
fn good_rewind<'a>(
    tick: Option<i32>,
    marks: &'a [u8; 128],
    xs: &'a [i32; 128],
    ys: &'a [i32; 128],
    held: &'a [u8; 128],
    inputs: &'a [i32; 1280],
    teams: &'a [i32; 256],
    counts: Counts,
) -> bool
    ensures { result ≡ (good_team_board (team_board (board tick (entries_with marks.now xs.now ys.now held.now inputs.now)) teams.now) && good_counts counts) }
{
    let good = good::good_lent(marks, xs, ys, held, inputs);
    good::both(
        good::both(
            good::both(stepping::good_tick(tick), good),
            teams::good_teams(teams),
        ),
        reel::good_counts(counts),
    )
}

fn refuse(why: Refusal, tick: Option<i32>, counts: Counts, progress: Progress) -> LentGo
    ensures { result ≡ record { answer = answers.Refused why; tick = tick; counts = counts; progress = progress } }
{
    LentGo {
        answer: GoAnswer::Refused(why),
        tick,
        counts,
        progress,
    }
}

fn standing(newer: usize) -> GoAnswer
    ensures { result ≡ cond (eqb newer 0) answers.Ended answers.Going }
{
    if newer == 0 {
        return GoAnswer::Ended;
    }
    GoAnswer::Going
}

// What is left after rows were stepped over.
fn went(over: Over, counts: Counts, progress: Progress) -> LentGo
    requires { (over.over ≤ counts.count) × (over.over ≤ progress.newer) }
    ensures { result ≡ lent_of over.off.fits over.off.tick over.place over.over counts progress }
{
    let off = over.off;
    let tick = off.tick;
    let newer = progress.newer - over.over;
    let left = Counts {
        next: over.place,
        count: counts.count - over.over,
    };
    if !off.fits {
        return refuse(
            Refusal::NotLast,
            tick,
            left,
            Progress {
                tick: progress.tick,
                newer,
                misfit: true,
            },
        );
    }
    LentGo {
        answer: standing(newer),
        tick,
        counts: left,
        progress: Progress {
            tick: progress.tick,
            newer,
            misfit: progress.misfit,
        },
    }
}

// Steps a rewind's copy back over at most so many events of its own reel, the newest first, and no further than to just after its TickStart: then
// it has ended, else it is still going. Refused 17 (copy, reel), 20 (the TickStart isn't in its place), with nothing changed; 19 at the first event that
// doesn't fit, before which the copy stays, and from then on by every call.
pub fn go_lent(
    tick: Option<i32>,
    marks: &mut [u8; 128],
    xs: &mut [i32; 128],
    ys: &mut [i32; 128],
    held: &mut [u8; 128],
    inputs: &mut [i32; 1280],
    teams: &mut [i32; 256],
    counts: Counts,
    rows: &[i32; 5120],
    tens: &[i32; 5120],
    formers: &[i32; 5120],
    progress: Progress,
    events: usize,
) -> LentGo
    ensures { go_is result (entries_with marks.new xs.new ys.new held.new inputs.new) teams.new
        (reel_of result.counts rows.now tens.now formers.now)
        ≡ go_on
        (rewind_of (team_board (board tick (entries_with marks.old xs.old ys.old held.old inputs.old)) teams.old)
        (reel_of counts rows.now tens.now formers.now) progress) events }
{
    if !good_rewind(tick, &*marks, &*xs, &*ys, &*held, &*inputs, &*teams, counts) {
        return refuse(Refusal::BadState, tick, counts, progress);
    }
    if !has_start(counts, rows, progress.tick, progress.newer) {
        return refuse(Refusal::TickGone, tick, counts, progress);
    }
    if progress.misfit {
        return refuse(Refusal::NotLast, tick, counts, progress);
    }
    let n = events.min(progress.newer);
    let over = rewinding::step_over(
        tick,
        marks,
        xs,
        ys,
        held,
        inputs,
        teams,
        counts.next,
        n,
        rows,
        tens,
        formers,
    );
    went(over, counts, progress)
}

// A call behind another, on what that left.
pub fn go_further(
    went: LentGo,
    marks: &mut [u8; 128],
    xs: &mut [i32; 128],
    ys: &mut [i32; 128],
    held: &mut [u8; 128],
    inputs: &mut [i32; 1280],
    teams: &mut [i32; 256],
    rows: &[i32; 5120],
    tens: &[i32; 5120],
    formers: &[i32; 5120],
    events: usize,
) -> LentGo
    ensures { go_is result (entries_with marks.new xs.new ys.new held.new inputs.new) teams.new
        (reel_of result.counts rows.now tens.now formers.now)
        ≡ go_on
        (rewind_of (team_board (board went.tick (entries_with marks.old xs.old ys.old held.old inputs.old)) teams.old)
        (reel_of went.counts rows.now tens.now formers.now) went.progress) events }
{
    let tick = went.tick;
    let counts = went.counts;
    let progress = went.progress;
    go_lent(
        tick, marks, xs, ys, held, inputs, teams, counts, rows, tens, formers, progress, events,
    )
}
