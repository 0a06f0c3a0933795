// Rewinding to a tick: a copy of the board, just after the newest TickStart of that tick on the reel.
#![tactic(auto)]

ghost use Rattle.std.specs.Prelude.{◌≡◌, true, ◌&&◌, List, ◌<◌, ◌≤◌, ltb, ℤ};
ghost use Rattle.state.specs.State.{ten_of, entries_with};
ghost use Rattle.back.specs.Board.{board};
ghost use Rattle.back.specs.TeamBoard.{team_board, refused};
ghost use Rattle.reel.specs.Reel.{undo_in, reel_of, rows_before, rows_of};
ghost use Rattle.rewinding.specs.Rewinding.{is_start, newer_than, closed_by_refusal, sought_in, step_over, copy_of, rewind_to, blank_board, rewound_of};
ghost use Rattle.rewinding.specs.steps.Found.{found_is};
ghost use Rattle.rewinding.specs.Walk.{walk, rows_from, walked_is};

use back::{Board, TeamBoard};
use reel::{Counts, Reel};
use refusal::Refusal;
use state::{Entries, Standing};
use taking::Off;
use teams::TeamReader;

#[derive(Clone, Copy)]
pub enum RewindAnswer {
    Ended,
    Refused(Refusal),
}

// The copy, just after TickStart; in a refusal there is none, and the board is blank.
#[derive(Clone, Copy)]
pub struct Rewound {
    pub answer: RewindAnswer,
    pub board: TeamBoard,
}

// What stepping over rows leaves, how many fitted, and the place before which the others stand.
#[derive(Clone, Copy)]
pub struct Over {
    pub off: Off,
    pub over: usize,
    pub place: usize,
}

// The newest TickStart of a tick.
#[tactic(auto, using(crate::proofs::Steps::before_below))]
fn find_start(counts: Counts, rows: &[i32; 5120], tick: i32) -> Option<usize>
    requires { (counts.next < 512) × (counts.count ≤ 512) }
    ensures { (inputs formers : List ℤ) → found_is result ≡ newer_than tick (rows_of (reel_of counts rows.now inputs formers)) }
{
    let mut place = counts.next;
    for n in 0..counts.count {
        place = reel::place_before(place);
        if is_start(rows, place, tick) {
            return Some(n);
        }
    }
    None
}

// Whether the row at a place is TickStart of a tick.
fn is_start(rows: &[i32; 5120], p: usize, tick: i32) -> bool
    requires { p < 512 }
    ensures { result ≡ is_start tick (undo_in (ten_of rows.now p)) }
{
    let kind = rows[10 * p];
    let t = rows[10 * p + 1];
    good::both(compare::same_number(kind, 1), compare::same_number(t, tick))
}

// The same for any place: where there is none of the 512 it is not.
pub fn start_at(rows: &[i32; 5120], p: usize, tick: i32) -> bool
    ensures { result ≡ (ltb p 512 && is_start tick (undo_in (ten_of rows.now p))) }
{
    p < 512 && is_start(rows, p, tick)
}

fn closed_by_refusal(standing: Standing) -> bool
    ensures { result ≡ closed_by_refusal standing }
{
    matches!(standing, Standing::Refused)
}

// The newest TickStart of a tick on a reel beside a reader: how many rows are newer. Refused 17 (reader, reel), 18 (a reader closed by a
// refusal), 20 (no such TickStart), in this order.
pub fn seek(
    reader: TeamReader,
    counts: Counts,
    rows: &[i32; 5120],
    tick: i32,
) -> Result<usize, Refusal>
    ensures { (inputs formers : List ℤ) → result ≡ sought_in reader (reel_of counts rows.now inputs formers) tick }
{
    let teams = reader.teams;
    let plain = reader.reader;
    let scalars = plain.scalars;
    let entries = plain.entries;
    if !good::both(
        good::both(
            good::both(
                good_reader::good_scalars(scalars),
                good::good_entries(entries),
            ),
            teams::good_teams(&teams),
        ),
        reel::good_counts(counts),
    ) {
        return Err(Refusal::BadState);
    }
    let standing = scalars.standing;
    if closed_by_refusal(standing) {
        return Err(Refusal::Closed);
    }
    match find_start(counts, rows, tick) {
        Some(n) => Ok(n),
        None => Err(Refusal::TickGone),
    }
}

// Steps over the n rows before a place, while they fit.
fn walk_over(
    tick: Option<i32>,
    marks: &mut [u8; 128],
    xs: &mut [i32; 128],
    ys: &mut [i32; 128],
    held: &mut [u8; 128],
    inputs: &mut [i32; 1280],
    teams: &mut [i32; 256],
    next: usize,
    n: usize,
    rows: &[i32; 5120],
    tens: &[i32; 5120],
    formers: &[i32; 5120],
) -> Over
    requires { next < 512 }
    ensures { (counts : Counts) → walked_is result (entries_with marks.new xs.new ys.new held.new inputs.new) teams.new
        ≡ walk (reel_of counts rows.now tens.now formers.now) n next 0
        (team_board (board tick (entries_with marks.old xs.old ys.old held.old inputs.old)) teams.old) }
{
    let mut t = tick;
    let mut p = next;
    for k in 0..n {
        let q = reel::place_before(p);
        let undo = reel::undo_in(keeping::ten_at(rows, q));
        let ten = keeping::ten_at(tens, q);
        let old = keeping::ten_at(formers, q);
        let off = taking::take_off_team(t, marks, xs, ys, held, inputs, teams, undo, ten, old);
        let left = off.tick;
        if !off.fits {
            return Over {
                off: Off {
                    fits: false,
                    tick: left,
                },
                over: k,
                place: p,
            };
        }
        t = left;
        p = q;
    }
    Over {
        off: Off {
            fits: true,
            tick: t,
        },
        over: n,
        place: p,
    }
}

// The same for any place: before one that is none of the 512 there are no rows. Whether the board is a good one (17) is not tested.
pub fn step_over(
    tick: Option<i32>,
    marks: &mut [u8; 128],
    xs: &mut [i32; 128],
    ys: &mut [i32; 128],
    held: &mut [u8; 128],
    inputs: &mut [i32; 1280],
    teams: &mut [i32; 256],
    next: usize,
    n: usize,
    rows: &[i32; 5120],
    tens: &[i32; 5120],
    formers: &[i32; 5120],
) -> Over
    ensures { (counts : Counts) → walked_is result (entries_with marks.new xs.new ys.new held.new inputs.new) teams.new
        ≡ walk (reel_of counts rows.now tens.now formers.now) (rows_from next n) next 0
        (team_board (board tick (entries_with marks.old xs.old ys.old held.old inputs.old)) teams.old) }
{
    if 512 <= next {
        return Over {
            off: Off { fits: true, tick },
            over: 0,
            place: next,
        };
    }
    walk_over(
        tick, marks, xs, ys, held, inputs, teams, next, n, rows, tens, formers,
    )
}

// No tick, no players, no inputs and no teams: what stands for a copy where there is none.
pub fn blank_board() -> TeamBoard
    ensures { result ≡ blank_board }
{
    TeamBoard {
        board: Board {
            tick: None,
            entries: Entries {
                marks: [0; 128],
                xs: [0; 128],
                ys: [0; 128],
                held: [0; 128],
                inputs: [0; 1280],
            },
        },
        teams: [0; 256],
    }
}

// In a refusal there is no copy.
fn refuse(why: Refusal) -> Rewound
    ensures { result ≡ rewound_of (refused why) }
{
    Rewound {
        answer: RewindAnswer::Refused(why),
        board: blank_board(),
    }
}

// The board after the n newest rows are stepped over.
fn over_newest(
    board: TeamBoard,
    n: usize,
    counts: Counts,
    rows: &[i32; 5120],
    tens: &[i32; 5120],
    formers: &[i32; 5120],
) -> Rewound
    requires { counts.next < 512 }
    ensures { result ≡ rewound_of (copy_of (step_over (rows_before (reel_of counts rows.now tens.now formers.now) n counts.next) board)) }
{
    let mut teams = board.teams;
    let plain = board.board;
    let tick = plain.tick;
    let entries = plain.entries;
    let mut marks = entries.marks;
    let mut xs = entries.xs;
    let mut ys = entries.ys;
    let mut held = entries.held;
    let mut inputs = entries.inputs;
    let walked = walk_over(
        tick,
        &mut marks,
        &mut xs,
        &mut ys,
        &mut held,
        &mut inputs,
        &mut teams,
        counts.next,
        n,
        rows,
        tens,
        formers,
    );
    let off = walked.off;
    if !off.fits {
        return refuse(Refusal::NotLast);
    }
    let before = off.tick;
    Rewound {
        answer: RewindAnswer::Ended,
        board: TeamBoard {
            board: Board {
                tick: before,
                entries: Entries {
                    marks,
                    xs,
                    ys,
                    held,
                    inputs,
                },
            },
            teams,
        },
    }
}

// Rewinds a copy of a reader's board to just after the newest TickStart of a tick on the reel, whose arrays are lent. Refused 17 (reader, reel),
// 18 (a reader closed by a refusal), 20 (no such TickStart), 19 (an event newer than it doesn't fit), in this order.
pub fn rewind_lent(
    reader: TeamReader,
    counts: Counts,
    rows: &[i32; 5120],
    inputs: &[i32; 5120],
    formers: &[i32; 5120],
    tick: i32,
) -> Rewound
    ensures { result ≡ rewound_of (rewind_to reader (reel_of counts rows.now inputs.now formers.now) tick) }
{
    match seek(reader, counts, rows, tick) {
        Ok(n) => over_newest(
            back::team_board_of(reader),
            n,
            counts,
            rows,
            inputs,
            formers,
        ),
        Err(why) => refuse(why),
    }
}

// The same for a reel by value.
pub fn rewind(reader: TeamReader, reel: Reel, tick: i32) -> Rewound
    ensures { result ≡ rewound_of (rewind_to reader reel tick) }
{
    let counts = reel.counts;
    let rows = reel.rows;
    let inputs = reel.inputs;
    let formers = reel.formers;
    rewind_lent(reader, counts, &rows, &inputs, &formers, tick)
}
