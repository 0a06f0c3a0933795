// Stepping back over an event, a board by value. The work is done by taking::take_off on lent entries.
#![tactic(auto)]

ghost use Rattle.std.specs.Prelude.{◌≡◌, cond};
ghost use Rattle.refusal.specs.declared.Refusal.TheVariants.{NotLast};
ghost use Rattle.state.specs.Views.{event_is};
ghost use Rattle.back.specs.Board.{board, good_tick};
ghost use Rattle.back.specs.TeamBoard.{refused, team_board, team_step_back, stepped_from};
ghost use Rattle.back.specs.Undo.{undone, former_in};
ghost use Rattle.back.specs.declared.BackAnswer.TheVariants as answers;

use back::{BackAnswer, Board, SteppedBack, TeamBoard, Undo};
use refusal::Refusal;
use state::{Entries, Event};
use taking::Off;

// Whether a board's tick is not refused 17.
pub fn good_tick(tick: Option<i32>) -> bool
    ensures { result ≡ good_tick tick }
{
    let Some(t) = tick else {
        return true;
    };
    compare::not_negative(t)
}

fn refuse(board: TeamBoard, why: Refusal) -> SteppedBack
    ensures { result ≡ stepped_from board (refused why) }
{
    SteppedBack {
        answer: BackAnswer::Refused(why),
        board,
    }
}

fn answer_of(fits: bool) -> BackAnswer
    ensures { result ≡ cond fits answers.Back (answers.Refused NotLast) }
{
    if fits {
        return BackAnswer::Back;
    }
    BackAnswer::Refused(Refusal::NotLast)
}

// What a step back hands back, of what was taken off, and the entries and teams that are left.
fn stepped(off: Off, entries: Entries, teams: [i32; 256]) -> SteppedBack
    ensures { result ≡ record { answer = cond off.fits answers.Back (answers.Refused NotLast); board = team_board (board off.tick entries) teams } }
{
    let fits = off.fits;
    let tick = off.tick;
    SteppedBack {
        answer: answer_of(fits),
        board: TeamBoard {
            board: Board { tick, entries },
            teams,
        },
    }
}

// One step back over an event that is known by its undo: the board before it, of its ten numbers and the former ten (of an input; else
// they are not looked at). The small arrays are copied, so that each can be lent; the input numbers stay where they are.
pub fn take_back(board: TeamBoard, undo: Undo, input: [i32; 10], former: [i32; 10]) -> SteppedBack
    ensures { result ≡ stepped_from board (team_step_back board (undone undo) input former (former_in undo)) }
{
    let mut teams = board.teams;
    let plain = board.board;
    let tick = plain.tick;
    let mut entries = plain.entries;
    let mut marks = entries.marks;
    let mut xs = entries.xs;
    let mut ys = entries.ys;
    let mut held = entries.held;
    let good = good::good_lent(&marks, &xs, &ys, &held, &entries.inputs);
    if !good::both(good::both(good_tick(tick), good), teams::good_teams(&teams)) {
        return refuse(board, Refusal::BadState);
    }
    let off = taking::take_off_team(
        tick,
        &mut marks,
        &mut xs,
        &mut ys,
        &mut held,
        &mut entries.inputs,
        &mut teams,
        undo,
        input,
        former,
    );
    entries.marks = marks;
    entries.xs = xs;
    entries.ys = ys;
    entries.held = held;
    stepped(off, entries, teams)
}

// One step back over an event; team is the former one beside a PlayerTeam, and not looked at beside another event.
pub fn step_back(
    board: TeamBoard,
    event: Event,
    input: [i32; 10],
    former: [i32; 10],
    team: Option<i32>,
) -> SteppedBack
    ensures { result ≡ stepped_from board (team_step_back board (event_is event) input former team) }
{
    take_back(board, back::undo_of(event, team), input, former)
}
