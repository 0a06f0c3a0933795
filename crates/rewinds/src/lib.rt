// A rewind under way by value, and lookups on its copy. The work is done by crate going on lent arrays.
#![tactic(auto)]

ghost use Rattle.std.specs.Prelude.{◌≡◌};
ghost use Rattle.state.specs.State.{entries_with};
ghost use Rattle.teams.specs.Teams.{team_of};
ghost use Rattle.lookups.specs.Lookups.{pos_of, input_for};
ghost use Rattle.reel.specs.Reel.{reel_of};
ghost use Rattle.going.specs.Going.{no_rewind, start_rewind, go_on};
ghost use Rattle.going.specs.Lent.{go_is};
ghost use Rattle.going.specs.declared.StartAnswer.TheVariants as starts;

use back::{Board, TeamBoard};
use going::{Go, LentGo, Progress, Rewind, Start, StartAnswer};
use lookups::Pos;
use reel::Reel;
use refusal::Refusal;
use state::Entries;
use teams::TeamReader;

// No rewind.
fn no_start(why: Refusal) -> Start
    ensures { result ≡ record { answer = starts.Refused why; rewind = no_rewind } }
{
    Start {
        answer: StartAnswer::Refused(why),
        rewind: Rewind {
            board: rewinding::blank_board(),
            reel: Reel::empty(),
            progress: Progress {
                tick: 0,
                newer: 0,
                misfit: false,
            },
        },
    }
}

// Starts a rewind to just after the newest TickStart of a tick on a reel; nothing is stepped over yet. Refused 17 (reader, reel), 18 (a reader closed by
// a refusal), 20 (no such TickStart), in this order.
pub fn start_rewind(reader: TeamReader, reel: Reel, tick: i32) -> Start
    ensures { result ≡ start_rewind reader reel tick }
{
    let counts = reel.counts;
    let rows = reel.rows;
    match rewinding::seek(reader, counts, &rows, tick) {
        Ok(newer) => Start {
            answer: StartAnswer::Started,
            rewind: Rewind {
                board: back::team_board_of(reader),
                reel,
                progress: Progress {
                    tick,
                    newer,
                    misfit: false,
                },
            },
        },
        Err(why) => no_start(why),
    }
}

// What is handed back by value, of the entries and teams that are left and of the own reel, of which only the counts change.
fn handed(
    went: LentGo,
    marks: [u8; 128],
    xs: [i32; 128],
    ys: [i32; 128],
    held: [u8; 128],
    inputs: [i32; 1280],
    teams: [i32; 256],
    reel: Reel,
) -> Go
    ensures { result ≡ go_is went (entries_with marks xs ys held inputs) teams (reel_of went.counts reel.rows reel.inputs reel.formers) }
{
    let answer = went.answer;
    let tick = went.tick;
    let counts = went.counts;
    let progress = went.progress;
    let rows = reel.rows;
    let tens = reel.inputs;
    let formers = reel.formers;
    Go {
        answer,
        rewind: Rewind {
            board: TeamBoard {
                board: Board {
                    tick,
                    entries: Entries {
                        marks,
                        xs,
                        ys,
                        held,
                        inputs,
                    },
                },
                teams,
            },
            reel: Reel {
                counts,
                rows,
                inputs: tens,
                formers,
            },
            progress,
        },
    }
}

// Steps a rewind's copy back over at most so many events: going::go_lent on copies of its arrays.
pub fn go_on(rewind: Rewind, events: usize) -> Go
    ensures { result ≡ go_on rewind events }
{
    let whole = rewind.board;
    let mut teams = whole.teams;
    let board = whole.board;
    let tick = board.tick;
    let entries = board.entries;
    let mut marks = entries.marks;
    let mut xs = entries.xs;
    let mut ys = entries.ys;
    let mut held = entries.held;
    let mut inputs = entries.inputs;
    let reel = rewind.reel;
    let counts = reel.counts;
    let rows = reel.rows;
    let tens = reel.inputs;
    let formers = reel.formers;
    let progress = rewind.progress;
    let went = going::go_lent(
        tick,
        &mut marks,
        &mut xs,
        &mut ys,
        &mut held,
        &mut inputs,
        &mut teams,
        counts,
        &rows,
        &tens,
        &formers,
        progress,
        events,
    );
    handed(went, marks, xs, ys, held, inputs, teams, reel)
}

// ---- looking at the copy

// The position of a client on the copy, or none.
pub fn player_pos(rewind: Rewind, cid: i32) -> Option<Pos>
    ensures { result ≡ pos_of rewind.board.board.entries cid }
{
    let whole = rewind.board;
    let board = whole.board;
    back::player_pos(board, cid)
}

// The ten input numbers of a client on the copy, or none.
pub fn input(rewind: Rewind, cid: i32) -> Option<[i32; 10]>
    ensures { result ≡ input_for rewind.board.board.entries cid }
{
    let whole = rewind.board;
    let board = whole.board;
    back::input(board, cid)
}

// The team of a client on the copy, or none.
pub fn team(rewind: Rewind, cid: i32) -> Option<i32>
    ensures { result ≡ team_of rewind.board.teams cid }
{
    let whole = rewind.board;
    back::team(whole, cid)
}

// The copy's tick, or none.
pub fn tick(rewind: Rewind) -> Option<i32>
    ensures { result ≡ rewind.board.board.tick }
{
    let whole = rewind.board;
    let board = whole.board;
    board.tick
}
