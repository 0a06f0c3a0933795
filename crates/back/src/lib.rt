// The board of a reader, and what a step back has to know of an event.
#![tactic(auto)]

ghost use Rattle.std.specs.Prelude.{◌≡◌, List, ℤ};
ghost use Rattle.state.specs.Views.{event_is};
ghost use Rattle.teams.specs.Teams.{team_of};
ghost use Rattle.lookups.specs.Lookups.{pos_of, input_for};
ghost use Rattle.back.specs.Board.{board_of};
ghost use Rattle.back.specs.TeamBoard.{team_board_of};
ghost use Rattle.back.specs.Undo.{undo_of, undo_joining};
ghost use Rattle.teams.specs.steps.Joinings.{joining_is};

use lookups::Pos;
use refusal::Refusal;
use state::{Entries, Event, Reader};
use teams::{PlayerTeam, TeamReader};

#[derive(Clone, Copy)]
pub struct Board {
    pub tick: Option<i32>,
    pub entries: Entries,
}

// A board and its teams, two numbers for each client 0 to 127 as in a reader.
#[derive(Clone, Copy)]
pub struct TeamBoard {
    pub board: Board,
    pub teams: [i32; 256],
}

#[derive(Clone, Copy)]
pub enum BackAnswer {
    Back,
    Refused(Refusal),
}

// The earlier board, or in a refusal the one that was given.
#[derive(Clone, Copy)]
pub struct SteppedBack {
    pub answer: BackAnswer,
    pub board: TeamBoard,
}

// What a step back has to know of an event; the ten numbers of an input and the former ten stand beside it. Of a PlayerTeam: the client, its
// team and the former one.
#[derive(Clone, Copy)]
pub enum Undo {
    Start(i32),
    End(i32),
    New {
        cid: i32,
        x: i32,
        y: i32,
    },
    Change {
        cid: i32,
        x: i32,
        y: i32,
        old_x: i32,
        old_y: i32,
    },
    Old {
        cid: i32,
        x: i32,
        y: i32,
    },
    Input {
        cid: i32,
        former: bool,
    },
    Team {
        cid: i32,
        team: i32,
        former: Option<i32>,
    },
    Nothing,
}

// The board of a reader.
pub fn board_of(reader: Reader) -> Board
    ensures { result ≡ board_of reader }
{
    let scalars = reader.scalars;
    let entries = reader.entries;
    let tick = scalars.tick;
    if scalars.inside {
        return Board {
            tick: Some(tick),
            entries,
        };
    }
    Board {
        tick: None,
        entries,
    }
}

// The board of a reader with teams.
pub fn team_board_of(reader: TeamReader) -> TeamBoard
    ensures { result ≡ team_board_of reader }
{
    let teams = reader.teams;
    TeamBoard {
        board: board_of(reader.reader),
        teams,
    }
}

// The position of a client, or none.
pub fn player_pos(board: Board, cid: i32) -> Option<Pos>
    ensures { result ≡ pos_of board.entries cid }
{
    let entries = board.entries;
    lookups::player_pos(entries, cid)
}

// The ten input numbers of a client, or none.
pub fn input(board: Board, cid: i32) -> Option<[i32; 10]>
    ensures { result ≡ input_for board.entries cid }
{
    let entries = board.entries;
    lookups::input(entries, cid)
}

// The team of a client, or none.
pub fn team(board: TeamBoard, cid: i32) -> Option<i32>
    ensures { result ≡ team_of board.teams cid }
{
    let teams = board.teams;
    teams::team_of(&teams, cid)
}

// What a step back over a record has to know of it.
fn undo_record(joining: Option<PlayerTeam>, former: Option<i32>) -> Undo
    ensures { result ≡ undo_joining (joining_is joining) former }
{
    match joining {
        Some(PlayerTeam { cid, team }) => Undo::Team { cid, team, former },
        None => Undo::Nothing,
    }
}

// What a step back over the event has to know of it; of a PlayerTeam the former team stands beside it, of another event it is not looked at.
pub fn undo_of(event: Event, team: Option<i32>) -> Undo
    ensures { result ≡ undo_of (event_is event) team }
{
    match event {
        Event::TickStart(tick) => Undo::Start(tick),
        Event::TickEnd(tick) => Undo::End(tick),
        Event::PlayerNew { cid, x, y } => Undo::New { cid, x, y },
        Event::PlayerChange {
            cid,
            x,
            y,
            old_x,
            old_y,
        } => Undo::Change {
            cid,
            x,
            y,
            old_x,
            old_y,
        },
        Event::PlayerOld { cid, x, y } => Undo::Old { cid, x, y },
        Event::Input { cid, former } => Undo::Input { cid, former },
        Event::Record(item) => undo_record(teams::joining_in(item), team),
    }
}
