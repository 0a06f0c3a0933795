// States with teams for test programs: whether two readers or two boards are the same; readers made of the bytes of a case.
#![tactic(auto)]

ghost use Rattle.std.specs.Prelude.{◌≡◌, ◌&&◌};
ghost use Rattle.state.specs.State.{every};
ghost use Rattle.alike.specs.Alike.{same_number, same_entries, same_scalars, same_cid, board_tick};
ghost use Rattle.team_alike.specs.TeamAlike.{team_at, teams_in, team_reader_in};

use back::TeamBoard;
use teams::TeamReader;

pub fn same_teams(a: &[i32; 256], b: &[i32; 256]) -> bool
    ensures { result ≡ every 256 (same_number a.now b.now) }
{
    let mut all = true;
    for i in 0..256 {
        let x = a[i];
        let y = b[i];
        all = good::both(compare::same_number(x, y), all);
    }
    all
}

pub fn same_team_reader(a: TeamReader, b: TeamReader) -> bool
    ensures { result ≡ ((same_scalars a.reader.scalars b.reader.scalars && same_entries a.reader.entries b.reader.entries)
        && every 256 (same_number a.teams b.teams)) }
{
    let q = a.reader;
    let r = b.reader;
    let s = a.teams;
    let t = b.teams;
    good::both(alike::same_reader(q, r), same_teams(&s, &t))
}

pub fn same_team_board(a: TeamBoard, b: TeamBoard) -> bool
    ensures { result ≡ ((same_cid (board_tick a.board.tick) (board_tick b.board.tick) && same_entries a.board.entries b.board.entries)
        && every 256 (same_number a.teams b.teams)) }
{
    let q = a.board;
    let r = b.board;
    let s = a.teams;
    let t = b.teams;
    good::both(alike::same_board(q, r), same_teams(&s, &t))
}

fn with_team(c: usize, mark: i32, number: i32) -> [i32; 256]
    ensures { result ≡ team_at c mark number }
{
    let mut teams = [0i32; 256];
    if c < 128 {
        teams[2 * c] = mark;
        teams[2 * c + 1] = number;
    }
    teams
}

// A client, its team's mark and number, each 100 more than it stands for; nobody else has a team, and no bytes are no teams.
pub fn teams_in(s: &[u8]) -> [i32; 256]
    ensures { result ≡ teams_in s.now }
{
    if s.len() == 0 {
        return [0; 256];
    }
    with_team(
        cases::size(cases::byte(s, 0)),
        cases::number(s, 1),
        cases::number(s, 2),
    )
}

// A reader as alike::reader_in takes it, then teams.
pub fn team_reader_in(s: &[u8]) -> TeamReader
    ensures { result ≡ team_reader_in s.now }
{
    TeamReader {
        reader: alike::reader_in(s),
        teams: teams_in(cases::window(s, 14, s.len())),
    }
}
