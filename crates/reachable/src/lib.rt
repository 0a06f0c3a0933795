// Whether records bring a reader to a wanted board: the refusals that come before the target is looked at.
#![tactic(auto)]

ghost use Rattle.std.specs.Prelude.{◌≡◌, true, cond, List, ℕ, ◌<◌, ltb, ℤ, pos};
ghost use Rattle.state.specs.State.{entries_with, reader_with};
ghost use Rattle.state.specs.Reading.{at_or_below};
ghost use Rattle.teams.specs.Teams.{has_team, team_reader, good_team_reader};
ghost use Rattle.calls.specs.Calls.{is_pending};
ghost use Rattle.back.specs.Board.{board};
ghost use Rattle.back.specs.TeamBoard.{team_board, good_team_board};
ghost use Rattle.choice.specs.Chosen.{player_of};
ghost use Rattle.choice.specs.Reaching.{loses_input, loses_team, any_team, team_without, differs_behind, cant_reach, may_reach};
ghost use Rattle.reachable.specs.steps.Tests.{AllowedIs};

use choice::Player;
use kinds::{Kind, Version};
use refusal::Refusal;
use state::Scalars;

// A client's player entry; zeros where it has none.
pub fn player_at<'a>(
    marks: &'a [u8; 128],
    xs: &'a [i32; 128],
    ys: &'a [i32; 128],
    c: usize,
) -> Player
    ensures { (held : List ℕ) (inputs : List ℤ)
        → result ≡ cond (ltb c 128) (player_of (entries_with marks.now xs.now ys.now held inputs) c)
        (record { mark = 0; x = pos 0; y = pos 0 }) }
{
    if 128 <= c {
        return Player {
            mark: 0,
            x: 0,
            y: 0,
        };
    }
    Player {
        mark: marks[c],
        x: xs[c],
        y: ys[c],
    }
}

fn if_marked(mark: bool, then: bool) -> bool
    ensures { result ≡ cond mark then true }
{
    !mark | then
}

// Whether a client has inputs now and none in the wanted board.
fn loses_input<'a>(held: &'a [u8; 128], wanted: &'a [u8; 128]) -> bool
    ensures { (marks : List ℕ) (xs ys inputs : List ℤ) (wmarks : List ℕ) (wxs wys winputs : List ℤ)
        → result ≡ loses_input (entries_with marks xs ys held.now inputs) (entries_with wmarks wxs wys wanted.now winputs) }
{
    let mut all = true;
    for c in 0..128 {
        let now = held[c] == 1;
        let then = wanted[c] == 1;
        all = good::both(if_marked(now, then), all);
    }
    !all
}

fn has_team(teams: &[i32; 256], c: usize) -> bool
    requires { c < 128 }
    ensures { result ≡ has_team teams.now c }
{
    teams[2 * c] == 1
}

// Whether a client has a team now and none in the wanted board.
fn loses_team<'a>(teams: &'a [i32; 256], wanted: &'a [i32; 256]) -> bool
    ensures { result ≡ loses_team teams.now wanted.now }
{
    let mut all = true;
    for c in 0..128 {
        all = good::both(if_marked(has_team(teams, c), has_team(wanted, c)), all);
    }
    !all
}

// Whether any client has a team.
fn any_team(teams: &[i32; 256]) -> bool
    ensures { result ≡ any_team teams.now }
{
    let mut none = true;
    for c in 0..128 {
        none = good::both(!has_team(teams, c), none);
    }
    !none
}

// Whether a team is wanted in version 1.
fn team_without(version: Version, wanted: &[i32; 256]) -> bool
    ensures { result ≡ team_without version wanted.now }
{
    match version {
        Version::V1 => any_team(wanted),
        Version::V2 => false,
    }
}

fn at_or_below(c: i32, p: Option<i32>) -> bool
    ensures { result ≡ at_or_below c p }
{
    match p {
        Some(q) => !(q < c),
        None => false,
    }
}

// Whether a player entry differs at or below the remembered client.
fn differs_behind<'a>(
    remembered: Option<i32>,
    marks: &'a [u8; 128],
    xs: &'a [i32; 128],
    ys: &'a [i32; 128],
    wmarks: &'a [u8; 128],
    wxs: &'a [i32; 128],
    wys: &'a [i32; 128],
) -> bool
    ensures { (held : List ℕ) (inputs : List ℤ) (wheld : List ℕ) (winputs : List ℤ)
        → result ≡ differs_behind remembered (entries_with marks.now xs.now ys.now held inputs)
        (entries_with wmarks.now wxs.now wys.now wheld winputs) }
{
    let mut all = true;
    for c in 0..128 {
        let same = choosing::same_player(
            player_at(marks, xs, ys, c),
            player_at(wmarks, wxs, wys, c),
        );
        all = good::both(if_marked(at_or_below(c as i32, remembered), same), all);
    }
    !all
}

// The reasons for which no records bring the reader to tick u with the wanted entries and teams.
fn cant_reach<'a>(
    s: Scalars,
    marks: &'a [u8; 128],
    xs: &'a [i32; 128],
    ys: &'a [i32; 128],
    held: &'a [u8; 128],
    teams: &'a [i32; 256],
    u: i32,
    wmarks: &'a [u8; 128],
    wxs: &'a [i32; 128],
    wys: &'a [i32; 128],
    wheld: &'a [u8; 128],
    wteams: &'a [i32; 256],
) -> bool
    ensures { (inputs winputs : List ℤ)
        → result ≡ cant_reach s (entries_with marks.now xs.now ys.now held.now inputs) teams.now u
        (entries_with wmarks.now wxs.now wys.now wheld.now winputs) wteams.now }
{
    let version = s.version;
    let tick = s.tick;
    if u < tick {
        return true;
    }
    if loses_input(held, wheld) {
        return true;
    }
    if loses_team(teams, wteams) {
        return true;
    }
    if team_without(version, wteams) {
        return true;
    }
    if !good::both(s.inside, compare::same_number(u, tick)) {
        return false;
    }
    let remembered = s.remembered;
    differs_behind(remembered, marks, xs, ys, wmarks, wxs, wys)
}

fn is_pending(pending: Option<Kind>) -> bool
    ensures { result ≡ is_pending pending }
{
    matches!(pending, Some(_))
}

// Whether the reader is not refused 17.
fn good_from<'a>(
    s: Scalars,
    marks: &'a [u8; 128],
    xs: &'a [i32; 128],
    ys: &'a [i32; 128],
    held: &'a [u8; 128],
    inputs: &'a [i32; 1280],
    teams: &'a [i32; 256],
) -> bool
    ensures { result ≡ good_team_reader
        (team_reader (reader_with s (entries_with marks.now xs.now ys.now held.now inputs.now)) teams.now) }
{
    good::both(
        good_reader::good_state(s, marks, xs, ys, held, inputs),
        teams::good_teams(teams),
    )
}

// Whether the wanted board is not refused 17.
fn good_to<'a>(
    tick: Option<i32>,
    marks: &'a [u8; 128],
    xs: &'a [i32; 128],
    ys: &'a [i32; 128],
    held: &'a [u8; 128],
    inputs: &'a [i32; 1280],
    teams: &'a [i32; 256],
) -> bool
    ensures { result ≡ good_team_board
        (team_board (board tick (entries_with marks.now xs.now ys.now held.now inputs.now)) teams.now) }
{
    good::both(
        good::both(
            stepping::good_tick(tick),
            good::good_lent(marks, xs, ys, held, inputs),
        ),
        teams::good_teams(teams),
    )
}

// 17 (reader, board), 18, 22, 23.
pub fn may_reach<'a>(
    s: Scalars,
    marks: &'a [u8; 128],
    xs: &'a [i32; 128],
    ys: &'a [i32; 128],
    held: &'a [u8; 128],
    inputs: &'a [i32; 1280],
    teams: &'a [i32; 256],
    tick: Option<i32>,
    wmarks: &'a [u8; 128],
    wxs: &'a [i32; 128],
    wys: &'a [i32; 128],
    wheld: &'a [u8; 128],
    winputs: &'a [i32; 1280],
    wteams: &'a [i32; 256],
) -> Result<i32, Refusal>
    ensures { AllowedIs tick result (may_reach
        (team_reader (reader_with s (entries_with marks.now xs.now ys.now held.now inputs.now)) teams.now)
        (team_board (board tick (entries_with wmarks.now wxs.now wys.now wheld.now winputs.now)) wteams.now)) }
{
    let standing = s.standing;
    let closed = standing.is_closed();
    let pending = s.pending;
    let mid = is_pending(pending);
    let good = good::both(
        good_from(s, marks, xs, ys, held, inputs, teams),
        good_to(tick, wmarks, wxs, wys, wheld, winputs, wteams),
    );
    if !good {
        return Err(Refusal::BadState);
    }
    if closed {
        return Err(Refusal::Closed);
    }
    if mid {
        return Err(Refusal::MidRecord);
    }
    let Some(u) = tick else {
        return Err(Refusal::Unreachable);
    };
    if cant_reach(
        s, marks, xs, ys, held, teams, u, wmarks, wxs, wys, wheld, wteams,
    ) {
        return Err(Refusal::Unreachable);
    }
    Ok(u)
}
