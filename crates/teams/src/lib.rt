// Teams: of each client 0 to 127 its team number or none, set by PlayerTeam; and the reader that has them.
#![tactic(auto)]

ghost use Rattle.std.specs.Prelude.{◌≡◌};
ghost use Rattle.item.specs.Contents.{item_of};
ghost use Rattle.state.specs.Views.{event_is};
ghost use Rattle.teams.specs.Teams.{is_player_team, joining_in, joining_of, good_team, good_teams, team_of, put_team, mark_for, number_for, teams_after, former_team, empty_team_reader};
ghost use Rattle.teams.specs.steps.Joinings.{joining_is};

use extensions::Extension;
use item::{Item, Tag};
use kinds::Version;
use state::{Event, Reader};

// A reader and its teams: two numbers for each client 0 to 127, its mark, 0 or 1, and its team; without a team both are 0.
#[derive(Clone, Copy)]
pub struct TeamReader {
    pub reader: Reader,
    pub teams: [i32; 256],
}

impl TeamReader {
    // The empty reader, with no teams.
    pub fn empty(version: Version) -> TeamReader
        ensures { result ≡ empty_team_reader version }
    {
        TeamReader {
            reader: Reader::empty(version),
            teams: [0; 256],
        }
    }
}

// What a PlayerTeam record says: the client and its team.
#[derive(Clone, Copy)]
pub struct PlayerTeam {
    pub cid: i32,
    pub team: i32,
}

fn is_player_team(which: Extension) -> bool
    ensures { result ≡ is_player_team which }
{
    matches!(which, Extension::PlayerTeam)
}

// What a record says, if it is a PlayerTeam.
pub fn joining_in(item: Item) -> Option<PlayerTeam>
    ensures { joining_is result ≡ joining_in (item_of item) }
{
    let t = item.take_apart();
    let tag = t.tag;
    let cid = t.fields.first;
    let team = t.fields.second;
    match tag {
        Tag::Plain(_) => None,
        Tag::Named(which) => {
            if is_player_team(which) {
                return Some(PlayerTeam { cid, team });
            }
            None
        }
        Tag::Other => None,
    }
}

// What an event says, if it is a PlayerTeam record.
pub fn joining_of(event: Event) -> Option<PlayerTeam>
    ensures { joining_is result ≡ joining_of (event_is event) }
{
    match event {
        Event::TickStart(_) => None,
        Event::TickEnd(_) => None,
        Event::PlayerNew { .. } => None,
        Event::PlayerChange { .. } => None,
        Event::PlayerOld { .. } => None,
        Event::Input { .. } => None,
        Event::Record(item) => joining_in(item),
    }
}

fn good_team(mark: i32, number: i32) -> bool
    ensures { result ≡ good_team mark number }
{
    (mark == 1) | ((mark == 0) & (number == 0))
}

// Whether the teams are not refused 17.
pub fn good_teams(teams: &[i32; 256]) -> bool
    ensures { result ≡ good_teams teams.now }
{
    let mut good = true;
    for i in 0..128 {
        let mark = teams[2 * i];
        let number = teams[2 * i + 1];
        good = good_team(mark, number) & good;
    }
    good
}

// The team of a client, or none.
pub fn team_of(teams: &[i32; 256], cid: i32) -> Option<i32>
    ensures { result ≡ team_of teams.now cid }
{
    let bits = num::bits(cid);
    if 128 <= bits {
        return None;
    }
    let at = 2 * (bits as usize);
    if teams[at] != 1 {
        return None;
    }
    Some(teams[at + 1])
}

pub fn mark_for(team: Option<i32>) -> i32
    ensures { result ≡ mark_for team }
{
    match team {
        Some(_) => 1,
        None => 0,
    }
}

pub fn number_for(team: Option<i32>) -> i32
    ensures { result ≡ number_for team }
{
    match team {
        Some(n) => n,
        None => 0,
    }
}

// A client's team becomes this one, or none; a client outside 0 to 127 has no entry.
pub fn put_team(teams: &mut [i32; 256], cid: i32, team: Option<i32>)
    ensures { teams.new ≡ put_team teams.old cid team }
{
    let bits = num::bits(cid);
    if bits < 128 {
        let at = 2 * (bits as usize);
        teams[at] = mark_for(team);
        teams[at + 1] = number_for(team);
    }
}

// The teams after an event; the answer is the former team of the client of a PlayerTeam record.
pub fn apply(teams: &mut [i32; 256], event: Event) -> Option<i32>
    ensures { (result ≡ former_team (event_is event) teams.old) × (teams.new ≡ teams_after (event_is event) teams.old) }
{
    let Some(PlayerTeam { cid, team }) = joining_of(event) else {
        return None;
    };
    let former = team_of(&*teams, cid);
    put_team(&mut *teams, cid, Some(team));
    former
}
