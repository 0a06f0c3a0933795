// Which records bring a reader to a wanted board: one place of the choice after the other.
#![tactic(auto)]

ghost use Rattle.std.specs.Prelude.{◌≡◌, true, [], pos, Some};
ghost use Rattle.fields.specs.Views.{zeros};
ghost use Rattle.kinds.specs.declared.Version.{Version};
ghost use Rattle.item.specs.Contents.{record_with, no_args};
ghost use Rattle.choice.specs.Chosen.{same_player, same_held, same_team, player_step, input_step, team_step, skip_to, started_by, start_if};
ghost use Rattle.choosing.specs.Choice.{ChoosesIn, Chooses, team_in};

use choice::{Held, Player};
use fields::Args;
use item::{Item, Record};
use kinds::Version;
use packer::Part;

const NO_PART: Part = Part { at: 0, len: 0 };

fn no_args() -> Args
    ensures { result ≡ no_args }
{
    Args {
        count: 0,
        parts: [NO_PART; 16],
    }
}

// A record with ten numbers beside it.
fn with_ten(item: Item, ten: [i32; 10]) -> Option<Record>
    ensures { result ≡ Some (record_with item ten no_args) }
{
    Some(Record {
        item,
        input: ten,
        args: no_args(),
    })
}

// A record with nothing beside it.
fn plain(item: Item) -> Option<Record>
    ensures { result ≡ Some (record_with item (zeros 10) no_args) }
{
    with_ten(item, [0; 10])
}

pub fn same_player(p: Player, q: Player) -> bool
    ensures { result ≡ same_player p q }
{
    good::both(
        p.mark == q.mark,
        good::both(
            compare::same_number(p.x, q.x),
            compare::same_number(p.y, q.y),
        ),
    )
}

fn same_held(p: Held, q: Held) -> bool
    ensures { result ≡ same_held p q }
{
    let a = p.ten;
    let b = q.ten;
    good::both(p.mark == q.mark, compare::same_ten(a, b))
}

fn same_team(m: Option<i32>, n: Option<i32>) -> bool
    ensures { result ≡ same_team m n }
{
    match m {
        Some(a) => match n {
            Some(b) => compare::same_number(a, b),
            None => false,
        },
        None => match n {
            Some(_) => false,
            None => true,
        },
    }
}

fn number(c: u8) -> i32
    ensures { result ≡ pos c }
{
    c as i32
}

// The player record of client c, from its entry p to the wanted one, q.
pub fn player_step(c: u8, p: Player, q: Player) -> Option<Record>
    ensures { Chooses (player_step c p q) result }
{
    if same_player(p, q) {
        return None;
    }
    let cid = number(c);
    if p.mark == 1 {
        if q.mark == 1 {
            return plain(Item::PlayerDiff {
                cid,
                dx: num::wrapping_sub(q.x, p.x),
                dy: num::wrapping_sub(q.y, p.y),
            });
        }
        return plain(Item::PlayerOld { cid });
    }
    if q.mark == 1 {
        return plain(Item::PlayerNew {
            cid,
            x: q.x,
            y: q.y,
        });
    }
    None
}

// The InputNew of client c, from its entry p to the wanted one, q.
pub fn input_step(c: u8, p: Held, q: Held) -> Option<Record>
    ensures { Chooses (input_step c p q) result }
{
    if q.mark != 1 {
        return None;
    }
    if same_held(p, q) {
        return None;
    }
    let ten = q.ten;
    with_ten(Item::InputNew { cid: number(c) }, ten)
}

// The PlayerTeam of client c, from its team m to the wanted one, n; with no team wanted there is none, so it is for version 2 or nothing.
pub fn team_step(c: u8, m: Option<i32>, n: Option<i32>) -> Option<Record>
    ensures { (v : Version) → team_in v n ≡ true → ChoosesIn v (team_step c m n) result }
{
    if same_team(m, n) {
        return None;
    }
    let Some(team) = n else {
        return None;
    };
    plain(Item::PlayerTeam {
        cid: number(c),
        team,
    })
}

// The TickSkip from tick t to tick u, if that is a later one.
pub fn skip_to(t: i32, u: i32) -> Option<Record>
    ensures { Chooses (skip_to t u) result }
{
    if t < 0 {
        return None;
    }
    if u <= t {
        return None;
    }
    let from = t as u32;
    let to = u as u32;
    plain(Item::TickSkip { dt: to - from - 1 })
}

// Whether a tick is under way behind that skip.
pub fn started_by(inside: bool, t: i32, u: i32) -> bool
    ensures { result ≡ started_by inside t u }
{
    if compare::same_number(t, u) {
        return inside;
    }
    !inside
}

// A command that changes nothing, for a tick that has to start and has nothing else to start it.
pub fn start_if(started: bool, changed: bool) -> Option<Record>
    ensures { Chooses (start_if started changed) result }
{
    if started | changed {
        return None;
    }
    plain(Item::ConsoleCommand {
        cid: -1,
        flag_mask: 0,
        cmd: NO_PART,
    })
}
