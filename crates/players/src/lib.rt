// The player records on memory that is lent.
#![tactic(auto)]

ghost use Rattle.std.specs.Prelude.{◌≡◌};
ghost use Rattle.state.specs.Reading.{player_diff, new_player, old_player};
ghost use Rattle.state.specs.steps.Inside.{done};

use refusal::Refusal;
use state::{Event, Memory, Outcome, Scalars};

pub fn player_diff(s: Scalars, m: &mut Memory, cid: i32, dx: i32, dy: i32, used: usize) -> Outcome
    ensures { done result m.new ≡ player_diff s m.old cid dx dy used }
{
    let bits = num::bits(cid);
    if 128 <= bits {
        return ticks::refuse(s, Refusal::PlayerDiffWithoutNew);
    }
    let i = bits as usize;
    if m.entries.marks[i] != 1 {
        return ticks::refuse(s, Refusal::PlayerDiffWithoutNew);
    }
    let old_x = m.entries.xs[i];
    let old_y = m.entries.ys[i];
    let x = num::wrapping_add(old_x, dx);
    let y = num::wrapping_add(old_y, dy);
    m.entries.xs[i] = x;
    m.entries.ys[i] = y;
    let event = Event::PlayerChange {
        cid,
        x,
        y,
        old_x,
        old_y,
    };
    ticks::gave(event, used, s)
}

pub fn player_new(s: Scalars, m: &mut Memory, cid: i32, x: i32, y: i32, used: usize) -> Outcome
    ensures { done result m.new ≡ new_player s m.old cid x y used }
{
    let bits = num::bits(cid);
    if 128 <= bits {
        return ticks::refuse(s, ticks::no_entry(bits, Refusal::ClientTooLarge));
    }
    let i = bits as usize;
    let mark = m.entries.marks[i];
    m.entries.marks[i] = 1;
    m.entries.xs[i] = x;
    m.entries.ys[i] = y;
    if mark == 1 {
        return ticks::refuse(s, Refusal::PlayerNewDuplicate);
    }
    ticks::gave(Event::PlayerNew { cid, x, y }, used, s)
}

pub fn player_old(s: Scalars, m: &mut Memory, cid: i32, used: usize) -> Outcome
    ensures { done result m.new ≡ old_player s m.old cid used }
{
    let bits = num::bits(cid);
    if 128 <= bits {
        return ticks::refuse(s, ticks::no_entry(bits, Refusal::PlayerOldWithoutNew));
    }
    let i = bits as usize;
    if m.entries.marks[i] != 1 {
        return ticks::refuse(s, Refusal::PlayerOldWithoutNew);
    }
    let x = m.entries.xs[i];
    let y = m.entries.ys[i];
    m.entries.marks[i] = 0;
    m.entries.xs[i] = 0;
    m.entries.ys[i] = 0;
    ticks::gave(Event::PlayerOld { cid, x, y }, used, s)
}
