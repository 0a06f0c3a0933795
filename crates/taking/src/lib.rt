// Events taken off a board whose entries are lent: the core that every form of stepping back goes through.
#![tactic(auto)]

ghost use Rattle.std.specs.Prelude.{ℕ, ◌≡◌, cond, List, ℤ, Some, None};
ghost use Rattle.std.specs.Int.Signed.{non_neg};
ghost use Rattle.fields.specs.Views.{zeros};
ghost use Rattle.state.specs.State.{same_int, entries_with};
ghost use Rattle.state.specs.declared.Entries.{Entries};
ghost use Rattle.back.specs.Board.{board};
ghost use Rattle.back.specs.Back.{only_if, un_present, un_old, un_input, take_off};
ghost use Rattle.back.specs.TeamBoard.{team_board, fits_teams, teams_before, take_off_team};
ghost use Rattle.back.specs.Undo.{undone, former_in};
ghost use Rattle.teams.specs.Teams.{joins, joining_of};
ghost use Rattle.taking.specs.Taking.{taken_from, taken_is, team_taken_from, team_taken_is};

use back::Undo;

// Whether the event fitted, and the tick of the board that is left.
#[derive(Clone, Copy)]
pub struct Off {
    pub fits: bool,
    pub tick: Option<i32>,
}

fn left(fits: bool, tick: Option<i32>) -> Off
    ensures { result ≡ record { fits = fits; tick = tick } }
{
    Off { fits, tick }
}

// PlayerNew and PlayerChange: the client is at x, y, and its entry was another.
fn un_present(
    t: i32,
    marks: &mut [u8; 128],
    xs: &mut [i32; 128],
    ys: &mut [i32; 128],
    cid: i32,
    x: i32,
    y: i32,
    mark: u8,
    old_x: i32,
    old_y: i32,
) -> Off
    ensures { (held : List ℕ) (inputs : List ℤ) → taken_is result (entries_with marks.new xs.new ys.new held inputs)
        ≡ taken_from (board (Some t) (entries_with marks.old xs.old ys.old held inputs))
        (un_present t (entries_with marks.old xs.old ys.old held inputs) cid x y mark old_x old_y) }
{
    let bits = num::bits(cid);
    if 128 <= bits {
        return left(false, Some(t));
    }
    let c = bits as usize;
    if !compare::at_position(marks[c], xs[c], ys[c], x, y) {
        return left(false, Some(t));
    }
    marks[c] = mark;
    xs[c] = old_x;
    ys[c] = old_y;
    left(true, Some(t))
}

fn un_old(
    t: i32,
    marks: &mut [u8; 128],
    xs: &mut [i32; 128],
    ys: &mut [i32; 128],
    cid: i32,
    x: i32,
    y: i32,
) -> Off
    ensures { (held : List ℕ) (inputs : List ℤ) → taken_is result (entries_with marks.new xs.new ys.new held inputs)
        ≡ taken_from (board (Some t) (entries_with marks.old xs.old ys.old held inputs))
        (un_old t (entries_with marks.old xs.old ys.old held inputs) cid x y) }
{
    let bits = num::bits(cid);
    if 128 <= bits {
        return left(false, Some(t));
    }
    let c = bits as usize;
    if marks[c] == 1 {
        return left(false, Some(t));
    }
    marks[c] = 1;
    xs[c] = x;
    ys[c] = y;
    left(true, Some(t))
}

// The numbers of the input entry before: those of the former input, or of none.
fn ten_before(had: bool, former: [i32; 10]) -> [i32; 10]
    ensures { result ≡ cond had former (zeros 10) }
{
    if had { former } else { [0; 10] }
}

fn un_input(
    t: i32,
    held: &mut [u8; 128],
    inputs: &mut [i32; 1280],
    cid: i32,
    had: bool,
    input: [i32; 10],
    former: [i32; 10],
) -> Off
    ensures { (marks : List ℕ) (xs ys : List ℤ) → taken_is result (entries_with marks xs ys held.new inputs.new)
        ≡ taken_from (board (Some t) (entries_with marks xs ys held.old inputs.old))
        (un_input t (entries_with marks xs ys held.old inputs.old) cid had input former) }
{
    let bits = num::bits(cid);
    if 128 <= bits {
        return left(false, Some(t));
    }
    let c = bits as usize;
    if held[c] != 1 {
        return left(false, Some(t));
    }
    let ten = inputs::ten_at(&*inputs, c);
    if !compare::same_ten(ten, input) {
        return left(false, Some(t));
    }
    held[c] = u8::from(had);
    inputs::put_ten_at(&mut *inputs, c, ten_before(had, former));
    left(true, Some(t))
}

fn un_start(t: i32, u: i32) -> Off
    ensures { (e : Entries) → taken_is result e ≡ taken_from (board (Some t) e) (only_if (same_int t u) (board None e)) }
{
    if compare::same_number(t, u) {
        return left(true, None);
    }
    left(false, Some(t))
}

// An event taken off a board inside tick t.
fn inside(
    t: i32,
    marks: &mut [u8; 128],
    xs: &mut [i32; 128],
    ys: &mut [i32; 128],
    held: &mut [u8; 128],
    inputs: &mut [i32; 1280],
    undo: Undo,
    input: [i32; 10],
    former: [i32; 10],
) -> Off
    ensures { taken_is result (entries_with marks.new xs.new ys.new held.new inputs.new)
        ≡ taken_from (board (Some t) (entries_with marks.old xs.old ys.old held.old inputs.old))
        (take_off (undone undo) input former (Some t) (entries_with marks.old xs.old ys.old held.old inputs.old)) }
{
    match undo {
        Undo::Start(u) => un_start(t, u),
        Undo::End(_) => left(false, Some(t)),
        Undo::New { cid, x, y } => un_present(t, marks, xs, ys, cid, x, y, 0, 0, 0),
        Undo::Change {
            cid,
            x,
            y,
            old_x,
            old_y,
        } => un_present(t, marks, xs, ys, cid, x, y, 1, old_x, old_y),
        Undo::Old { cid, x, y } => un_old(t, marks, xs, ys, cid, x, y),
        Undo::Input { cid, former: had } => un_input(t, held, inputs, cid, had, input, former),
        Undo::Team { .. } | Undo::Nothing => left(true, Some(t)),
    }
}

fn un_end(u: i32) -> Off
    ensures { (e : Entries) → taken_is result e ≡ taken_from (board None e) (only_if (non_neg u) (board (Some u) e)) }
{
    if !compare::not_negative(u) {
        return left(false, None);
    }
    left(true, Some(u))
}

// An event taken off a board outside any tick: only TickEnd fits.
fn outside(undo: Undo) -> Off
    ensures { (input former : List ℤ) (e : Entries) → taken_is result e ≡ taken_from (board None e) (take_off (undone undo) input former None e) }
{
    match undo {
        Undo::End(u) => un_end(u),
        _ => left(false, None),
    }
}

// An event that is known by its undo, taken off a board: where it doesn't fit (19), nothing changes. Whether the board is a good one (17)
// is not tested. Of an event other than an input the ten numbers and the former ten are not looked at.
pub fn take_off(
    tick: Option<i32>,
    marks: &mut [u8; 128],
    xs: &mut [i32; 128],
    ys: &mut [i32; 128],
    held: &mut [u8; 128],
    inputs: &mut [i32; 1280],
    undo: Undo,
    input: [i32; 10],
    former: [i32; 10],
) -> Off
    ensures { taken_is result (entries_with marks.new xs.new ys.new held.new inputs.new)
        ≡ taken_from (board tick (entries_with marks.old xs.old ys.old held.old inputs.old))
        (take_off (undone undo) input former tick (entries_with marks.old xs.old ys.old held.old inputs.old)) }
{
    match tick {
        Some(t) => inside(t, marks, xs, ys, held, inputs, undo, input, former),
        None => outside(undo),
    }
}

// ---- teams

// Whether a PlayerTeam of a client fits the teams: one of a client 0 to 127 fits an equal team, one of another client any.
fn is_in(teams: &[i32; 256], cid: i32, team: i32) -> bool
    ensures { result ≡ fits_teams (joins cid team) teams.now }
{
    let bits = num::bits(cid);
    if 128 <= bits {
        return true;
    }
    let Some(n) = teams::team_of(teams, cid) else {
        return false;
    };
    compare::same_number(n, team)
}

// Whether an event fits the teams.
fn fits_teams(teams: &[i32; 256], undo: Undo) -> bool
    ensures { result ≡ fits_teams (joining_of (undone undo)) teams.now }
{
    match undo {
        Undo::Team { cid, team, .. } => is_in(teams, cid, team),
        _ => true,
    }
}

// The former team returns.
fn put_former(teams: &mut [i32; 256], undo: Undo)
    ensures { teams.new ≡ teams_before (joining_of (undone undo)) (former_in undo) teams.old }
{
    if let Undo::Team { cid, former, .. } = undo {
        teams::put_team(teams, cid, former);
    }
}

// The same of a board with teams.
pub fn take_off_team(
    tick: Option<i32>,
    marks: &mut [u8; 128],
    xs: &mut [i32; 128],
    ys: &mut [i32; 128],
    held: &mut [u8; 128],
    inputs: &mut [i32; 1280],
    teams: &mut [i32; 256],
    undo: Undo,
    input: [i32; 10],
    former: [i32; 10],
) -> Off
    ensures { team_taken_is result (entries_with marks.new xs.new ys.new held.new inputs.new) teams.new
        ≡ team_taken_from (team_board (board tick (entries_with marks.old xs.old ys.old held.old inputs.old)) teams.old)
        (take_off_team (undone undo) input former (former_in undo)
        (team_board (board tick (entries_with marks.old xs.old ys.old held.old inputs.old)) teams.old)) }
{
    if !fits_teams(&*teams, undo) {
        return left(false, tick);
    }
    let off = take_off(tick, marks, xs, ys, held, inputs, undo, input, former);
    if off.fits {
        put_former(&mut *teams, undo);
    }
    off
}
