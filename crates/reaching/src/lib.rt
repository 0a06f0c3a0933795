// From a reader and a wanted board to the bytes of records that bring the reader there.
#![tactic(auto)]

ghost use Rattle.std.specs.Prelude.{◌≡◌, true, List, ℕ, ◌+◌, ◌*◌, ◌<◌, ◌≤◌, length, ℤ, pos};
ghost use Rattle.kinds.specs.declared.Version.{Version};
ghost use Rattle.record_writer.specs.steps.Puts.{PutsBytes};
ghost use Rattle.state.specs.State.{entries_with, reader_with};
ghost use Rattle.teams.specs.Teams.{team_of, team_reader};
ghost use Rattle.back.specs.Board.{board};
ghost use Rattle.back.specs.TeamBoard.{team_board};
ghost use Rattle.choice.specs.Chosen.{held_of, player_for, input_for, team_for, joined, changes, all_changes, chosen, bytes_of};
ghost use Rattle.choice.specs.Reaching.{ReachIs};
ghost use Rattle.choosing.specs.Choice.{choice_is, ChoosesIn, Chooses, team_in};
ghost use Rattle.reaching.specs.steps.Puts.{Ready, TeamsIn};

use back::TeamBoard;
use choice::Held;
use item::Record;
use kinds::Version;
use packer::Part;
use refusal::Refusal;
use state::Scalars;
use teams::TeamReader;

fn held_at<'a>(held: &'a [u8; 128], inputs: &'a [i32; 1280], c: usize) -> Held
    requires { c < 128 }
    ensures { (marks : List ℕ) (xs ys : List ℤ) → result ≡ held_of (entries_with marks xs ys held.now inputs.now) c }
{
    Held {
        mark: held[c],
        ten: inputs::ten_at(inputs, c),
    }
}

// ---- the chosen records, one behind the other

// A record that can be written, if there is one, into memory that has room: the place past it.
fn put(version: Version, choice: Option<Record>, out: &mut [u8], at: usize) -> usize
    requires { Ready version choice out.old at }
    ensures { PutsBytes out.old at (bytes_of (choice_is choice)) result out.new }
{
    let Some(value) = choice else {
        return at;
    };
    let Ok(next) = record_writer::write_record(version, value, b"", out, at) else {
        return at;
    };
    next
}

// The player record of a client, from its entry to the wanted one.
fn player_choice<'a>(
    marks: &'a [u8; 128],
    xs: &'a [i32; 128],
    ys: &'a [i32; 128],
    wmarks: &'a [u8; 128],
    wxs: &'a [i32; 128],
    wys: &'a [i32; 128],
    c: usize,
) -> Option<Record>
    requires { c < 128 }
    ensures { (held : List ℕ) (inputs : List ℤ) (wheld : List ℕ) (winputs : List ℤ)
        → Chooses (player_for (entries_with marks.now xs.now ys.now held inputs)
        (entries_with wmarks.now wxs.now wys.now wheld winputs) c) result }
{
    choosing::player_step(
        c as u8,
        reachable::player_at(marks, xs, ys, c),
        reachable::player_at(wmarks, wxs, wys, c),
    )
}

// The InputNew of a client, from its entry to the wanted one.
fn input_choice<'a>(
    held: &'a [u8; 128],
    inputs: &'a [i32; 1280],
    wheld: &'a [u8; 128],
    winputs: &'a [i32; 1280],
    c: usize,
) -> Option<Record>
    requires { c < 128 }
    ensures { (marks : List ℕ) (xs ys : List ℤ) (wmarks : List ℕ) (wxs wys : List ℤ)
        → Chooses (input_for (entries_with marks xs ys held.now inputs.now)
        (entries_with wmarks wxs wys wheld.now winputs.now) c) result }
{
    choosing::input_step(
        c as u8,
        held_at(held, inputs, c),
        held_at(wheld, winputs, c),
    )
}

// The PlayerTeam of a client, from its team to the wanted one.
fn team_choice<'a>(teams: &'a [i32; 256], wteams: &'a [i32; 256], c: usize) -> Option<Record>
    requires { c < 128 }
    ensures { (v : Version) → team_in v (team_of wteams.now (pos c)) ≡ true
        → ChoosesIn v (team_for teams.now wteams.now c) result }
{
    choosing::team_step(
        c as u8,
        teams::team_of(teams, c as i32),
        teams::team_of(wteams, c as i32),
    )
}

// The player records, the lowest client first.
// This loop and the two below stay three: one over a closure would take what a client's choice is, how long it is and that it can be written as
// ghost values and demands, which is longer than the loop.
fn put_players<'a>(
    version: Version,
    marks: &'a [u8; 128],
    xs: &'a [i32; 128],
    ys: &'a [i32; 128],
    wmarks: &'a [u8; 128],
    wxs: &'a [i32; 128],
    wys: &'a [i32; 128],
    out: &mut [u8],
    at: usize,
) -> usize
    requires { at + 128 * 15 ≤ length out.old }
    ensures { (held : List ℕ) (inputs : List ℤ) (wheld : List ℕ) (winputs : List ℤ)
        → PutsBytes out.old at
        (bytes_of (joined 128 (player_for (entries_with marks.now xs.now ys.now held inputs)
        (entries_with wmarks.now wxs.now wys.now wheld winputs))))
        result out.new }
{
    let mut next = at;
    for c in 0..128 {
        let choice = player_choice(marks, xs, ys, wmarks, wxs, wys, c);
        next = put(version, choice, out, next);
    }
    next
}

// The inputs, the lowest client first.
fn put_inputs<'a>(
    version: Version,
    held: &'a [u8; 128],
    inputs: &'a [i32; 1280],
    wheld: &'a [u8; 128],
    winputs: &'a [i32; 1280],
    out: &mut [u8],
    at: usize,
) -> usize
    requires { at + 128 * 60 ≤ length out.old }
    ensures { (marks : List ℕ) (xs ys : List ℤ) (wmarks : List ℕ) (wxs wys : List ℤ)
        → PutsBytes out.old at
        (bytes_of (joined 128 (input_for (entries_with marks xs ys held.now inputs.now)
        (entries_with wmarks wxs wys wheld.now winputs.now))))
        result out.new }
{
    let mut next = at;
    for c in 0..128 {
        let choice = input_choice(held, inputs, wheld, winputs, c);
        next = put(version, choice, out, next);
    }
    next
}

// The teams, the lowest client first.
fn put_teams<'a>(
    version: Version,
    teams: &'a [i32; 256],
    wteams: &'a [i32; 256],
    out: &mut [u8],
    at: usize,
) -> usize
    requires { (at + 128 * 25 ≤ length out.old) × TeamsIn version wteams.now }
    ensures { PutsBytes out.old at (bytes_of (joined 128 (team_for teams.now wteams.now))) result out.new }
{
    let mut next = at;
    for c in 0..128 {
        let choice = team_choice(teams, wteams, c);
        next = put(version, choice, out, next);
    }
    next
}

// The records that change entries: players, then inputs.
fn put_entries<'a>(
    version: Version,
    marks: &'a [u8; 128],
    xs: &'a [i32; 128],
    ys: &'a [i32; 128],
    held: &'a [u8; 128],
    inputs: &'a [i32; 1280],
    wmarks: &'a [u8; 128],
    wxs: &'a [i32; 128],
    wys: &'a [i32; 128],
    wheld: &'a [u8; 128],
    winputs: &'a [i32; 1280],
    out: &mut [u8],
    at: usize,
) -> usize
    requires { at + 128 * 15 + 128 * 60 ≤ length out.old }
    ensures { PutsBytes out.old at
        (bytes_of (changes (entries_with marks.now xs.now ys.now held.now inputs.now)
        (entries_with wmarks.now wxs.now wys.now wheld.now winputs.now)))
        result out.new }
{
    let next = put_players(version, marks, xs, ys, wmarks, wxs, wys, out, at);
    put_inputs(version, held, inputs, wheld, winputs, out, next)
}

// All the records that change something: entries, then teams.
fn put_changes<'a>(
    version: Version,
    marks: &'a [u8; 128],
    xs: &'a [i32; 128],
    ys: &'a [i32; 128],
    held: &'a [u8; 128],
    inputs: &'a [i32; 1280],
    teams: &'a [i32; 256],
    wmarks: &'a [u8; 128],
    wxs: &'a [i32; 128],
    wys: &'a [i32; 128],
    wheld: &'a [u8; 128],
    winputs: &'a [i32; 1280],
    wteams: &'a [i32; 256],
    out: &mut [u8],
    at: usize,
) -> usize
    requires { (at + 128 * 15 + 128 * 60 + 128 * 25 ≤ length out.old) × TeamsIn version wteams.now }
    ensures { PutsBytes out.old at
        (bytes_of (all_changes (entries_with marks.now xs.now ys.now held.now inputs.now) teams.now
        (entries_with wmarks.now wxs.now wys.now wheld.now winputs.now) wteams.now))
        result out.new }
{
    let next = put_entries(
        version, marks, xs, ys, held, inputs, wmarks, wxs, wys, wheld, winputs, out, at,
    );
    put_teams(version, teams, wteams, out, next)
}

// All the chosen records, from the front of the memory on: how many bytes they are.
fn put_all<'a>(
    s: Scalars,
    marks: &'a [u8; 128],
    xs: &'a [i32; 128],
    ys: &'a [i32; 128],
    held: &'a [u8; 128],
    inputs: &'a [i32; 1280],
    teams: &'a [i32; 256],
    u: i32,
    wmarks: &'a [u8; 128],
    wxs: &'a [i32; 128],
    wys: &'a [i32; 128],
    wheld: &'a [u8; 128],
    winputs: &'a [i32; 1280],
    wteams: &'a [i32; 256],
    out: &mut [u8],
) -> usize
    requires { (16384 ≤ length out.old) × TeamsIn s.version wteams.now }
    ensures { PutsBytes out.old 0
        (bytes_of (chosen s (entries_with marks.now xs.now ys.now held.now inputs.now) teams.now u
        (entries_with wmarks.now wxs.now wys.now wheld.now winputs.now) wteams.now))
        result out.new }
{
    let version = s.version;
    let tick = s.tick;
    let start = put(version, choosing::skip_to(tick, u), out, 0);
    let changed = put_changes(
        version, marks, xs, ys, held, inputs, teams, wmarks, wxs, wys, wheld, winputs, wteams, out,
        start,
    );
    let started = choosing::started_by(s.inside, tick, u);
    let last = choosing::start_if(started, start < changed);
    put(version, last, out, changed)
}

// ---- the call

// Memory for the longest choice.
fn memory() -> [u8; 16384]
    ensures { 16384 ≡ length result }
{
    [0; 16384]
}

// Writes the records that bring a reader, whose entries are lent, to exactly the wanted board, at the front of the target: how many bytes they
// are. Refused 17 (reader, board), 18 (a closed reader), 22 (a kind is pending), 23 (unreachable), 9, in this order.
pub fn reach_lent<'a>(
    s: Scalars,
    marks: &'a [u8; 128],
    xs: &'a [i32; 128],
    ys: &'a [i32; 128],
    held: &'a [u8; 128],
    inputs: &'a [i32; 1280],
    teams: &'a [i32; 256],
    tick: Option<i32>,
    wmarks: &'a [u8; 128],
    wxs: &'a [i32; 128],
    wys: &'a [i32; 128],
    wheld: &'a [u8; 128],
    winputs: &'a [i32; 1280],
    wteams: &'a [i32; 256],
    out: &mut [u8],
) -> Result<usize, Refusal>
    ensures { ReachIs
        (team_reader (reader_with s (entries_with marks.now xs.now ys.now held.now inputs.now)) teams.now)
        (team_board (board tick (entries_with wmarks.now wxs.now wys.now wheld.now winputs.now)) wteams.now)
        out.old result out.new }
{
    let allowed = reachable::may_reach(
        s, marks, xs, ys, held, inputs, teams, tick, wmarks, wxs, wys, wheld, winputs, wteams,
    );
    match allowed {
        Err(why) => Err(why),
        Ok(u) => {
            let mut bytes = memory();
            let n = put_all(
                s, marks, xs, ys, held, inputs, teams, u, wmarks, wxs, wys, wheld, winputs, wteams,
                &mut bytes,
            );
            text_writer::write_raw(packer::show(&bytes, Part { at: 0, len: n }), out, 0)
        }
    }
}

// The same for a reader and a board by value.
pub fn reach(reader: TeamReader, board: TeamBoard, out: &mut [u8]) -> Result<usize, Refusal>
    ensures { ReachIs reader board out.old result out.new }
{
    let plain = reader.reader;
    let teams = reader.teams;
    let s = plain.scalars;
    let e = plain.entries;
    let wanted = board.board;
    let wteams = board.teams;
    let tick = wanted.tick;
    let w = wanted.entries;
    reach_lent(
        s, &e.marks, &e.xs, &e.ys, &e.held, &e.inputs, &teams, tick, &w.marks, &w.xs, &w.ys,
        &w.held, &w.inputs, &wteams, out,
    )
}
