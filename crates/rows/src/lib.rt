// Rows of numbers that tell of events, in lent memory.
#![tactic(auto)]

ghost use Rattle.std.specs.Prelude.{◌≡◌, [], ◌∷◌, ◌++◌, ◌+◌, ◌*◌, ◌/◌, ◌≤◌, min, length, pos};
ghost use Rattle.num.specs.Wrap.{wrap32};
ghost use Rattle.item.specs.Contents.{item_of};
ghost use Rattle.state.specs.Reading.{other};
ghost use Rattle.state.specs.Views.{event_is};
ghost use Rattle.calls.specs.Calls.{is_pending};
ghost use Rattle.rows.specs.Rows.{flag, plain_row, event_row, put};
ghost use Rattle.rows.specs.steps.Stores.{Filled, EventPut};

use item::Item;
use state::{Event, Scalars};
use teams::PlayerTeam;

// A number of bytes, modulo 2^32 and signed.
fn wrapped(n: usize) -> i32
    ensures { result ≡ wrap32 (pos n) }
{
    num::signed((n % 4294967296) as u32)
}

// Whether a kind is pending.
pub fn pending_flag(s: Scalars) -> i32
    ensures { result ≡ flag (is_pending s.pending) }
{
    let pending = s.pending;
    let Some(_) = pending else {
        return 0;
    };
    1
}

// How many events there is room for.
pub fn room_for(rows: usize, tens: usize) -> usize
    ensures { result ≡ min (rows / 8) (tens / 20) }
{
    (rows / 8).min(tens / 20)
}

// Row i.
fn put_row(
    rows: &mut [i32],
    i: usize,
    event: i32,
    used: i32,
    a: i32,
    b: i32,
    c: i32,
    d: i32,
    e: i32,
)
    requires { 8 * i + 8 ≤ length rows.old }
    ensures { rows.new ≡ put rows.old (8 * i) (event ∷ used ∷ a ∷ b ∷ c ∷ d ∷ e ∷ pos 0 ∷ []) }
{
    let at = 8 * i;
    rows[at] = event;
    rows[at + 1] = used;
    rows[at + 2] = a;
    rows[at + 3] = b;
    rows[at + 4] = c;
    rows[at + 5] = d;
    rows[at + 6] = e;
    rows[at + 7] = 0;
}

// The row of a record that changes no entry and no team.
fn put_plain(item: Item, used: i32, pending: i32, rows: &mut [i32], i: usize)
    requires { 8 * i + 8 ≤ length rows.old }
    ensures { rows.new ≡ put rows.old (8 * i) (plain_row (item_of item) used pending) }
{
    let kind = item.kind_number();
    match item.cid() {
        Some(c) => put_row(rows, i, 7, used, kind, 1, c, pending, 0),
        None => put_row(rows, i, 7, used, kind, 0, 0, pending, 0),
    }
}

// The row of a record; team is the former one beside a PlayerTeam.
fn put_record(item: Item, team: Option<i32>, used: i32, pending: i32, rows: &mut [i32], i: usize)
    requires { 8 * i + 8 ≤ length rows.old }
    ensures { rows.new ≡ put rows.old (8 * i) (event_row (other (item_of item)) team used pending) }
{
    match teams::joining_in(item) {
        Some(PlayerTeam { cid, team: number }) => put_row(
            rows,
            i,
            8,
            used,
            cid,
            number,
            teams::mark_for(team),
            teams::number_for(team),
            pending,
        ),
        None => put_plain(item, used, pending, rows, i),
    }
}

// A loop: copy_from_slice compiles to twice as many instructions.
fn put_ten(tens: &mut [i32], at: usize, ten: [i32; 10])
    requires { at + 10 ≤ length tens.old }
    ensures { tens.new ≡ put tens.old at ten }
{
    for k in 0..10 {
        let x = ten[k];
        tens[at + k] = x;
    }
}

// The ten numbers and the former ten of input i.
fn put_tens(tens: &mut [i32], i: usize, input: [i32; 10], former: [i32; 10])
    requires { 20 * i + 20 ≤ length tens.old }
    ensures { tens.new ≡ put tens.old (20 * i) (input ++ former) }
{
    let at = 20 * i;
    put_ten(tens, at, input);
    put_ten(tens, at + 10, former);
}

// Event i in its places, and the teams after it; n is the number of bytes that its call used.
fn fill(
    event: Event,
    n: i32,
    pending: i32,
    i: usize,
    teams: &mut [i32; 256],
    rows: &mut [i32],
    tens: &mut [i32],
    input: &[i32; 10],
    former: &[i32; 10],
)
    requires { (8 * i + 8 ≤ length rows.old) × (20 * i + 20 ≤ length tens.old) }
    ensures { Filled (event_is event) n pending i input.now former.now teams.old rows.old tens.old teams.new rows.new tens.new }
{
    match event {
        Event::TickStart(t) => put_row(rows, i, 1, n, t, 0, 0, 0, 0),
        Event::TickEnd(t) => put_row(rows, i, 2, n, t, 0, 0, 0, 0),
        Event::PlayerNew { cid, x, y } => put_row(rows, i, 3, n, cid, x, y, 0, 0),
        Event::PlayerChange {
            cid,
            x,
            y,
            old_x,
            old_y,
        } => put_row(rows, i, 4, n, cid, x, y, old_x, old_y),
        Event::PlayerOld { cid, x, y } => put_row(rows, i, 5, n, cid, x, y, 0, 0),
        Event::Input { cid, former: had } => {
            put_row(rows, i, 6, n, cid, i32::from(had), 0, 0, 0);
            put_tens(tens, i, *input, *former);
        }
        Event::Record(item) => {
            let team = teams::apply(teams, event);
            put_record(item, team, n, pending, rows, i);
        }
    }
}

// Event i in its places, and the teams after it, if there is room for it; its call used so many bytes; pending is a number of its row. Only a
// record is handed to the teams: other events would be copied for nothing.
pub fn put_event(
    event: Event,
    used: usize,
    pending: i32,
    i: usize,
    teams: &mut [i32; 256],
    rows: &mut [i32],
    tens: &mut [i32],
    input: &[i32; 10],
    former: &[i32; 10],
)
    ensures { EventPut (event_is event) used pending i input.now former.now teams.old rows.old tens.old teams.new rows.new tens.new }
{
    if room_for(rows.len(), tens.len()) <= i {
        return;
    }
    fill(
        event,
        wrapped(used),
        pending,
        i,
        teams,
        rows,
        tens,
        input,
        former,
    );
}
