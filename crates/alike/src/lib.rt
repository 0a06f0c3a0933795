// States for test programs: whether two readers or two boards are the same, by which is seen that a call changes nothing; readers made of
// the bytes of a case, where a number is 100 more than it stands for.
#![tactic(auto)]

ghost use Rattle.std.specs.Prelude.{◌≡◌, ◌≤◌, length, get_or, eqb, ◌&&◌};
ghost use Rattle.state.specs.State.{same_int, every, no_entries};
ghost use Rattle.alike.specs.Alike.{
  same_mark,
  same_number,
  same_inputs,
  same_positions,
  same_entries,
  same_flag,
  is_second,
  standing_number,
  standing_in,
  same_cid,
  client_of,
  pending_number,
  pending_client,
  same_pending,
  same_places,
  same_flags,
  same_kinds,
  same_scalars,
  board_tick,
  version_in,
  pending_of,
  scalars_in,
  player_at,
  number_at,
  entries_in,
  reader_in,
};

use back::Board;
use kinds::{Kind, Version};
use state::{Entries, Reader, Scalars, Standing};

fn same_mark(a: u8, b: u8) -> bool
    ensures { result ≡ eqb a b }
{
    a == b
}

fn same_number(a: i32, b: i32) -> bool
    ensures { result ≡ same_int a b }
{
    a == b
}

fn same_marks(a: &[u8; 128], b: &[u8; 128]) -> bool
    ensures { result ≡ every 128 (same_mark a.now b.now) }
{
    let mut all = true;
    for i in 0..128 {
        let x = a[i];
        let y = b[i];
        all = good::both(same_mark(x, y), all);
    }
    all
}

// The first n numbers of both.
fn same_numbers<'a>(a: &'a [i32], b: &'a [i32], n: usize) -> bool
    requires { (n ≤ length a.now) × (n ≤ length b.now) }
    ensures { result ≡ every n (same_number a.now b.now) }
{
    let mut all = true;
    for i in 0..n {
        let x = a[i];
        let y = b[i];
        all = good::both(same_number(x, y), all);
    }
    all
}

fn same_inputs(a: Entries, b: Entries) -> bool
    ensures { result ≡ same_inputs a b }
{
    good::both(
        same_marks(&a.held, &b.held),
        same_numbers(&a.inputs, &b.inputs, 1280),
    )
}

fn same_positions(a: Entries, b: Entries) -> bool
    ensures { result ≡ same_positions a b }
{
    good::both(
        same_numbers(&a.xs, &b.xs, 128),
        same_numbers(&a.ys, &b.ys, 128),
    )
}

pub fn same_entries(a: Entries, b: Entries) -> bool
    ensures { result ≡ same_entries a b }
{
    good::both(
        same_marks(&a.marks, &b.marks),
        good::both(same_positions(a, b), same_inputs(a, b)),
    )
}

fn same_flag(a: bool, b: bool) -> bool
    ensures { result ≡ same_flag a b }
{
    a == b
}

fn is_second(version: Version) -> bool
    ensures { result ≡ is_second version }
{
    matches!(version, Version::V2)
}

// 0 open, 1 finished, 2 refused.
fn standing_number(standing: Standing) -> u8
    ensures { result ≡ standing_number standing }
{
    match standing {
        Standing::Open => 0,
        Standing::Finished => 1,
        Standing::Refused => 2,
    }
}

fn same_standing(a: Standing, b: Standing) -> bool
    ensures { result ≡ eqb (standing_number a) (standing_number b) }
{
    same_mark(standing_number(a), standing_number(b))
}

fn same_cid(a: Option<i32>, b: Option<i32>) -> bool
    ensures { result ≡ same_cid a b }
{
    match a {
        Some(c) => match b {
            Some(d) => same_number(c, d),
            None => false,
        },
        None => match b {
            Some(_) => false,
            None => true,
        },
    }
}

// The client of PlayerNew and PlayerOld; that of PlayerDiff is its number.
fn client_of(kind: Kind) -> i32
    ensures { result ≡ client_of kind }
{
    match kind {
        Kind::PlayerNew(cid) => cid,
        Kind::PlayerOld(cid) => cid,
        Kind::PlayerDiff(_) => 0,
        Kind::Finish => 0,
        Kind::TickSkip => 0,
        Kind::InputDiff => 0,
        Kind::InputNew => 0,
        Kind::Message => 0,
        Kind::Join => 0,
        Kind::Drop => 0,
        Kind::ConsoleCommand => 0,
        Kind::Ex => 0,
    }
}

// The pending kind's number, as a client that may be missing.
fn pending_number(pending: Option<Kind>) -> Option<i32>
    ensures { result ≡ pending_number pending }
{
    match pending {
        Some(kind) => Some(kind.number()),
        None => None,
    }
}

fn pending_client(pending: Option<Kind>) -> i32
    ensures { result ≡ pending_client pending }
{
    match pending {
        Some(kind) => client_of(kind),
        None => 0,
    }
}

fn same_pending(a: Option<Kind>, b: Option<Kind>) -> bool
    ensures { result ≡ same_pending a b }
{
    good::both(
        same_cid(pending_number(a), pending_number(b)),
        same_number(pending_client(a), pending_client(b)),
    )
}

fn same_places(a: Scalars, b: Scalars) -> bool
    ensures { result ≡ same_places a b }
{
    let s = a.tick;
    let t = b.tick;
    let l = a.largest;
    let m = b.largest;
    good::both(same_number(s, t), same_number(l, m))
}

fn same_flags(a: Scalars, b: Scalars) -> bool
    ensures { result ≡ same_flags a b }
{
    let v = a.version;
    let w = b.version;
    let x = a.standing;
    let y = b.standing;
    good::both(
        same_flag(is_second(v), is_second(w)),
        good::both(same_flag(a.inside, b.inside), same_standing(x, y)),
    )
}

fn same_kinds(a: Scalars, b: Scalars) -> bool
    ensures { result ≡ same_kinds a b }
{
    let c = a.remembered;
    let d = b.remembered;
    let p = a.pending;
    let q = b.pending;
    good::both(same_cid(c, d), same_pending(p, q))
}

pub fn same_scalars(a: Scalars, b: Scalars) -> bool
    ensures { result ≡ same_scalars a b }
{
    good::both(
        same_places(a, b),
        good::both(same_flags(a, b), same_kinds(a, b)),
    )
}

pub fn same_reader(a: Reader, b: Reader) -> bool
    ensures { result ≡ same_scalars a.scalars b.scalars && same_entries a.entries b.entries }
{
    let s = a.scalars;
    let t = b.scalars;
    let e = a.entries;
    let f = b.entries;
    good::both(same_scalars(s, t), same_entries(e, f))
}

fn tick_of(tick: Option<i32>) -> Option<i32>
    ensures { result ≡ board_tick tick }
{
    match tick {
        Some(t) => Some(t),
        None => None,
    }
}

pub fn same_board(a: Board, b: Board) -> bool
    ensures { result ≡ same_cid (board_tick a.tick) (board_tick b.tick) && same_entries a.entries b.entries }
{
    let s = a.tick;
    let t = b.tick;
    let e = a.entries;
    let f = b.entries;
    good::both(same_cid(tick_of(s), tick_of(t)), same_entries(e, f))
}

fn version_in(b: u8) -> Version
    ensures { result ≡ version_in b }
{
    if b == 1 {
        return Version::V1;
    }
    Version::V2
}

// 1 finished, 2 refused, else open.
fn standing_in(b: u8) -> Standing
    ensures { result ≡ standing_in b }
{
    if b == 1 {
        return Standing::Finished;
    }
    if b == 2 {
        return Standing::Refused;
    }
    Standing::Open
}

// 1 a PlayerDiff, 2 a PlayerNew, 3 an extension, else none.
fn pending_of(b: u8, cid: i32) -> Option<Kind>
    ensures { result ≡ pending_of b cid }
{
    if b == 1 {
        return Some(Kind::PlayerDiff(cid));
    }
    if b == 2 {
        return Some(Kind::PlayerNew(cid));
    }
    if b == 3 {
        return Some(Kind::Ex);
    }
    None
}

// A version, a tick, a largest client, a pending kind and its client, open or closed by which, inside a tick or not.
fn scalars_in(s: &[u8]) -> Scalars
    ensures { result ≡ scalars_in s.now }
{
    Scalars {
        version: version_in(cases::byte(s, 0)),
        tick: cases::number(s, 1),
        inside: same_mark(cases::byte(s, 6), 1),
        remembered: None,
        largest: cases::number(s, 2),
        pending: pending_of(cases::byte(s, 3), cases::number(s, 4)),
        standing: standing_in(cases::byte(s, 5)),
    }
}

fn no_entries() -> Entries
    ensures { result ≡ no_entries }
{
    let reader = Reader::empty(Version::V1);
    let entries = reader.entries;
    entries
}

fn with_player(entries: Entries, c: usize, mark: u8, x: i32, y: i32) -> Entries
    ensures { result ≡ player_at entries c mark x y }
{
    if 128 <= c {
        return entries;
    }
    let mut made = entries;
    made.marks[c] = mark;
    made.xs[c] = x;
    made.ys[c] = y;
    made
}

fn with_number(entries: Entries, c: usize, mark: u8, k: usize, n: i32) -> Entries
    ensures { result ≡ number_at entries c mark k n }
{
    if 128 <= c {
        return entries;
    }
    if 10 <= k {
        return entries;
    }
    let mut made = entries;
    made.held[c] = mark;
    made.inputs[10 * c + k] = n;
    made
}

// A client, its player's mark, x and y, its input's mark, the place of one of the ten numbers, that number; nothing else is there.
pub fn entries_in(s: &[u8]) -> Entries
    ensures { result ≡ entries_in s.now }
{
    let c = cases::size(cases::byte(s, 0));
    let k = cases::size(cases::byte(s, 5));
    let player = with_player(
        no_entries(),
        c,
        cases::byte(s, 1),
        cases::number(s, 2),
        cases::number(s, 3),
    );
    with_number(player, c, cases::byte(s, 4), k, cases::number(s, 6))
}

// Scalars, then entries.
pub fn reader_in(s: &[u8]) -> Reader
    ensures { result ≡ reader_in s.now }
{
    Reader {
        scalars: scalars_in(s),
        entries: entries_in(cases::window(s, 7, s.len())),
    }
}
