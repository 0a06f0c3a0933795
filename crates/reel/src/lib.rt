// The reel: the last 512 events of a reader with what stepping back needs, in a ring of flat arrays.
#![tactic(auto)]

ghost use Rattle.std.specs.Prelude.{◌≡◌};
ghost use Rattle.reel.specs.Reel.{input_row, team_row, undo_in, place_before, place_after, good_counts, one_more, empty_reel};

use back::Undo;
use refusal::Refusal;

// The place of the next row, below 512, and how many rows are kept, at most 512.
#[derive(Clone, Copy)]
pub struct Counts {
    pub next: usize,
    pub count: usize,
}

// Ten numbers for each of 512 places: those of a row; the ten numbers of an input, and the former ten.
#[derive(Clone, Copy)]
pub struct Reel {
    pub counts: Counts,
    pub rows: [i32; 5120],
    pub inputs: [i32; 5120],
    pub formers: [i32; 5120],
}

#[derive(Clone, Copy)]
pub enum KeepAnswer {
    Kept,
    Refused(Refusal),
}

// In a refusal the reel is the one that was given.
#[derive(Clone, Copy)]
pub struct KeptReel {
    pub answer: KeepAnswer,
    pub reel: Reel,
}

impl Reel {
    // No rows.
    pub fn empty() -> Reel
        ensures { result ≡ empty_reel }
    {
        Reel {
            counts: Counts { next: 0, count: 0 },
            rows: [0; 5120],
            inputs: [0; 5120],
            formers: [0; 5120],
        }
    }
}

// Whether the counts are not refused 17.
pub fn good_counts(counts: Counts) -> bool
    ensures { result ≡ good_counts counts }
{
    if 512 <= counts.next {
        return false;
    }
    counts.count <= 512
}

// Of the 512 places, the one before.
pub fn place_before(p: usize) -> usize
    ensures { result ≡ place_before p }
{
    if p == 0 { 511 } else { p - 1 }
}

// The one after.
fn place_after(p: usize) -> usize
    ensures { result ≡ place_after p }
{
    if p < 511 { p + 1 } else { 0 }
}

// The counts after a row more: where all places are taken, the oldest row goes.
pub fn one_more(counts: Counts) -> Counts
    ensures { result ≡ one_more counts }
{
    Counts {
        next: place_after(counts.next),
        count: counts.count.min(511) + 1,
    }
}

fn input_row(cid: i32, had: i32) -> Undo
    ensures { result ≡ input_row cid had }
{
    if had == 1 {
        return Undo::Input { cid, former: true };
    }
    if had == 0 {
        return Undo::Input { cid, former: false };
    }
    Undo::End(-1)
}

fn team_row(cid: i32, team: i32, mark: i32, number: i32) -> Undo
    ensures { result ≡ team_row cid team mark number }
{
    if mark == 1 {
        return Undo::Team {
            cid,
            team,
            former: Some(number),
        };
    }
    if mark == 0 {
        return Undo::Team {
            cid,
            team,
            former: None,
        };
    }
    Undo::End(-1)
}

// What the ten numbers of a row tell.
pub fn undo_in(n: [i32; 10]) -> Undo
    ensures { result ≡ undo_in n }
{
    let cid = n[1];
    let x = n[2];
    let y = n[3];
    match n[0] {
        1 => Undo::Start(cid),
        2 => Undo::End(cid),
        3 => Undo::New { cid, x, y },
        4 => Undo::Change {
            cid,
            x,
            y,
            old_x: n[4],
            old_y: n[5],
        },
        5 => Undo::Old { cid, x, y },
        6 => input_row(cid, x),
        7 => Undo::Nothing,
        8 => team_row(cid, x, y, n[4]),
        _ => Undo::End(-1),
    }
}
