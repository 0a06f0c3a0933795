// Bodies read with a reel beside, and rewound at once or in so many events a call, for C and Rust programs to link.
#![tactic(auto)]

ghost use Rattle.std.specs.Prelude.{◌≡◌, List, ℤ};
ghost use Rattle.count.specs.Count.{version_if};
ghost use Rattle.state.specs.State.{entries_with};
ghost use Rattle.teams.specs.Teams.{no_teams};
ghost use Rattle.reel.specs.Reel.{flag, reel_of};
ghost use Rattle.reeling.specs.Reeling.{KeptIs};
ghost use Rattle.going.specs.Going.{start_rewind};
ghost use Rattle.rewind_linked.specs.Linked.{body_run, no_rows, ReadsKept, answer_number, RewindsBody};
ghost use Rattle.rewind_linked.specs.UnderWay.{
  tick_number,
  tick_in,
  flag_in,
  go_number,
  three_with,
  two_with,
  StartsRewind,
  under_way,
  GoesOn,
};
ghost use Rattle.rewind_linked.specs.steps.Starting.{Begins, no_begin};

use back::TeamBoard;
use going::{GoAnswer, Progress};
use reel::Counts;
use reeling::ReelRead;
use refusal::Refusal;
use rewinding::RewindAnswer;
use teams::TeamReader;

// The body read whole, with an empty reel at its start.
fn read_all(
    second: bool,
    body: &[u8],
    rows: &mut [i32; 5120],
    inputs: &mut [i32; 5120],
    formers: &mut [i32; 5120],
) -> ReelRead
    ensures { KeptIs (body_run (version_if second) body.now) no_teams (no_rows rows.old inputs.old formers.old) result
        (reel_of result.counts rows.new inputs.new formers.new) }
{
    reeling::read_kept(
        TeamReader::empty(count::version_if(second)),
        body,
        true,
        18446744073709551615,
        Counts { next: 0, count: 0 },
        rows,
        inputs,
        formers,
    )
}

// Reads a body whole with a reel beside: the number of its events. The reel is left in three arrays, its counts in a fourth. second says that the
// version is 2.
pub fn jolzerv_read_kept(
    second: bool,
    body: &[u8],
    rows: &mut [i32; 5120],
    inputs: &mut [i32; 5120],
    formers: &mut [i32; 5120],
    two: &mut [usize; 2],
) -> usize
    ensures { ReadsKept (version_if second) body.now rows.old inputs.old formers.old two.old result
        rows.new inputs.new formers.new two.new }
{
    let read = read_all(second, body, rows, inputs, formers);
    let counts = read.counts;
    two[0] = counts.next;
    two[1] = counts.count;
    read.count
}

fn answer_number(answer: RewindAnswer) -> u8
    ensures { result ≡ answer_number answer }
{
    match answer {
        RewindAnswer::Ended => 0,
        RewindAnswer::Refused(refusal) => refusal.number(),
    }
}

// The entries and teams of a copy, into six arrays.
fn put_copy(
    copy: TeamBoard,
    marks: &mut [u8; 128],
    xs: &mut [i32; 128],
    ys: &mut [i32; 128],
    held: &mut [u8; 128],
    numbers: &mut [i32; 1280],
    teams: &mut [i32; 256],
)
    ensures { (entries_with marks.new xs.new ys.new held.new numbers.new ≡ copy.board.entries)
        × (teams.new ≡ copy.teams) }
{
    let board = copy.board;
    let entries = board.entries;
    let copy_marks = entries.marks;
    let copy_xs = entries.xs;
    let copy_ys = entries.ys;
    let copy_held = entries.held;
    let copy_inputs = entries.inputs;
    let copy_teams = copy.teams;
    *marks = copy_marks;
    *xs = copy_xs;
    *ys = copy_ys;
    *held = copy_held;
    *numbers = copy_inputs;
    *teams = copy_teams;
}

// Reads a body whole with a reel beside in arrays lent, and rewinds to a tick: 0, or the number of the refusal. The copy's entries are left in five
// arrays, its teams in a sixth.
pub fn jolzerv_rewind_body(
    second: bool,
    body: &[u8],
    tick: i32,
    rows: &mut [i32; 5120],
    inputs: &mut [i32; 5120],
    formers: &mut [i32; 5120],
    marks: &mut [u8; 128],
    xs: &mut [i32; 128],
    ys: &mut [i32; 128],
    held: &mut [u8; 128],
    numbers: &mut [i32; 1280],
    teams: &mut [i32; 256],
) -> u8
    ensures { RewindsBody (version_if second) body.now tick rows.old inputs.old formers.old result
        rows.new inputs.new formers.new
        (entries_with marks.new xs.new ys.new held.new numbers.new) teams.new }
{
    let read = read_all(second, body, rows, inputs, formers);
    let reader = read.reader;
    let counts = read.counts;
    let rewound = rewinding::rewind_lent(reader, counts, &*rows, &*inputs, &*formers, tick);
    let copy = rewound.board;
    put_copy(copy, marks, xs, ys, held, numbers, teams);
    let answer = rewound.answer;
    answer_number(answer)
}

// ---- a rewind under way, whose reel, copy and numbers are lent

// A board's tick as a number: -1 is none.
fn tick_number(tick: Option<i32>) -> i32
    ensures { result ≡ tick_number tick }
{
    match tick {
        Some(t) => t,
        None => -1,
    }
}

fn tick_in(number: i32) -> Option<i32>
    ensures { result ≡ tick_in number }
{
    if compare::same_number(number, -1) {
        return None;
    }
    Some(number)
}

fn flag_of(b: bool) -> i32
    ensures { result ≡ flag b }
{
    if b { 1 } else { 0 }
}

fn flag_in(number: i32) -> bool
    ensures { result ≡ flag_in number }
{
    !compare::same_number(number, 0)
}

// The numbers of a rewind: its own reel's next place and count, and how many of its rows are newer than its TickStart; the copy's tick, and
// whether an event didn't fit.
fn put_numbers(
    counts: Counts,
    newer: usize,
    tick: Option<i32>,
    misfit: bool,
    three: &mut [usize; 3],
    two: &mut [i32; 2],
)
    ensures { (three.new ≡ three_with three.old counts newer) × (two.new ≡ two_with two.old tick misfit) }
{
    three[0] = counts.next;
    three[1] = counts.count;
    three[2] = newer;
    two[0] = tick_number(tick);
    two[1] = flag_of(misfit);
}

// The number of a start's answer, the copy, and how many rows are newer than the TickStart; in a refusal a blank board and 0.
#[derive(Clone, Copy)]
struct Begun {
    number: u8,
    board: TeamBoard,
    newer: usize,
}

fn refuse_start(why: Refusal) -> Begun
    ensures { result ≡ no_begin why }
{
    Begun {
        number: why.number(),
        board: rewinding::blank_board(),
        newer: 0,
    }
}

// A rewind on a reel that is its own from then on.
fn begin(reader: TeamReader, counts: Counts, rows: &[i32; 5120], tick: i32) -> Begun
    ensures { (inputs formers : List ℤ) → Begins (start_rewind reader (reel_of counts rows.now inputs formers) tick) result }
{
    match rewinding::seek(reader, counts, rows, tick) {
        Ok(newer) => Begun {
            number: 0,
            board: back::team_board_of(reader),
            newer,
        },
        Err(why) => refuse_start(why),
    }
}

// Reads a body whole with a reel beside in arrays lent, and starts a rewind to a tick: 0, or the number of the refusal. The reel is the rewind's own.
// The copy's entries are left in five arrays, its teams in a sixth, the numbers of the rewind in two more; in a refusal the copy is blank.
pub fn jolzerv_start_rewind(
    second: bool,
    body: &[u8],
    tick: i32,
    rows: &mut [i32; 5120],
    inputs: &mut [i32; 5120],
    formers: &mut [i32; 5120],
    marks: &mut [u8; 128],
    xs: &mut [i32; 128],
    ys: &mut [i32; 128],
    held: &mut [u8; 128],
    numbers: &mut [i32; 1280],
    teams: &mut [i32; 256],
    three: &mut [usize; 3],
    two: &mut [i32; 2],
) -> u8
    ensures { StartsRewind (version_if second) body.now tick rows.old inputs.old formers.old three.old two.old
        result rows.new inputs.new formers.new
        (entries_with marks.new xs.new ys.new held.new numbers.new) teams.new three.new two.new }
{
    let read = read_all(second, body, rows, inputs, formers);
    let reader = read.reader;
    let counts = read.counts;
    let begun = begin(reader, counts, &*rows, tick);
    let copy = begun.board;
    let board = copy.board;
    let copy_tick = board.tick;
    put_copy(copy, marks, xs, ys, held, numbers, teams);
    put_numbers(counts, begun.newer, copy_tick, false, three, two);
    begun.number
}

fn go_number(answer: GoAnswer) -> u8
    ensures { result ≡ go_number answer }
{
    match answer {
        GoAnswer::Ended => 0,
        GoAnswer::Going => 255,
        GoAnswer::Refused(refusal) => refusal.number(),
    }
}

// Goes on with a rewind to a tick by at most so many events: 0 if it has ended, 255 if it is still going, or the number of the refusal.
pub fn jolzerv_go_on(
    tick: i32,
    events: usize,
    rows: &[i32; 5120],
    inputs: &[i32; 5120],
    formers: &[i32; 5120],
    marks: &mut [u8; 128],
    xs: &mut [i32; 128],
    ys: &mut [i32; 128],
    held: &mut [u8; 128],
    numbers: &mut [i32; 1280],
    teams: &mut [i32; 256],
    three: &mut [usize; 3],
    two: &mut [i32; 2],
) -> u8
    ensures { GoesOn (under_way tick rows.now inputs.now formers.now
        (entries_with marks.old xs.old ys.old held.old numbers.old) teams.old three.old two.old)
        events three.old two.old result
        (entries_with marks.new xs.new ys.new held.new numbers.new) teams.new three.new two.new }
{
    let next = three[0];
    let count = three[1];
    let newer = three[2];
    let misfit = flag_in(two[1]);
    let counts = Counts { next, count };
    let at = Progress {
        tick,
        newer,
        misfit,
    };
    let went = going::go_lent(
        tick_in(two[0]),
        marks,
        xs,
        ys,
        held,
        numbers,
        teams,
        counts,
        rows,
        inputs,
        formers,
        at,
        events,
    );
    let left = went.counts;
    let progress = went.progress;
    let copy_tick = went.tick;
    put_numbers(left, progress.newer, copy_tick, progress.misfit, three, two);
    let answer = went.answer;
    go_number(answer)
}
