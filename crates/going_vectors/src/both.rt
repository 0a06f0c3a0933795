// Starts and calls of rewinds, each made by value and on lent arrays.
ghost use Rattle.std.specs.Prelude.{◌<◌};

use crate::same::{same_go, same_rewind, same_start, start_number};
use crate::say_unless;
use back::{Board, TeamBoard};
use going::{Go, GoAnswer, LentGo, Rewind, Start};
use kinds::Version;
use reel::{Counts, Reel};
use state::Entries;
use teams::TeamReader;

// ---- starting

// The rewind of a start that is refused: without a reading there is no TickStart.
pub fn none() -> Rewind {
    let start = rewinds::start_rewind(TeamReader::empty(Version::V1), Reel::empty(), 0);
    let rewind = start.rewind;
    rewind
}

// On lent arrays, of which those of the own reel are an old rewind's.
fn start_lent(reader: TeamReader, given: Reel, tick: i32, old: Reel) -> Start {
    let counts = given.counts;
    let rows = given.rows;
    let inputs = given.inputs;
    let formers = given.formers;
    let mut own_rows = old.rows;
    let mut own_inputs = old.inputs;
    let mut own_formers = old.formers;
    let lent = going::start_lent(
        reader,
        counts,
        &rows,
        &inputs,
        &formers,
        tick,
        &mut own_rows,
        &mut own_inputs,
        &mut own_formers,
    );
    let answer = lent.answer;
    let board = lent.board;
    let progress = lent.progress;
    Start {
        answer,
        rewind: Rewind {
            board,
            reel: Reel {
                counts,
                rows: own_rows,
                inputs: own_inputs,
                formers: own_formers,
            },
            progress,
        },
    }
}

// What a start on lent arrays leaves: in a refusal the own reel is as it was.
fn lent_of(start: Start, counts: Counts, old: Reel) -> Start {
    let answer = start.answer;
    if start_number(answer) == 0 {
        return start;
    }
    let made = start.rewind;
    let board = made.board;
    let progress = made.progress;
    let rows = old.rows;
    let inputs = old.inputs;
    let formers = old.formers;
    Start {
        answer,
        rewind: Rewind {
            board,
            reel: Reel {
                counts,
                rows,
                inputs,
                formers,
            },
            progress,
        },
    }
}

// By value and on lent arrays.
pub fn start(reader: TeamReader, given: Reel, tick: i32, old: Rewind) -> Start {
    let counts = given.counts;
    let own = old.reel;
    let made = rewinds::start_rewind(reader, given, tick);
    let lent = start_lent(reader, given, tick, own);
    let answer = made.answer;
    let rewind = made.rewind;
    say_unless(
        same_start(lent, lent_of(made, counts, own)),
        b"on lent arrays the start differs\n",
    );
    say_unless(
        (start_number(answer) == 0) | same_rewind(rewind, none()),
        b"refused, the rewind is not blank\n",
    );
    made
}

// ---- going on

// What the last of some calls answers and leaves, and how many they were: each goes so many events, until the rewind isn't going any more, or until
// they are as many as may be made.
#[derive(Clone, Copy)]
pub struct Walked {
    pub go: Go,
    pub calls: usize,
}

fn is_going(answer: GoAnswer) -> bool {
    match answer {
        GoAnswer::Ended => false,
        GoAnswer::Going => true,
        GoAnswer::Refused(_) => false,
    }
}

// By value.
fn walk(given: Rewind, events: usize, most: usize) -> Walked {
    let mut go = Go {
        answer: GoAnswer::Going,
        rewind: given,
    };
    let mut calls: usize = 0;
    let mut left = most;
    while 0 < left {
        let rewind = go.rewind;
        go = rewinds::go_on(rewind, events);
        let answer = go.answer;
        calls += 1;
        left = fewer(left, is_going(answer));
    }
    Walked { go, calls }
}

// The calls that may still be made behind one; none where the rewind isn't going any more.
fn fewer(left: usize, goes: bool) -> usize
    requires { 0 < left }
    ensures { result < left }
{
    if goes {
        return left - 1;
    }
    0
}

// The same on lent arrays.
#[derive(Clone, Copy)]
struct LentWalked {
    went: LentGo,
    calls: usize,
}

fn walk_on(
    given: LentGo,
    marks: &mut [u8; 128],
    xs: &mut [i32; 128],
    ys: &mut [i32; 128],
    held: &mut [u8; 128],
    inputs: &mut [i32; 1280],
    teams: &mut [i32; 256],
    own: Reel,
    events: usize,
    most: usize,
) -> LentWalked {
    let rows = own.rows;
    let tens = own.inputs;
    let formers = own.formers;
    let mut went = given;
    let mut calls: usize = 0;
    let mut left = most;
    while 0 < left {
        went = going::go_further(
            went, marks, xs, ys, held, inputs, teams, &rows, &tens, &formers, events,
        );
        let answer = went.answer;
        calls += 1;
        left = fewer(left, is_going(answer));
    }
    LentWalked { went, calls }
}

// What stands before the first call.
fn before(given: Rewind) -> LentGo {
    let copy = given.board;
    let board = copy.board;
    let tick = board.tick;
    let own = given.reel;
    let counts = own.counts;
    let progress = given.progress;
    LentGo {
        answer: GoAnswer::Going,
        tick,
        counts,
        progress,
    }
}

// What calls on lent arrays answer and leave.
fn go_of(went: LentGo, entries: Entries, teams: [i32; 256], own: Reel) -> Go {
    let answer = went.answer;
    let tick = went.tick;
    let counts = went.counts;
    let progress = went.progress;
    let rows = own.rows;
    let inputs = own.inputs;
    let formers = own.formers;
    Go {
        answer,
        rewind: Rewind {
            board: TeamBoard {
                board: Board { tick, entries },
                teams,
            },
            reel: Reel {
                counts,
                rows,
                inputs,
                formers,
            },
            progress,
        },
    }
}

fn walk_lent(given: Rewind, events: usize, most: usize) -> Walked {
    let copy = given.board;
    let mut teams = copy.teams;
    let board = copy.board;
    let entries = board.entries;
    let mut marks = entries.marks;
    let mut xs = entries.xs;
    let mut ys = entries.ys;
    let mut held = entries.held;
    let mut inputs = entries.inputs;
    let own = given.reel;
    let first = before(given);
    let walked = walk_on(
        first,
        &mut marks,
        &mut xs,
        &mut ys,
        &mut held,
        &mut inputs,
        &mut teams,
        own,
        events,
        most,
    );
    let went = walked.went;
    let left = Entries {
        marks,
        xs,
        ys,
        held,
        inputs,
    };
    Walked {
        go: go_of(went, left, teams, own),
        calls: walked.calls,
    }
}

// By value and on lent arrays.
pub fn walk_both(rewind: Rewind, events: usize, most: usize) -> Walked {
    let walked = walk(rewind, events, most);
    let lent = walk_lent(rewind, events, most);
    let one = walked.go;
    let other = lent.go;
    say_unless(
        same_go(one, other) & (walked.calls == lent.calls),
        b"on lent arrays going on differs\n",
    );
    walked
}

// One call.
pub fn go(rewind: Rewind, events: usize) -> Go {
    let walked = walk_both(rewind, events, 1);
    let gone = walked.go;
    gone
}
