// Rewinds under way: ones made by hand that go on, and starts.
use crate::{
    blank, filled, number_of, place_in, print, print_found, reel_in, same_arrays, same_reel, say,
    say_if, say_two,
};
use back::{Board, TeamBoard};
use going::{Go, GoAnswer, LentGo, Progress, Rewind, Start, StartAnswer};
use reel::Reel;
use rewinding::Rewound;
use state::Entries;
use teams::TeamReader;

const STDOUT_FILENO: i32 = 1;

// ---- lines

fn say_number(word: &[u8], n: usize) {
    say(word);
    io::print_decimal(STDOUT_FILENO, n as u64);
}

fn print_gone(answer: GoAnswer, board: TeamBoard) {
    let mut text = [0u8; 27036];
    let Ok(n) = board_lines::write_gone(answer, board, &mut text, 0) else {
        return;
    };
    say(cases::window(&text, 0, n));
}

// The counts of the own reel, and how far the rewind has come.
fn print_own(rewind: Rewind) {
    let own = rewind.reel;
    let counts = own.counts;
    let progress = rewind.progress;
    let tick = progress.tick;
    say_two(b"own ", counts.next, counts.count);
    say_number(b" newer ", progress.newer);
    say_if(progress.misfit, b" misfit");
    print(texts::plain(b" to", &[tick]));
}

fn print_looked(rewind: Rewind, cid: i32) {
    print_found(
        rewinds::player_pos(rewind, cid),
        rewinds::input(rewind, cid),
        rewinds::team(rewind, cid),
    );
    match rewinds::tick(rewind) {
        Some(t) => print(texts::plain(b"in", &[t])),
        None => say(b"in no tick\n"),
    }
}

// ---- whether two are the same

fn start_number(answer: StartAnswer) -> u8 {
    match answer {
        StartAnswer::Started => 0,
        StartAnswer::Refused(why) => why.number(),
    }
}

fn go_number(answer: GoAnswer) -> u8 {
    match answer {
        GoAnswer::Ended => 0,
        GoAnswer::Going => 255,
        GoAnswer::Refused(why) => why.number(),
    }
}

fn same_progress(a: Progress, b: Progress) -> bool {
    (a.tick == b.tick) & (a.newer == b.newer) & (a.misfit == b.misfit)
}

// Apart from the own reel.
fn same_copy(a: Rewind, b: Rewind) -> bool {
    let one = a.board;
    let other = b.board;
    let first = a.progress;
    let second = b.progress;
    team_alike::same_team_board(one, other) & same_progress(first, second)
}

fn same_rewind(a: Rewind, b: Rewind) -> bool {
    let one = a.reel;
    let other = b.reel;
    same_copy(a, b) & same_reel(one, other)
}

fn same_go(a: Go, b: Go) -> bool {
    let one = a.rewind;
    let other = b.rewind;
    let first = a.answer;
    let second = b.answer;
    same_rewind(one, other) & (go_number(first) == go_number(second))
}

// ---- calls that go on

fn went(left: LentGo, entries: Entries, teams: [i32; 256], own: Reel) -> Go {
    let answer = left.answer;
    let tick = left.tick;
    let counts = left.counts;
    let progress = left.progress;
    let rows = own.rows;
    let inputs = own.inputs;
    let formers = own.formers;
    Go {
        answer,
        rewind: Rewind {
            board: TeamBoard {
                board: Board { tick, entries },
                teams,
            },
            reel: Reel {
                counts,
                rows,
                inputs,
                formers,
            },
            progress,
        },
    }
}

fn go_lent(rewind: Rewind, events: usize) -> Go {
    let copy = rewind.board;
    let mut teams = copy.teams;
    let board = copy.board;
    let tick = board.tick;
    let entries = board.entries;
    let mut marks = entries.marks;
    let mut xs = entries.xs;
    let mut ys = entries.ys;
    let mut held = entries.held;
    let mut inputs = entries.inputs;
    let own = rewind.reel;
    let rows = own.rows;
    let tens = own.inputs;
    let formers = own.formers;
    let left = going::go_lent(
        tick,
        &mut marks,
        &mut xs,
        &mut ys,
        &mut held,
        &mut inputs,
        &mut teams,
        own.counts,
        &rows,
        &tens,
        &formers,
        rewind.progress,
        events,
    );
    let made = Entries {
        marks,
        xs,
        ys,
        held,
        inputs,
    };
    went(left, made, teams, own)
}

fn go_once(rewind: Rewind, events: usize, cid: i32) -> Rewind {
    let gone = rewinds::go_on(rewind, events);
    let answer = gone.answer;
    let left = gone.rewind;
    let board = left.board;
    let before = rewind.reel;
    let after = left.reel;
    say_number(b"go ", events);
    say(b"\n");
    print_gone(answer, board);
    print_own(left);
    print_looked(left, cid);
    say_if(same_rewind(rewind, left), b"the rewind is as it was\n");
    say_if(
        !same_arrays(before, after),
        b"the own reel has other rows\n",
    );
    say_if(
        !same_go(gone, go_lent(rewind, events)),
        b"lent it differs\n",
    );
    left
}

// Each on the rewind that the last one left.
fn go_each(rewind: Rewind, cid: i32, s: &[u8]) {
    let mut left = rewind;
    for k in 0..cases::size(cases::byte(s, 0)) {
        left = go_once(left, place_in(cases::window(s, 1 + 2 * k, 3 + 2 * k)), cid);
    }
}

fn behind_calls(s: &[u8]) -> &[u8] {
    cases::window(s, 1 + 2 * cases::size(cases::byte(s, 0)), s.len())
}

pub fn go_case(reader: TeamReader, s: &[u8]) {
    let calls = cases::window(s, 5, s.len());
    let rewind = Rewind {
        board: back::team_board_of(reader),
        reel: reel_in(behind_calls(calls)),
        progress: Progress {
            tick: cases::number(s, 0),
            newer: place_in(cases::window(s, 2, 4)),
            misfit: cases::byte(s, 4) == 1,
        },
    };
    go_each(rewind, cases::number(s, 1), calls);
}

// ---- a start

// The arrays lent for the own reel, before a start.
fn lent_reel(given: Reel) -> Reel {
    let counts = given.counts;
    Reel {
        counts,
        rows: filled(9),
        inputs: filled(8),
        formers: filled(6),
    }
}

fn start_lent(reader: TeamReader, given: Reel, tick: i32) -> Start {
    let counts = given.counts;
    let rows = given.rows;
    let inputs = given.inputs;
    let formers = given.formers;
    let own = lent_reel(given);
    let mut own_rows = own.rows;
    let mut own_inputs = own.inputs;
    let mut own_formers = own.formers;
    let got = going::start_lent(
        reader,
        counts,
        &rows,
        &inputs,
        &formers,
        tick,
        &mut own_rows,
        &mut own_inputs,
        &mut own_formers,
    );
    let answer = got.answer;
    let board = got.board;
    let progress = got.progress;
    Start {
        answer,
        rewind: Rewind {
            board,
            reel: Reel {
                counts,
                rows: own_rows,
                inputs: own_inputs,
                formers: own_formers,
            },
            progress,
        },
    }
}

fn report_lent(lent: Start, got: Start, given: Reel) {
    let one = lent.rewind;
    let other = got.rewind;
    let first = lent.answer;
    let second = got.answer;
    let own = one.reel;
    say_if(same_arrays(own, given), b"the own reel is the one given\n");
    say_if(
        same_arrays(own, lent_reel(given)),
        b"the own reel is as it was\n",
    );
    say_if(
        !(same_copy(one, other) & (start_number(first) == start_number(second))),
        b"lent it differs\n",
    );
}

fn no_rewind() -> Rewind {
    Rewind {
        board: blank(),
        reel: Reel::empty(),
        progress: Progress {
            tick: 0,
            newer: 0,
            misfit: false,
        },
    }
}

// Nothing is stepped over yet.
fn report_started(rewind: Rewind, reader: TeamReader, given: Reel) {
    let board = rewind.board;
    let own = rewind.reel;
    say(b"started\n");
    print_own(rewind);
    say_if(
        !team_alike::same_team_board(board, back::team_board_of(reader)),
        b"the copy is not the reader's board\n",
    );
    say_if(
        !same_reel(own, given),
        b"the own reel is not the one given\n",
    );
}

pub fn start_case(reader: TeamReader, s: &[u8]) {
    let calls = cases::window(s, 2, s.len());
    let tick = cases::number(s, 0);
    let given = reel_in(behind_calls(calls));
    let got = rewinds::start_rewind(reader, given, tick);
    let answer = got.answer;
    let rewind = got.rewind;
    match answer {
        StartAnswer::Started => report_started(rewind, reader, given),
        StartAnswer::Refused(why) => {
            print(texts::refused(why));
            say_if(
                !same_rewind(rewind, no_rewind()),
                b"the rewind is not blank\n",
            );
        }
    }
    report_lent(start_lent(reader, given, tick), got, given);
    if start_number(answer) == 0 {
        go_each(rewind, cases::number(s, 1), calls);
    }
}

// Whether a start and one call over 512 events answer what a rewind does.
pub fn same_in_calls(rewound: Rewound, reader: TeamReader, given: Reel, tick: i32) -> bool {
    let answer = rewound.answer;
    let board = rewound.board;
    let n = number_of(answer);
    let got = rewinds::start_rewind(reader, given, tick);
    let begun = got.answer;
    let rewind = got.rewind;
    if start_number(begun) != 0 {
        return start_number(begun) == n;
    }
    let gone = rewinds::go_on(rewind, 512);
    let ending = gone.answer;
    let left = gone.rewind;
    let copy = left.board;
    (go_number(ending) == n) & ((n != 0) | team_alike::same_team_board(copy, board))
}
