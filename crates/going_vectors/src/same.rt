// What should be the same of two rewinds, starts and calls.
use going::{Go, GoAnswer, Progress, Rewind, Start, StartAnswer};
use reel::Reel;

fn same_numbers(a: &[i32; 5120], b: &[i32; 5120]) -> bool {
    let mut i: usize = 0;
    while i < 5120 {
        if a[i] != b[i] {
            return false;
        }
        i += 1;
    }
    true
}

fn same_reel(a: Reel, b: Reel) -> bool {
    let one = a.counts;
    let other = b.counts;
    (one.next == other.next)
        & (one.count == other.count)
        & same_numbers(&a.rows, &b.rows)
        & same_numbers(&a.inputs, &b.inputs)
        & same_numbers(&a.formers, &b.formers)
}

fn same_progress(a: Progress, b: Progress) -> bool {
    (a.tick == b.tick) & (a.newer == b.newer) & (a.misfit == b.misfit)
}

pub fn same_rewind(a: Rewind, b: Rewind) -> bool {
    let one = a.board;
    let other = b.board;
    let own = a.reel;
    let others = b.reel;
    let far = a.progress;
    let further = b.progress;
    team_alike::same_team_board(one, other) & same_reel(own, others) & same_progress(far, further)
}

pub fn start_number(answer: StartAnswer) -> u8 {
    match answer {
        StartAnswer::Started => 0,
        StartAnswer::Refused(why) => why.number(),
    }
}

pub fn same_start(a: Start, b: Start) -> bool {
    let one = a.rewind;
    let other = b.rewind;
    let first = a.answer;
    let second = b.answer;
    same_rewind(one, other) & (start_number(first) == start_number(second))
}

pub fn go_number(answer: GoAnswer) -> u8 {
    match answer {
        GoAnswer::Ended => 0,
        GoAnswer::Going => 255,
        GoAnswer::Refused(why) => why.number(),
    }
}

pub fn same_go(a: Go, b: Go) -> bool {
    let one = a.rewind;
    let other = b.rewind;
    let first = a.answer;
    let second = b.answer;
    same_rewind(one, other) & (go_number(first) == go_number(second))
}
