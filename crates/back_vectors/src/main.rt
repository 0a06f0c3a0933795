// Steps back that no body gives: a line for each case, its name and the answer. Refusals 17 and 19, each beside a step that passes; a
// refusal is to leave the board as it was. After a step back stand the tick (0, or 1 and the tick) and the entries of client 5: mark, x, y,
// mark of the input, its first and last number; behind a PlayerTeam, or where client 5 has a team, a line with the mark and the number of its
// team entry.
// Standard input holds cases one behind the other, each after its length in a byte: the length of its name, the name, and the event's kind
// (0 start, 1 end, 2 record, 3 new, 4 change, 5 old, 6 input with former numbers, 7 without, 8 PlayerTeam with a former team, 9 without), in
// a tick or not, the tick, client 5 there or not, the event's three numbers, of which the second of an input is the place of a number to change
// and the third of a PlayerTeam the former team; where client 5 is not there, the entries, as alike::entries_in takes them; teams, as
// team_alike::teams_in takes them, or none. A number is 100 more than it stands for.
#![tactic(auto)]

use back::{BackAnswer, Board, TeamBoard};
use item::Item;
use kinds::Version;
use state::{Entries, Event, Reader};
use texts::Text;

const STDOUT_FILENO: i32 = 1;

fn say(text: &[u8]) {
    io::write_all(STDOUT_FILENO, text);
}

fn print(text: Text) {
    let bytes = text.bytes;
    say(cases::window(&bytes, 0, text.len));
}

// ---- what a case holds

fn signed(b: u8) -> i32 {
    b as i32
}

fn event_of(kind: u8, a: i32, x: i32, y: i32) -> Event {
    match kind {
        0 => Event::TickStart(a),
        1 => Event::TickEnd(a),
        2 => Event::Record(Item::Join { cid: a }),
        3 => Event::PlayerNew { cid: a, x, y },
        4 => Event::PlayerChange {
            cid: a,
            x,
            y,
            old_x: 30,
            old_y: -40,
        },
        5 => Event::PlayerOld {
            cid: a,
            x: 30,
            y: -40,
        },
        6 => Event::Input {
            cid: a,
            former: true,
        },
        7 => Event::Input {
            cid: a,
            former: false,
        },
        _ => Event::Record(Item::PlayerTeam { cid: a, team: x }),
    }
}

fn event_in(s: &[u8]) -> Event {
    event_of(
        cases::byte(s, 0),
        cases::number(s, 4),
        cases::number(s, 5),
        cases::number(s, 6),
    )
}

// The former team beside the event.
fn former_in(s: &[u8]) -> Option<i32> {
    if cases::byte(s, 0) == 8 {
        return Some(cases::number(s, 6));
    }
    None
}

fn tick_in(s: &[u8]) -> Option<i32> {
    if cases::byte(s, 1) == 1 {
        return Some(cases::number(s, 2));
    }
    None
}

const TEN: [i32; 10] = [1, 2, 3, 4, 5, 6, 7, 8, 9, 10];

// Client 5 is at 10, 20 and has the input 1 to 10.
fn five() -> Entries {
    let reader = Reader::empty(Version::V1);
    let mut entries = reader.entries;
    entries.marks[5] = 1;
    entries.xs[5] = 10;
    entries.ys[5] = 20;
    entries.held[5] = 1;
    inputs::put_ten_at(&mut entries.inputs, 5, TEN);
    entries
}

fn entries_in(s: &[u8]) -> Entries {
    if cases::byte(s, 3) == 1 {
        return five();
    }
    alike::entries_in(cases::window(s, 7, s.len()))
}

fn teams_in(s: &[u8]) -> [i32; 256] {
    if cases::byte(s, 3) == 1 {
        return team_alike::teams_in(cases::window(s, 7, s.len()));
    }
    team_alike::teams_in(cases::window(s, 14, s.len()))
}

// The numbers of client 5's input, of which one may be another.
fn ten_in(s: &[u8]) -> [i32; 10] {
    let mut ten = TEN;
    let k = cases::size(cases::byte(s, 5));
    if k < 10 {
        ten[k] = 99;
    }
    ten
}

// ---- stepping back

fn tick_numbers(tick: Option<i32>) -> [i32; 2] {
    match tick {
        Some(t) => [1, t],
        None => [0, 0],
    }
}

fn say_board(board: Board) {
    let tick = board.tick;
    let entries = board.entries;
    let t = tick_numbers(tick);
    let ns = [
        t[0],
        t[1],
        signed(entries.marks[5]),
        entries.xs[5],
        entries.ys[5],
        signed(entries.held[5]),
        entries.inputs[50],
        entries.inputs[59],
    ];
    print(texts::plain(b" back", &ns));
}

fn say_team(teams: [i32; 256], always: bool) {
    if always | (teams[10] != 0) {
        print(texts::plain(b" team", &[teams[10], teams[11]]));
    }
}

fn say_whole(board: TeamBoard, of_team: bool) {
    let plain = board.board;
    let teams = board.teams;
    say_board(plain);
    say_team(teams, of_team);
}

fn step(board: TeamBoard, event: Event, input: [i32; 10], team: Option<i32>, of_team: bool) {
    let stepped = stepping::step_back(board, event, input, [11; 10], team);
    let answer = stepped.answer;
    let before = stepped.board;
    match answer {
        BackAnswer::Back => say_whole(before, of_team),
        BackAnswer::Refused(r) => {
            say(b" ");
            print(texts::refused(r));
            if !team_alike::same_team_board(board, before) {
                say(b"the board is changed\n");
            }
        }
    }
}

fn step_case(s: &[u8]) {
    let tick = tick_in(s);
    let entries = entries_in(s);
    let board = TeamBoard {
        board: Board { tick, entries },
        teams: teams_in(s),
    };
    step(
        board,
        event_in(s),
        ten_in(s),
        former_in(s),
        8 <= cases::byte(s, 0),
    );
}

fn run_case(case: &[u8]) {
    say(cases::name(case));
    step_case(cases::behind_name(case));
}

fn main() {
    let mut buf = io::large_buffer();
    let n = io::read_full(0, &mut buf);
    for k in 0..cases::count(&buf[..n], 1) {
        run_case(cases::nth(&buf[..n], 1, k));
    }
}
