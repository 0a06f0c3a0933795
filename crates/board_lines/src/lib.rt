// The lines of a board that was rewound, written into a lent buffer at a place.
#![tactic(auto)]

ghost use Rattle.std.specs.Prelude.{◌≡◌, ℕ, ◌+◌, ◌*◌, ◌≤◌, ◌<◌, cond, List, [], ◌∷◌, eqb, leb, ℤ, pos, length};
ghost use Rattle.state.specs.State.{present, holds, ten_of, entries_with};
ghost use Rattle.teams.specs.Teams.{has_team};
ghost use Rattle.lines.specs.Lines.{plain_line, input_word, longest, text_answer, text_target};
ghost use Rattle.lines.specs.steps.Puts.{PutsText};
ghost use Rattle.board_lines.specs.BoardLines.{
  player_word,
  tick_line,
  player_line,
  input_line,
  team_line,
  lines_below,
  board_text,
  rewound_text,
  gone_line,
  gone_text,
  longest_board,
};

use back::TeamBoard;
use going::GoAnswer;
use lines::Ending;
use refusal::Refusal;
use rewinding::{RewindAnswer, Rewound};

fn put_tick(tick: Option<i32>, out: &mut [u8], at: usize) -> usize
    requires { at + 18 ≤ length out.old }
    ensures { PutsText out.old at (tick_line tick) result out.new }
{
    match tick {
        Some(t) => row_lines::past_or(lines::write_plain(b"board", &[t], out, at), at),
        None => row_lines::past_or(text_writer::write_raw(b"board -\n", out, at), at),
    }
}

// The line of a player that is present, else none.
fn put_player(mark: u8, c: usize, x: i32, y: i32, out: &mut [u8], at: usize) -> usize
    requires { (c < 128) × (at + 43 ≤ length out.old) }
    ensures { PutsText out.old at (cond (eqb mark 1) (plain_line player_word (pos c ∷ x ∷ y ∷ [])) []) result out.new }
{
    if mark != 1 {
        return at;
    }
    let client = c as i32;
    row_lines::past_or(lines::write_plain(b"player", &[client, x, y], out, at), at)
}

// The lines of all players present.
fn put_players(
    marks: &[u8; 128],
    xs: &[i32; 128],
    ys: &[i32; 128],
    out: &mut [u8],
    at: usize,
) -> usize
    requires { at + 128 * 43 ≤ length out.old }
    ensures { (held : List ℕ) (inputs : List ℤ) → let e = entries_with marks.now xs.now ys.now held inputs in
        PutsText out.old at (lines_below 128 (present e) (player_line e)) result out.new }
{
    let mut next = at;
    for c in 0..128 {
        next = put_player(marks[c], c, xs[c], ys[c], out, next);
    }
    next
}

// The line of a client's inputs if it has them, else none.
fn put_input(held: u8, c: usize, inputs: &[i32; 1280], out: &mut [u8], at: usize) -> usize
    requires { (c < 128) × (at + 138 ≤ length out.old) }
    ensures { PutsText out.old at (cond (eqb held 1) (plain_line input_word (pos c ∷ ten_of inputs.now c)) []) result out.new }
{
    if held != 1 {
        return at;
    }
    let ten = inputs::ten_at(inputs, c);
    row_lines::past_or(lines::write_input(c as i32, &ten, out, at), at)
}

// The lines of all that have inputs.
fn put_inputs(held: &[u8; 128], inputs: &[i32; 1280], out: &mut [u8], at: usize) -> usize
    requires { at + 128 * 138 ≤ length out.old }
    ensures { (marks : List ℕ) (xs ys : List ℤ) → let e = entries_with marks xs ys held.now inputs.now in
        PutsText out.old at (lines_below 128 (holds e) (input_line e)) result out.new }
{
    let mut next = at;
    for c in 0..128 {
        next = put_input(held[c], c, inputs, out, next);
    }
    next
}

// The line of a client's team if it has one, else none.
fn put_team(c: usize, teams: &[i32; 256], out: &mut [u8], at: usize) -> usize
    requires { (c < 128) × (at + 29 ≤ length out.old) }
    ensures { PutsText out.old at (cond (has_team teams.now c) (team_line teams.now c) []) result out.new }
{
    let client = c as i32;
    let Some(n) = teams::team_of(teams, client) else {
        return at;
    };
    row_lines::past_or(lines::write_plain(b"team", &[client, n], out, at), at)
}

// The lines of all that have a team.
fn put_teams(teams: &[i32; 256], out: &mut [u8], at: usize) -> usize
    requires { at + 128 * 29 ≤ length out.old }
    ensures { PutsText out.old at (lines_below 128 (has_team teams.now) (team_line teams.now)) result out.new }
{
    let mut next = at;
    for c in 0..128 {
        next = put_team(c, teams, out, next);
    }
    next
}

fn put_board(board: TeamBoard, out: &mut [u8], at: usize) -> usize
    requires { at + longest_board ≤ length out.old }
    ensures { PutsText out.old at (board_text board) result out.new }
{
    let teams = board.teams;
    let plain = board.board;
    let tick = plain.tick;
    let entries = plain.entries;
    let marks = entries.marks;
    let xs = entries.xs;
    let ys = entries.ys;
    let held = entries.held;
    let inputs = entries.inputs;
    let past_tick = put_tick(tick, out, at);
    let past_players = put_players(&marks, &xs, &ys, out, past_tick);
    let past_inputs = put_inputs(&held, &inputs, out, past_players);
    put_teams(&teams, out, past_inputs)
}

// The last line: whether the copy stands at its tick, is still going there, or why not.
fn put_end(answer: GoAnswer, out: &mut [u8], at: usize) -> usize
    requires { at + longest ≤ length out.old }
    ensures { PutsText out.old at (gone_line answer) result out.new }
{
    match answer {
        GoAnswer::Ended => row_lines::past_or(text_writer::write_raw(b"ended\n", out, at), at),
        GoAnswer::Going => row_lines::past_or(text_writer::write_raw(b"going\n", out, at), at),
        GoAnswer::Refused(why) => row_lines::past_or(
            lines::write_last(Ending::Refused(why), out, at),
            at,
        ),
    }
}

// The copy and the last line.
fn put_gone(answer: GoAnswer, board: TeamBoard, out: &mut [u8], at: usize) -> usize
    requires { at + longest_board ≤ length out.old }
    ensures { PutsText out.old at (gone_text answer board) result out.new }
{
    let next = put_board(board, out, at);
    put_end(answer, out, next)
}

fn put_rewound(answer: RewindAnswer, board: TeamBoard, out: &mut [u8], at: usize) -> usize
    requires { at + longest_board ≤ length out.old }
    ensures { PutsText out.old at (rewound_text answer board) result out.new }
{
    match answer {
        RewindAnswer::Ended => put_gone(GoAnswer::Ended, board, out, at),
        RewindAnswer::Refused(why) => put_end(GoAnswer::Refused(why), out, at),
    }
}

// Whether behind the place there is room for the longest text.
fn has_longest(len: usize, at: usize) -> bool
    ensures { result ≡ leb (at + longest_board) len }
{
    at <= len && 27036 <= len - at
}

// The text of a rewind's answer. Refused 9, with nothing changed, where the longest text wouldn't fit.
pub fn write_rewound(rewound: Rewound, out: &mut [u8], at: usize) -> Result<usize, Refusal>
    ensures answer { result ≡ text_answer longest_board out.old at (rewound_text rewound.answer rewound.board) }
    ensures target { out.new ≡ text_target longest_board out.old at (rewound_text rewound.answer rewound.board) }
{
    let answer = rewound.answer;
    let board = rewound.board;
    if has_longest(out.len(), at) {
        return Ok(put_rewound(answer, board, out, at));
    }
    Err(Refusal::ShortTarget)
}

// The text of a call that goes on with a rewind: its copy, in a refusal too, and how it stands. Refused 9 as above.
pub fn write_gone(
    answer: GoAnswer,
    board: TeamBoard,
    out: &mut [u8],
    at: usize,
) -> Result<usize, Refusal>
    ensures answer { result ≡ text_answer longest_board out.old at (gone_text answer board) }
    ensures target { out.new ≡ text_target longest_board out.old at (gone_text answer board) }
{
    if has_longest(out.len(), at) {
        return Ok(put_gone(answer, board, out, at));
    }
    Err(Refusal::ShortTarget)
}
