// Lines of text from rows of numbers.
#![tactic(auto)]

ghost use Rattle.std.specs.Prelude.{◌≡◌, ◌+◌, ◌*◌, ◌-◌, ◌≤◌, length, take, drop, get_or, pos, negsuc, Some};
ghost use Rattle.lines.specs.Lines.{input_word, record_line, longest};
ghost use Rattle.row_lines.specs.steps.RowLines.{past_or, Tries, TriesPlain, cid_told, client_and, record_told, PutsLine, PutsLines};

use refusal::Refusal;

// The place past what was written, else the place itself.
pub fn past_or(wrote: Result<usize, Refusal>, at: usize) -> usize
    ensures { result ≡ past_or wrote at }
{
    match wrote {
        Ok(next) => next,
        Err(_) => at,
    }
}

// A word and the numbers from a place of the rows to another.
fn put_part(word: &[u8], rows: &[i32], from: usize, to: usize, out: &mut [u8], at: usize) -> usize
    requires { (from ≤ to) × (to ≤ length rows.now) }
    ensures { TriesPlain word.now (take (to - from) (drop from rows.now)) out.old at result out.new }
{
    past_or(lines::write_plain(word, &rows[from..to], out, at), at)
}

// The line of an input whose client stands at a place of the rows, and whose ten numbers at a place of the tens.
fn put_input(
    rows: &[i32],
    first: usize,
    tens: &[i32],
    from: usize,
    out: &mut [u8],
    at: usize,
) -> usize
    requires { (first + 1 ≤ length rows.now) × (from + 10 ≤ length tens.now) }
    ensures { TriesPlain input_word (client_and rows.now first tens.now from) out.old at result out.new }
{
    let to = from + 10;
    past_or(
        lines::write_input(rows[first], &tens[from..to], out, at),
        at,
    )
}

// The client of which two numbers tell: whether there is one, and its number.
fn cid_of(has: i32, client: i32) -> Option<i32>
    ensures { result ≡ cid_told has client }
{
    if has == 1 {
        return Some(client);
    }
    None
}

// The line of a record whose kind's number and client stand at a place of the rows.
fn put_record(rows: &[i32], first: usize, out: &mut [u8], at: usize) -> usize
    requires { first + 3 ≤ length rows.now }
    ensures { Tries longest out.old at (record_told rows.now first) result out.new }
{
    let cid = cid_of(rows[first + 1], rows[first + 2]);
    past_or(lines::write_record(rows[first], cid, out, at), at)
}

// The line of a PlayerTeam whose client stands at a place of the rows.
fn put_team(rows: &[i32], first: usize, out: &mut [u8], at: usize) -> usize
    requires { first + 1 ≤ length rows.now }
    ensures { Tries longest out.old at (record_line (negsuc 10) (Some (get_or rows.now first (pos 0)))) result out.new }
{
    let client = rows[first];
    past_or(lines::write_record(-11, Some(client), out, at), at)
}

// The line of event i, from its row and its ten numbers: the place past it.
fn put_row(rows: &[i32], tens: &[i32], i: usize, out: &mut [u8], at: usize) -> usize
    requires { (8 * i + 8 ≤ length rows.now) × (20 * i + 20 ≤ length tens.now) }
    ensures { PutsLine rows.now tens.now i out.old at result out.new }
{
    let event = rows[8 * i];
    let first = 8 * i + 2;
    match event {
        1 => put_part(b"start", rows, first, first + 1, out, at),
        2 => put_part(b"end", rows, first, first + 1, out, at),
        3 => put_part(b"new", rows, first, first + 3, out, at),
        4 => put_part(b"change", rows, first, first + 5, out, at),
        5 => put_part(b"old", rows, first, first + 3, out, at),
        6 => put_input(rows, first, tens, 20 * i, out, at),
        8 => put_team(rows, first, out, at),
        _ => put_record(rows, first, out, at),
    }
}

// The lines of so many events, one behind the other, if there are so many rows: the place past them.
pub fn put_rows(rows: &[i32], tens: &[i32], count: usize, out: &mut [u8]) -> usize
    ensures { PutsLines rows.now tens.now count out.old result out.new }
{
    if rows.len() / 8 < count {
        return 0;
    }
    if tens.len() / 20 < count {
        return 0;
    }
    let mut at = 0;
    for i in 0..count {
        at = put_row(rows, tens, i, out, at);
    }
    at
}
