// The lines of a results list, written into a lent buffer at a place.
#![tactic(auto)]

ghost use Rattle.std.specs.Prelude.{◌≡◌, ◌+◌, ◌*◌, ◌≤◌, leb, length};
ghost use Rattle.lines.specs.Lines.{decimal_digits, newline};
ghost use Rattle.lines.specs.steps.Puts.{PutsText};
ghost use Rattle.results.specs.Results.{finish};
ghost use Rattle.result_lines.specs.ResultLines.{row_line, row_lines, others_line, list_text, longest_list, WritesList};
ghost use Rattle.result_lines.specs.steps.Rows.{rows_in};

use lines::Ending;
use refusal::Refusal;
use results::Results;

// The digits of n and the line's end. They are made from the last to the first.
fn put_number(n: u64, out: &mut [u8], at: usize) -> usize
    requires { at + 21 ≤ length out.old }
    ensures { PutsText out.old at (decimal_digits 20 n newline) result out.new }
{
    let mut bytes = [b'\n'; 21];
    let mut from = 20;
    let mut left = n;
    while 9 < left {
        from -= 1;
        bytes[from] = 48 + (left % 10) as u8;
        left /= 10;
    }
    from -= 1;
    bytes[from] = 48 + left as u8;
    row_lines::past_or(text_writer::write_raw(&bytes[from..], out, at), at)
}

// The line of the others' finishes.
fn put_others(n: u64, out: &mut [u8], at: usize) -> usize
    requires { at + 28 ≤ length out.old }
    ensures { PutsText out.old at (others_line n) result out.new }
{
    let next = row_lines::past_or(text_writer::write_raw(b"others ", out, at), at);
    put_number(n, out, next)
}

// The line of a row.
fn put_row(client: i32, time: i32, tick: i32, out: &mut [u8], at: usize) -> usize
    requires { at + 40 ≤ length out.old }
    ensures { PutsText out.old at (row_line (finish client time tick)) result out.new }
{
    row_lines::past_or(
        lines::write_plain(b"row", &[client, time, tick], out, at),
        at,
    )
}

// The lines of the first rows of three arrays.
fn put_rows(
    clients: &[i32; 128],
    times: &[i32; 128],
    ticks: &[i32; 128],
    count: usize,
    out: &mut [u8],
    at: usize,
) -> usize
    requires { (count ≤ 128) × (at + 40 * count ≤ length out.old) }
    ensures { PutsText out.old at (row_lines (rows_in count clients.now times.now ticks.now)) result out.new }
{
    let mut next = at;
    for i in 0..count {
        next = put_row(clients[i], times[i], ticks[i], out, next);
    }
    next
}

// The text of a list whose rows are the first of three arrays.
fn put_text(
    clients: &[i32; 128],
    times: &[i32; 128],
    ticks: &[i32; 128],
    count: usize,
    others: u64,
    ending: Ending,
    out: &mut [u8],
    at: usize,
) -> usize
    requires { (count ≤ 128) × (at + longest_list ≤ length out.old) }
    ensures { PutsText out.old at (list_text (rows_in count clients.now times.now ticks.now) others ending) result out.new }
{
    let past_rows = put_rows(clients, times, ticks, count, out, at);
    let past_others = put_others(others, out, past_rows);
    row_lines::past_or(lines::write_last(ending, out, past_others), past_others)
}

// Whether behind the place there is room for the longest text of a list.
fn has_longest(len: usize, at: usize) -> bool
    ensures { result ≡ leb (at + longest_list) len }
{
    at <= len && 5286 <= len - at
}

// The text of a list: its rows in order, the number of others' finishes, the last line. Refused 9, with nothing changed, where the longest
// text wouldn't fit.
pub fn write_list(
    list: Results,
    ending: Ending,
    out: &mut [u8],
    at: usize,
) -> Result<usize, Refusal>
    ensures { WritesList list ending out.old at result out.new }
{
    let mut clients = [0i32; 128];
    let mut times = [0i32; 128];
    let mut ticks = [0i32; 128];
    let others = list.others;
    // before the test of the room: the promise tells of an order also where nothing is written
    let count = ranking::rank(list, &mut clients, &mut times, &mut ticks);
    if has_longest(out.len(), at) {
        return Ok(put_text(&clients, &times, &ticks, count, others, ending, out, at));
    }
    Err(Refusal::ShortTarget)
}
