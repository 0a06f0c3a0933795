// The lines of the replay program, written into a lent buffer at a place.
#![tactic(auto)]

ghost use Rattle.std.specs.Prelude.{◌≡◌, ◌+◌, ◌*◌, ◌/◌, ◌%◌, ◌≤◌, ◌<◌, [], ◌∷◌, ◌++◌, leb, length};
ghost use Rattle.lines.specs.Lines.{
  natural,
  spaced,
  decimals,
  newline,
  input_word,
  plain_line,
  plain_most,
  record_line,
  last_line,
  longest,
  text_answer,
  text_target,
  line_answer,
  line_target,
};
ghost use Rattle.lines.specs.steps.Puts.{PutsText};

use refusal::Refusal;

// How a replay ends.
#[derive(Clone, Copy)]
pub enum Ending {
    Finish,
    Refused(Refusal),
    TooLong,
}

// The two digits of a number below 100, a 0 before one that has only one.
fn put_pair(n: u32, out: &mut [u8], at: usize) -> usize
    requires { (n < 100) × (at + 2 ≤ length out.old) }
    ensures { PutsText out.old at ((48 + n / 10) ∷ (48 + n % 10) ∷ []) result out.new }
{
    // two bytes as one number: the compiler stores them at once
    let both = 12336 + 256 * (n % 10) + n / 10;
    out[at] = (both % 256) as u8;
    out[at + 1] = (both / 256) as u8;
    at + 2
}

// A number below 100.
fn put_two(n: u32, out: &mut [u8], at: usize) -> usize
    requires { (n < 100) × (at + length (natural n) ≤ length out.old) }
    ensures { PutsText out.old at (natural n) result out.new }
{
    if 9 < n {
        return put_pair(n, out, at);
    }
    out[at] = 48 + n as u8;
    at + 1
}

// Two pairs: the four digits of a number below 10000.
fn put_pairs(n: u32, out: &mut [u8], at: usize) -> usize
    requires { (n < 10000) × (at + 4 ≤ length out.old) }
    ensures { PutsText out.old at ((48 + n / 100 / 10) ∷ (48 + n / 100 % 10) ∷ (48 + n % 100 / 10) ∷ (48 + n % 100 % 10) ∷ []) result out.new }
{
    let next = put_pair(n / 100, out, at);
    put_pair(n % 100, out, next)
}

// A number below 10000.
fn put_four(n: u32, out: &mut [u8], at: usize) -> usize
    requires { (n < 10000) × (at + length (natural n) ≤ length out.old) }
    ensures { PutsText out.old at (natural n) result out.new }
{
    if 99 < n {
        let next = put_two(n / 100, out, at);
        return put_pair(n % 100, out, next);
    }
    put_two(n, out, at)
}

// The digits of n. Most numbers have at most four.
fn put_natural(n: u32, out: &mut [u8], at: usize) -> usize
    requires { at + length (natural n) ≤ length out.old }
    ensures { PutsText out.old at (natural n) result out.new }
{
    if n < 10000 {
        return put_four(n, out, at);
    }
    if n < 100000000 {
        let next = put_four(n / 10000, out, at);
        return put_pairs(n % 10000, out, next);
    }
    let next = put_two(n / 100000000, out, at);
    let more = put_pairs(n / 10000 % 10000, out, next);
    put_pairs(n % 10000, out, more)
}

// A space and a number.
fn put_spaced(value: i32, out: &mut [u8], at: usize) -> usize
    requires { at + length (spaced value) ≤ length out.old }
    ensures { PutsText out.old at (spaced value) result out.new }
{
    out[at] = b' ';
    if value < 0 {
        out[at + 1] = b'-';
        return put_natural((!value) as u32 + 1, out, at + 2);
    }
    put_natural(value as u32, out, at + 1)
}

// Numbers, a space before each.
fn put_numbers(ns: &[i32], out: &mut [u8], at: usize) -> usize
    requires { at + length (decimals ns.now) ≤ length out.old }
    ensures { PutsText out.old at (decimals ns.now) result out.new }
{
    let mut next = at;
    for n in ns {
        next = put_spaced(*n, out, next);
    }
    next
}

// A word.
fn put_word(word: &[u8], out: &mut [u8], at: usize) -> usize
    requires { at + length word.now ≤ length out.old }
    ensures { PutsText out.old at word.now result out.new }
{
    let Ok(next) = text_writer::write_raw(word, out, at) else {
        return at;
    };
    next
}

// Numbers and the line's end.
fn put_end(ns: &[i32], out: &mut [u8], at: usize) -> usize
    requires { at + length (decimals ns.now ++ newline) ≤ length out.old }
    ensures { PutsText out.old at (decimals ns.now ++ newline) result out.new }
{
    let end = put_numbers(ns, out, at);
    out[end] = b'\n';
    end + 1
}

// A line: a word and numbers.
fn put_line(word: &[u8], ns: &[i32], out: &mut [u8], at: usize) -> usize
    requires { at + length (plain_line word.now ns.now) ≤ length out.old }
    ensures { PutsText out.old at (plain_line word.now ns.now) result out.new }
{
    let next = put_word(word, out, at);
    put_end(ns, out, next)
}

// The line of an input.
fn put_input(cid: i32, ten: &[i32], out: &mut [u8], at: usize) -> usize
    requires { at + (18 + 12 * length ten.now) ≤ length out.old }
    ensures { PutsText out.old at (plain_line input_word (cid ∷ ten.now)) result out.new }
{
    let a = put_word(b"input", out, at);
    let b = put_spaced(cid, out, a);
    put_end(ten, out, b)
}

// The line of a record: its kind's number, and the client or `-`.
fn put_record(number: i32, cid: Option<i32>, out: &mut [u8], at: usize) -> usize
    requires { at + longest ≤ length out.old }
    ensures { PutsText out.old at (record_line number cid) result out.new }
{
    match cid {
        Some(client) => put_line(b"record", &[number, client], out, at),
        None => {
            let a = put_word(b"record", out, at);
            let b = put_spaced(number, out, a);
            put_word(b" -\n", out, b)
        }
    }
}

// Whether behind the place there is room for a word of so many bytes, so many numbers at their longest and the line's end.
fn has_room(len: usize, at: usize, word: usize, numbers: usize) -> bool
    ensures { result ≡ leb (at + (word + 12 * numbers + 1)) len }
{
    if len < at {
        return false;
    }
    if (len - at) / 12 < numbers {
        return false;
    }
    word < len - at - 12 * numbers
}

// Whether behind the place there is room for the longest line: `input` and eleven numbers.
pub fn has_longest(len: usize, at: usize) -> bool
    ensures { result ≡ leb (at + longest) len }
{
    has_room(len, at, 5, 11)
}

// A word and numbers into the target, at a place. Refused 9, with nothing changed, where they wouldn't fit with each number at its longest.
pub fn write_plain(word: &[u8], ns: &[i32], out: &mut [u8], at: usize) -> Result<usize, Refusal>
    ensures answer { result ≡ text_answer (plain_most word.now ns.now) out.old at (plain_line word.now ns.now) }
    ensures target { out.new ≡ text_target (plain_most word.now ns.now) out.old at (plain_line word.now ns.now) }
{
    if has_room(out.len(), at, word.len(), ns.len()) {
        return Ok(put_line(word, ns, out, at));
    }
    Err(Refusal::ShortTarget)
}

// The line of an input into the target, at a place. Refused 9, with nothing changed, where it wouldn't fit with each number at its longest.
pub fn write_input(cid: i32, ten: &[i32], out: &mut [u8], at: usize) -> Result<usize, Refusal>
    ensures answer { result ≡ text_answer (plain_most input_word (cid ∷ ten.now)) out.old at (plain_line input_word (cid ∷ ten.now)) }
    ensures target { out.new ≡ text_target (plain_most input_word (cid ∷ ten.now)) out.old at (plain_line input_word (cid ∷ ten.now)) }
{
    if has_room(out.len(), at, 17, ten.len()) {
        return Ok(put_input(cid, ten, out, at));
    }
    Err(Refusal::ShortTarget)
}

// The line of a record into the target, at a place. Refused 9, with nothing changed, where the longest line wouldn't fit.
pub fn write_record(
    number: i32,
    cid: Option<i32>,
    out: &mut [u8],
    at: usize,
) -> Result<usize, Refusal>
    ensures answer { result ≡ line_answer out.old at (record_line number cid) }
    ensures target { out.new ≡ line_target out.old at (record_line number cid) }
{
    if has_longest(out.len(), at) {
        return Ok(put_record(number, cid, out, at));
    }
    Err(Refusal::ShortTarget)
}

// The last line's bytes.
fn put_last(ending: Ending, out: &mut [u8], at: usize) -> usize
    requires { at + longest ≤ length out.old }
    ensures { PutsText out.old at (last_line ending) result out.new }
{
    match ending {
        Ending::Finish => put_word(b"finish\n", out, at),
        Ending::Refused(refusal) => put_line(b"refused", &[refusal.number() as i32], out, at),
        Ending::TooLong => put_word(b"too long\n", out, at),
    }
}

// The last line into the target, at a place. Refused 9, with nothing changed, where the longest line wouldn't fit.
pub fn write_last(ending: Ending, out: &mut [u8], at: usize) -> Result<usize, Refusal>
    ensures answer { result ≡ line_answer out.old at (last_line ending) }
    ensures target { out.new ≡ line_target out.old at (last_line ending) }
{
    if has_longest(out.len(), at) {
        return Ok(put_last(ending, out, at));
    }
    Err(Refusal::ShortTarget)
}
