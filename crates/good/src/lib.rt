// The test of entries (refusal 17): one for every call that is given a reader or a board.
#![tactic(auto)]

ghost use Rattle.std.specs.Prelude.{◌≡◌, ◌&&◌, ◌+◌, ◌*◌, ◌<◌, ◌≤◌, pos};
ghost use Rattle.state.specs.State.{
  same_int,
  entries_with,
  every,
  good_entry,
  good_players,
  ten_zeros,
  good_inputs,
  good_entries,
};
ghost use Rattle.state.specs.steps.Parts.{zero_at, good_input, good_kind};
ghost use Rattle.good.specs.steps.Blocks.{from, no_mark};

use state::Entries;

fn is_zero(x: i32) -> bool
    ensures { result ≡ same_int x (pos 0) }
{
    x == 0
}

pub fn both(a: bool, b: bool) -> bool
    ensures { result ≡ (a && b) }
{
    a & b
}

// No branches here and in `both`, so that the compiled loop over the players tests several at once.
fn good_entry(mark: u8, blank: bool) -> bool
    ensures { result ≡ good_entry mark blank }
{
    (mark == 1) | both(mark == 0, blank)
}

fn good_players(marks: &[u8; 128], xs: &[i32; 128], ys: &[i32; 128]) -> bool
    ensures { result ≡ good_players marks.now xs.now ys.now }
{
    let mut good = true;
    for i in 0..128 {
        let mark = marks[i];
        let x = xs[i];
        let y = ys[i];
        good = both(good_entry(mark, both(is_zero(x), is_zero(y))), good);
    }
    good
}

// Whether n numbers are zeros, from the first one of a client on.
fn zeros(inputs: &[i32; 1280], c: usize, n: usize) -> bool
    requires { 10 * c + n ≤ 1280 }
    ensures { result ≡ every n (zero_at inputs.now c) }
{
    let mut blank = true;
    for k in 0..n {
        let x = inputs[10 * c + k];
        blank = both(is_zero(x), blank);
    }
    blank
}

// The numbers of a client whose mark is 1 aren't looked at.
fn good_input(mark: u8, inputs: &[i32; 1280], c: usize) -> bool
    requires { c < 128 }
    ensures { result ≡ good_entry mark (ten_zeros inputs.now c) }
{
    if mark == 1 {
        return true;
    }
    both(mark == 0, zeros(inputs, c, 10))
}

// The sixteen clients from c on, one by one.
fn good_each(held: &[u8; 128], inputs: &[i32; 1280], c: usize) -> bool
    requires { c + 16 ≤ 128 }
    ensures { result ≡ every 16 (from c (good_input held.now inputs.now)) }
{
    let mut good = true;
    for k in 0..16 {
        let i = c + k;
        let mark = held[i];
        good = both(good_input(mark, inputs, i), good);
    }
    good
}

fn unmarked(held: &[u8; 128], c: usize) -> bool
    requires { c + 16 ≤ 128 }
    ensures { result ≡ every 16 (from c (no_mark held.now)) }
{
    let mut none = true;
    for k in 0..16 {
        let mark = held[c + k];
        none = both(mark == 0, none);
    }
    none
}

// The sixteen clients from c on: where none has a mark, all their numbers at once.
fn good_sixteen(held: &[u8; 128], inputs: &[i32; 1280], c: usize) -> bool
    requires { c + 16 ≤ 128 }
    ensures { result ≡ every 16 (from c (good_input held.now inputs.now)) }
{
    if unmarked(held, c) {
        return zeros(inputs, c, 160);
    }
    good_each(held, inputs, c)
}

fn good_inputs(held: &[u8; 128], inputs: &[i32; 1280]) -> bool
    ensures { result ≡ good_inputs held.now inputs.now }
{
    let mut good = true;
    for b in 0..8 {
        good = both(good_sixteen(held, inputs, 16 * b), good);
    }
    good
}

// The test of entries that are lent.
pub fn good_lent<'a>(
    marks: &'a [u8; 128],
    xs: &'a [i32; 128],
    ys: &'a [i32; 128],
    held: &'a [u8; 128],
    inputs: &'a [i32; 1280],
) -> bool
    ensures { result ≡ good_entries (entries_with marks.now xs.now ys.now held.now inputs.now) }
{
    both(good_players(marks, xs, ys), good_inputs(held, inputs))
}

pub fn good_entries(entries: Entries) -> bool
    ensures { result ≡ good_entries entries }
{
    good_lent(
        &entries.marks,
        &entries.xs,
        &entries.ys,
        &entries.held,
        &entries.inputs,
    )
}
