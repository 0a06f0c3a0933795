// What test programs share. Their inputs stand one behind the other, each after its length in one to three bytes, the low one first.
#![tactic(auto)]

ghost use Rattle.std.specs.Prelude.{◌≡◌, ℕ, ◌+◌, ◌-◌, ◌<◌, ◌≤◌, min, length, get_or, replicate};
ghost use Rattle.std.specs.Int.{w32};
ghost use Rattle.std.proofs.Common.{to_z};
ghost use Rattle.packer.specs.Parts.{part, shown};
ghost use Rattle.cases.specs.Cases.{digit_at, case_at, next_of, part_of, whole_case, place_of, count_to, name_end, number_of};

use packer::{Part, PartRead};

pub fn size(b: u8) -> usize
    ensures { (result ≡ b) × (result < 256) }
{
    usize::from(b)
}

// Byte k of a number of so many bytes at a place; 0 if it has none.
#[tactic(auto, unfolding(crate::specs::Cases::digit_at))]
fn digit_at(s: &[u8], at: usize, width: usize, k: usize) -> usize
    requires { at + width ≤ length s.now }
    ensures { (result ≡ digit_at s.now at width k) × (result < 256) }
{
    if k < width { size(s[at + k]) } else { 0 }
}

// The input whose length begins at a place: its part and the place of the next; RunsOut if no whole one is left.
#[tactic(auto, unfolding(crate::specs::Cases::case_at))]
pub fn case_at(s: &[u8], at: usize, width: usize) -> PartRead
    ensures { result ≡ case_at s.now at width }
{
    if s.len() < at || s.len() - at < width {
        return PartRead::RunsOut;
    }
    let low = digit_at(s, at, width, 0);
    let middle = digit_at(s, at, width, 1);
    let high = digit_at(s, at, width, 2);
    packer::read_raw(s, at + width, low + 256 * middle + 65536 * high)
}

// The place of the next input; the same place where no whole one is left.
fn next_of(at: usize, read: PartRead) -> usize
    ensures { result ≡ next_of at read }
{
    match read {
        PartRead::Got { part: _, next } => next,
        PartRead::RunsOut => at,
    }
}

fn nothing() -> Part
    ensures { result ≡ part 0 0 }
{
    Part { at: 0, len: 0 }
}

fn part_of(read: PartRead) -> Part
    ensures { result ≡ part_of read }
{
    match read {
        PartRead::Got { part, next: _ } => part,
        PartRead::RunsOut => nothing(),
    }
}

fn whole_of(read: PartRead) -> usize
    ensures { (result ≡ whole_case read) × (result ≤ 1) }
{
    match read {
        PartRead::Got { part: _, next: _ } => 1,
        PartRead::RunsOut => 0,
    }
}

// The place of input k, counted from 0.
fn place_of(s: &[u8], width: usize, k: usize) -> usize
    ensures { result ≡ place_of k s.now width }
{
    let mut at: usize = 0;
    for _ in 0..k {
        at = next_of(at, case_at(s, at, width));
    }
    at
}

// How many whole inputs there are.
pub fn count(s: &[u8], width: usize) -> usize
    ensures { result ≡ count_to (length s.now) s.now width }
{
    let mut n: usize = 0;
    let mut at: usize = 0;
    for _ in s {
        let read = case_at(s, at, width);
        n += whole_of(read);
        at = next_of(at, read);
    }
    n
}

// The bytes of input k; none where there are not so many.
pub fn nth(s: &[u8], width: usize, k: usize) -> &[u8]
    ensures { result.now ≡ shown s.now (part_of (case_at s.now (place_of k s.now width) width)) }
{
    packer::show(s, part_of(case_at(s, place_of(s, width, k), width)))
}

// The byte at a place; 0 if there is none.
pub fn byte(s: &[u8], i: usize) -> u8
    ensures { result ≡ get_or s.now i 0 }
{
    s.get(i).copied().unwrap_or(0)
}

// The first byte as a number; 0 if there is none.
pub fn first(s: &[u8]) -> i32
    ensures { result ≡ to_z w32 (get_or s.now 0 0) }
{
    num::signed(u32::from(byte(s, 0)))
}

pub fn difference(a: usize, b: usize) -> usize
    ensures { result ≡ a - b }
{
    a.saturating_sub(b)
}

// The bytes from a place to an end; none where they reach outside.
pub fn window(s: &[u8], at: usize, end: usize) -> &[u8]
    ensures { result.now ≡ shown s.now (part at (end - at)) }
{
    packer::show(
        s,
        Part {
            at,
            len: difference(end, at),
        },
    )
}

// A name behind its length in a byte.
pub fn name(s: &[u8]) -> &[u8]
    ensures { result.now ≡ shown s.now (part 1 (name_end s.now - 1)) }
{
    window(s, 1, name_end(s))
}

// What stands behind a name.
pub fn behind_name(s: &[u8]) -> &[u8]
    ensures { result.now ≡ shown s.now (part (name_end s.now) (length s.now - name_end s.now)) }
{
    window(s, name_end(s), s.len())
}

fn name_end(s: &[u8]) -> usize
    ensures { result ≡ name_end s.now }
{
    past(1, size(byte(s, 0)), s.len())
}

// A number of a byte, 100 more than it; 255 stands for the least.
pub fn number(s: &[u8], i: usize) -> i32
    ensures { result ≡ number_of (get_or s.now i 0) }
{
    small(byte(s, i))
}

fn small(b: u8) -> i32
    ensures { result ≡ number_of b }
{
    if b == 255 {
        return -2147483648;
    }
    num::wrapping_add(num::signed(u32::from(b)), -100)
}

// Room for many inputs in one run.
pub fn buffer() -> [u8; 1048576]
    ensures { (result ≡ replicate {A = ℕ} 1048576 0) × (1048576 ≡ length result) }
{
    [0; 1048576]
}

// The place past the bytes that a call used, at most the end.
pub fn past(at: usize, used: usize, end: usize) -> usize
    ensures { result ≡ min (at + used) end }
{
    at.saturating_add(used).min(end)
}
