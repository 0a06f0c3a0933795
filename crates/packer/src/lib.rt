// Reading strings, data and raw bytes (packer/src/lib.rs, Unpacker). What is read is a place and a length in the caller's window.
#![tactic(auto)]

ghost use Rattle.std.specs.Prelude.{◌≡◌};
ghost use Rattle.packer.specs.Parts.{shown, read_raw, read_string, read_data};

use varint::IntRead;

// A part of the caller's window.
#[derive(Clone, Copy)]
pub struct Part {
    pub at: usize,
    pub len: usize,
}

// A part that was read and the place past what was used for it; or that the bytes run out.
#[derive(Clone, Copy)]
pub enum PartRead {
    Got { part: Part, next: usize },
    RunsOut,
}

// Data that was read, as a part; or that the bytes run out; or that its length has been read and is below 0.
#[derive(Clone, Copy)]
pub enum DataRead {
    Got { part: Part, next: usize },
    RunsOut,
    NegativeLength,
}

// The part's bytes; none where it reaches outside the window.
#[tactic(auto, using(crate::proofs::Reading::part_within, crate::proofs::Reading::part_outside))]
pub fn show(s: &[u8], p: Part) -> &[u8]
    ensures { result.now ≡ shown s.now p }
{
    match s.get(p.at..) {
        Some(rest) if p.len <= rest.len() => &rest[..p.len],
        _ => &s[..0],
    }
}

#[tactic(auto, using(crate::proofs::Reading::raw_fits, crate::proofs::Reading::raw_short))]
pub fn read_raw(s: &[u8], at: usize, n: usize) -> PartRead
    ensures { result ≡ read_raw n s.now at }
{
    match s.get(at..) {
        Some(rest) if n <= rest.len() => PartRead::Got {
            part: Part { at, len: n },
            next: at + n,
        },
        _ => PartRead::RunsOut,
    }
}

pub fn read_string(s: &[u8], at: usize) -> PartRead
    ensures { result ≡ read_string s.now at }
{
    let Some(rest) = s.get(at..) else {
        return PartRead::RunsOut;
    };
    match rest.iter().position(|b| *b == 0) {
        Some(len) => PartRead::Got {
            part: Part { at, len },
            next: at + len + 1,
        },
        None => PartRead::RunsOut,
    }
}

pub fn read_data(s: &[u8], at: usize) -> DataRead
    ensures { result ≡ read_data s.now at }
{
    let IntRead::Got {
        value,
        next: at_part,
        remark: _,
    } = varint::read_int(s, at)
    else {
        return DataRead::RunsOut;
    };
    if value < 0 {
        return DataRead::NegativeLength;
    }
    let PartRead::Got { part, next } = read_raw(s, at_part, value as usize) else {
        return DataRead::RunsOut;
    };
    DataRead::Got { part, next }
}
