// Writing integers of variable length (packer/src/lib.rs, write_int).
#![tactic(auto)]

ghost use Rattle.std.specs.Prelude.{◌≡◌, ◌<◌, length};
ghost use Rattle.std.specs.Int.Signed.{mag};
ghost use Rattle.varint.specs.Written.{sign_bit, extend, first_byte, later_byte, later_bytes, canonical, written};
ghost use Rattle.varint.specs.steps.Writing.{wrote};

use refusal::Refusal;

// The number without its sign: all 32 bits inverted where it is negative.
fn magnitude(value: i32) -> u32
    ensures { result ≡ mag value }
{
    if value < 0 {
        (!value) as u32
    } else {
        value as u32
    }
}

// The sign bit of a number's first byte.
fn sign_bit(value: i32) -> u8
    ensures { result ≡ sign_bit value }
{
    if value < 0 { 64 } else { 0 }
}

// The extend bit: on where something is left.
fn extend_bit(rest: u32) -> u8
    ensures { result ≡ extend rest }
{
    if rest == 0 { 0 } else { 128 }
}

fn first_byte(value: i32) -> u8
    ensures { result ≡ first_byte value }
{
    let m = magnitude(value);
    (m % 64) as u8 + sign_bit(value) + extend_bit(m / 64)
}

fn later_byte(rest: u32) -> u8
    ensures { result ≡ later_byte rest }
{
    (rest % 128) as u8 + extend_bit(rest / 128)
}

// How many bytes follow the first.
#[tactic(auto, unfolding(varint::specs::Written::later_bytes))]
fn later_count(rest: u32) -> usize
    requires { rest < 268435456 }
    ensures { result ≡ length (later_bytes 4 rest) }
{
    match rest {
        0 => 0,
        1..128 => 1,
        128..16384 => 2,
        16384..2097152 => 3,
        _ => 4,
    }
}

// How many bytes the written form has.
#[tactic(auto, using(varint::proofs::Writing::later_le), unfolding(varint::specs::Written::canonical))]
pub fn int_size(value: i32) -> usize
    ensures { result ≡ length (canonical value) }
{
    1 + later_count(magnitude(value) / 64)
}

// The integer's written form into the target, at a place.
pub fn write_int(value: i32, out: &mut [u8], at: usize) -> Result<usize, Refusal>
    ensures answer { result ≡ wrote out.old at (canonical value) }
    ensures target { out.new ≡ written out.old at (canonical value) }
{
    let count = int_size(value);
    if out.len().saturating_sub(at) < count {
        return Err(Refusal::ShortTarget);
    }
    out[at] = first_byte(value);
    let mut rest = magnitude(value) / 64;
    for i in at + 1..at + count {
        out[i] = later_byte(rest);
        rest /= 128;
    }
    Ok(at + count)
}
