// Reading integers of variable length (packer/src/lib.rs, read_int).
#![tactic(auto)]

ghost use Rattle.std.specs.Prelude.{◌≡◌, ◌<◌};
ghost use Rattle.varint.specs.Integers.{weight, digits, amount, sign_of, value_of, is_last, remark_of, read_int};

use refusal::Refusal;

// What stands out in a number's bytes. It never refuses.
#[derive(Clone, Copy)]
pub enum Remark {
    Overlong,
    Padding,
}

// What reading an integer finds: its value, the place past its bytes and a remark; or that the bytes run out.
#[derive(Clone, Copy)]
pub enum IntRead {
    Got {
        value: i32,
        next: usize,
        remark: Option<Remark>,
    },
    RunsOut,
}

// The digits of byte k.
fn digit_bits(k: usize, b: u8) -> u8
    ensures { result ≡ digits k b }
{
    match k {
        0 => b % 64,
        4 => b % 32,
        _ => b % 128,
    }
}

// The weight of byte k's lowest digit.
fn weight_of(k: usize) -> u32
    requires { k < 5 }
    ensures { result ≡ weight k }
{
    match k {
        0 => 1,
        _ => 1u32 << (7 * k - 1) as u32,
    }
}

// What byte k of a number adds to it.
#[tactic(auto, unfolding(crate::specs::Integers::amount))]
fn add_byte(k: usize, b: u8) -> u32
    requires { k < 5 }
    ensures { result ≡ amount k b }
{
    digit_bits(k, b) as u32 * weight_of(k)
}

#[tactic(auto, unfolding(crate::specs::Integers::value_of))]
fn value_of(sign: u8, n: u32) -> i32
    ensures { result ≡ value_of sign n }
{
    if sign == 0 {
        num::signed(n)
    } else {
        num::signed(4294967295 - n)
    }
}

#[tactic(auto, unfolding(crate::specs::Integers::remark_of))]
fn remark_of(k: usize, b: u8) -> Option<Remark>
    ensures { result ≡ remark_of k b }
{
    match (k, b) {
        (0, _) => None,
        (_, 0) => Some(Remark::Overlong),
        (4, 16..) => Some(Remark::Padding),
        _ => None,
    }
}

fn is_last(k: usize, b: u8) -> bool
    ensures { result ≡ is_last k b }
{
    k == 4 || b < 128
}

// The integer at a place of the window, byte by byte.
#[tactic(auto, using(crate::proofs::Laws::none_left))]
fn read_bytes(s: &[u8], at: usize) -> IntRead
    ensures { result ≡ read_int s.now at }
{
    let Some(&first) = s.get(at) else {
        return IntRead::RunsOut;
    };
    let sign = first / 64 % 2;
    let mut n: u32 = 0;
    for (k, &b) in s[at..].iter().enumerate() {
        n += add_byte(k, b);
        if is_last(k, b) {
            return IntRead::Got {
                value: value_of(sign, n),
                next: at + k + 1,
                remark: remark_of(k, b),
            };
        }
    }
    IntRead::RunsOut
}

// The integer of one byte that does not extend.
#[tactic(auto, unfolding(crate::specs::Integers::amount))]
fn short_value(b: u8) -> i32
    requires { b < 128 }
    ensures { result ≡ value_of (sign_of b) (amount 0 b) }
{
    value_of(b / 64, (b % 64) as u32)
}

// The integer at a place of the window. Most have one byte, and that byte says so.
#[tactic(auto, using(crate::proofs::Laws::none_left, crate::proofs::Laws::one_byte))]
pub fn read_int(s: &[u8], at: usize) -> IntRead
    ensures { result ≡ read_int s.now at }
{
    match s.get(at) {
        None => IntRead::RunsOut,
        Some(&b) if b < 128 => IntRead::Got {
            value: short_value(b),
            next: at + 1,
            remark: None,
        },
        Some(_) => read_bytes(s, at),
    }
}
