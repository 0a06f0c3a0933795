// Signed numbers of 32 bits, their bits, and the sum that wraps.
#![tactic(auto)]

ghost use Rattle.std.specs.Prelude.{◌≡◌, ◌+ℤ◌, ◌-ℤ◌, FitsSigned};
ghost use Rattle.std.specs.Int.{w32};
ghost use Rattle.std.proofs.Common.{to_z, of_z};
ghost use Rattle.num.specs.Wrap.{wrap32};

// The bits of x.
pub fn bits(x: i32) -> u32
    ensures { result ≡ of_z w32 x }
{
    x.cast_unsigned()
}

// The number with the bits v.
pub fn signed(v: u32) -> i32
    ensures { result ≡ to_z w32 v }
{
    v.cast_signed()
}

// a + b, modulo 2^32.
pub fn wrapping_add(a: i32, b: i32) -> i32
    ensures value { result ≡ wrap32 (a +ℤ b) }
    ensures fits_signed { FitsSigned w32 result }
{
    a.wrapping_add(b)
}

// a - b, modulo 2^32.
pub fn wrapping_sub(a: i32, b: i32) -> i32
    ensures value { result ≡ wrap32 (a -ℤ b) }
    ensures fits_signed { FitsSigned w32 result }
{
    a.wrapping_sub(b)
}
