// Numbers as arguments of a program.
#![tactic(auto)]

ghost use Rattle.std.specs.Prelude.{◌≡◌, ◌≤◌, ◌&&◌, leb};
ghost use Rattle.number_args.specs.Numbers.{is_digit, with_digit, number_in};

// Whether a byte is a digit that the number may have behind it.
fn goes_on(n: u32, byte: u8) -> bool
    requires { n ≤ 2147483647 }
    ensures { result ≡ (is_digit byte && leb (with_digit n byte) 2147483647) }
{
    byte.is_ascii_digit() && n <= 214748364 && 10 * n + (byte - b'0') as u32 <= 2147483647
}

// Decimal digits, one at least, 2147483647 at most.
pub fn number_in(text: &[u8]) -> Option<i32>
    ensures { result ≡ number_in text.now }
{
    if text.is_empty() {
        return None;
    }
    let mut n: u32 = 0;
    for &byte in text {
        if !goes_on(n, byte) {
            return None;
        }
        n = 10 * n + (byte - b'0') as u32;
    }
    Some(n as i32)
}
