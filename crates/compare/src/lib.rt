// Numbers of entries compared with those of an event.
#![tactic(auto)]

ghost use Rattle.std.specs.Prelude.{◌≡◌, ◌&&◌, eqb};
ghost use Rattle.std.specs.Int.Signed.{non_neg};
ghost use Rattle.state.specs.State.{same_int};
ghost use Rattle.compare.specs.Compare.{same_all};

pub fn same_number(a: i32, b: i32) -> bool
    ensures { result ≡ same_int a b }
{
    a == b
}

pub fn same_ten(a: [i32; 10], b: [i32; 10]) -> bool
    ensures { result ≡ same_all a b }
{
    a == b
}

pub fn not_negative(x: i32) -> bool
    ensures { result ≡ non_neg x }
{
    0 <= x
}

// Whether an entry has mark 1 and the position x, y.
pub fn at_position(mark: u8, px: i32, py: i32, x: i32, y: i32) -> bool
    ensures { result ≡ (eqb mark 1 && (same_int px x && same_int py y)) }
{
    good::both(
        mark == 1,
        good::both(same_number(px, x), same_number(py, y)),
    )
}
