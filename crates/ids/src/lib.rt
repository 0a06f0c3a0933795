// The identifiers of the extensions and the magic, and finding them in a window.
#![tactic(auto)]

ghost use Rattle.std.specs.Prelude.{◌≡◌, ◌+◌, ◌-◌, ◌/◌, ◌%◌, ◌^◌, ◌≤◌, ◌<◌, length, take, drop, get_or};
ghost use Rattle.packer.specs.Parts.{shown};
ghost use Rattle.shapes.specs.steps.Shapes.{id_part};
ghost use Rattle.kinds.specs.Magic.{magic, read_magic};
ghost use Rattle.kinds.specs.Views.{magic_is};
ghost use Rattle.extensions.specs.Extensions.{id_at, find};
ghost use Rattle.ids.specs.steps.Table.{big_endian, halves_with, halves, TellsSame};

use extensions::Extension;
use refusal::Refusal;

// 16 bytes as two numbers, which are compared at once; an array would be copied wherever it is used.
#[derive(Clone, Copy)]
pub struct Halves {
    first: u64,
    second: u64,
}

fn halves_with(first: u64, second: u64) -> Halves
    ensures { result ≡ halves_with first second }
{
    Halves { first, second }
}

// The identifiers: the constants of item.rs.
fn id_halves(which: Extension) -> Halves
    ensures { result ≡ halves (id_at which) }
{
    match which {
        Extension::Antibot => halves_with(0x866bfdacfb493c0b, 0xa8875fe1f3ea00b8),
        Extension::AuthInit => halves_with(0x60daba5c52c43aeb, 0xb8bab2953fb55a17),
        Extension::AuthLogin => halves_with(0x37ecd3b892183bb9, 0xa71ba935b86f6a81),
        Extension::AuthLogout => halves_with(0xd4f5abe8edd23fb9, 0xabd81c8bb84f4a63),
        Extension::Ddnetver => halves_with(0x1397b63eee4e3919, 0xb86ab058887fcaf5),
        Extension::DdnetverOld => halves_with(0x41b49541f26f325d, 0x87159baf4b544ef9),
        Extension::Joinver6 => halves_with(0x1899a38271e336da, 0x937dc9de6bb95b1d),
        Extension::Joinver7 => halves_with(0x59239b050540318d, 0xbea49aa1e80e7d2b),
        Extension::PlayerFinish => halves_with(0x68943c0123483e01, 0x94903f27f8269d94),
        Extension::PlayerName => halves_with(0xd016f9b941513b87, 0x87e53a6087eb5f26),
        Extension::PlayerReady => halves_with(0x638587c93f753887, 0x918ea3c2614ffaa0),
        Extension::PlayerRejoin => halves_with(0xc1e921d596f537bb, 0x8a457a06f163d27e),
        Extension::PlayerSwap => halves_with(0x5de9b63349cf3e99, 0x9a25d4a78e9717d7),
        Extension::PlayerTeam => halves_with(0xa111c04e1ea838e0, 0x90b1d7f993ca0da9),
        Extension::TeamFinish => halves_with(0x9588b9af3fdc3760, 0x804382deeee317a5),
        Extension::TeamLoadFailure => halves_with(0xef8905a2c6953591, 0xa1cd53d2015992dd),
        Extension::TeamLoadSuccess => halves_with(0xe05408d3a31333df, 0x9eb3ddb990ab954a),
        Extension::TeamPractice => halves_with(0x5792834e81d134c9, 0xa29bb5ff25dac3bc),
        Extension::TeamSaveFailure => halves_with(0xb29901d512443bd0, 0xbbde23d04b1f7ba9),
        Extension::TeamSaveSuccess => halves_with(0x4560c756da293036, 0x81d490a50f0182cd),
    }
}

// The magic of mod.rs.
fn magic_halves() -> Halves
    ensures { result ≡ halves magic }
{
    halves_with(0x699db17b8efb34ff, 0xb1d8da6f60c15dd1)
}

// Byte j of the eight.
fn byte_of(half: u64, j: usize) -> u8
    requires { j < 8 }
    ensures { result ≡ half / 256 ^ (7 - j) % 256 }
{
    half.to_be_bytes()[j]
}

// A byte of an extension's identifier; 0 past its end.
pub fn id_byte(which: Extension, i: usize) -> u8
    ensures { result ≡ get_or (id_at which) i 0 }
{
    if 16 <= i {
        return 0;
    }
    let id = id_halves(which);
    if i < 8 {
        return byte_of(id.first, i);
    }
    byte_of(id.second, i - 8)
}

// Eight bytes at a place, as a number.
fn word(s: &[u8], at: usize) -> u64
    requires { at + 8 ≤ length s.now }
    ensures { result ≡ big_endian 0 (take 8 (drop at s.now)) }
{
    u64::from_be_bytes([
        s[at],
        s[at + 1],
        s[at + 2],
        s[at + 3],
        s[at + 4],
        s[at + 5],
        s[at + 6],
        s[at + 7],
    ])
}

// Whether the 16 bytes at a place are those of the halves.
fn same_bytes(s: &[u8], at: usize, id: Halves) -> bool
    requires { at + 16 ≤ length s.now }
    ensures { TellsSame (take 16 (drop at s.now)) id result }
{
    word(s, at) == id.first && word(s, at + 8) == id.second
}

// Which of the 20 extensions the 16 bytes at a place name; none if they reach outside the window.
pub fn find_id(s: &[u8], at: usize) -> Option<Extension>
    ensures { result ≡ find (shown s.now (id_part at)) }
{
    if s.len() < at {
        return None;
    }
    if s.len() - at < 16 {
        return None;
    }
    for k in 0..20 {
        let which = extensions::extension_at(k);
        if same_bytes(s, at, id_halves(which)) {
            return Some(which);
        }
    }
    None
}

// The magic call: 16 bytes used, or a refusal.
pub fn read_magic(s: &[u8]) -> Result<usize, Refusal>
    ensures { magic_is result ≡ read_magic s.now }
{
    if s.len() < 16 {
        return Err(Refusal::UnexpectedEnd);
    }
    if same_bytes(s, 0, magic_halves()) {
        return Ok(16);
    }
    Err(Refusal::WrongMagic)
}
