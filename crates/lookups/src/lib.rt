// Lookups in the entries of a reader or a board.
#![tactic(auto)]

ghost use Rattle.std.specs.Prelude.{◌≡◌};
ghost use Rattle.lookups.specs.Lookups.{pos_of, input_for};

use state::Entries;

// A position.
#[derive(Clone, Copy)]
pub struct Pos {
    pub x: i32,
    pub y: i32,
}

// The position of a client, or none.
pub fn player_pos(entries: Entries, cid: i32) -> Option<Pos>
    ensures { result ≡ pos_of entries cid }
{
    let bits = num::bits(cid);
    if 128 <= bits {
        return None;
    }
    let i = bits as usize;
    if entries.marks[i] != 1 {
        return None;
    }
    Some(Pos {
        x: entries.xs[i],
        y: entries.ys[i],
    })
}

// The ten input numbers of a client, or none.
pub fn input(entries: Entries, cid: i32) -> Option<[i32; 10]>
    ensures { result ≡ input_for entries cid }
{
    let bits = num::bits(cid);
    if 128 <= bits {
        return None;
    }
    let i = bits as usize;
    if entries.held[i] != 1 {
        return None;
    }
    Some(inputs::ten_at(&entries.inputs, i))
}
