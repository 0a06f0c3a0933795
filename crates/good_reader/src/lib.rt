// The test of a reader (refusal 17): its scalars, and its entries by crate good.
#![tactic(auto)]

ghost use Rattle.std.specs.Prelude.{◌≡◌};
ghost use Rattle.std.specs.Int.Signed.{le_z};
ghost use Rattle.state.specs.State.{entries_with, good_pending, good_scalars, reader_with, good_reader};
ghost use Rattle.state.specs.steps.Parts.{good_kind};

use kinds::{Kind, Version};
use state::{Memory, Scalars};

fn at_least(low: i32, x: i32) -> bool
    ensures { result ≡ le_z low x }
{
    low <= x
}

fn good_kind(version: Version, kind: Kind) -> bool
    ensures { result ≡ good_kind version kind }
{
    match kind {
        Kind::PlayerDiff(cid) => at_least(0, cid),
        Kind::Ex => matches!(version, Version::V2),
        _ => true,
    }
}

fn good_pending(version: Version, pending: Option<Kind>) -> bool
    ensures { result ≡ good_pending version pending }
{
    let Some(kind) = pending else {
        return true;
    };
    good_kind(version, kind)
}

pub fn good_scalars(s: Scalars) -> bool
    ensures { result ≡ good_scalars s }
{
    let tick = s.tick;
    let largest = s.largest;
    let pending = s.pending;
    let version = s.version;
    good::both(
        at_least(0, tick),
        good::both(at_least(-1, largest), good_pending(version, pending)),
    )
}

// The test of a reader whose entries are lent.
pub fn good_state<'a>(
    s: Scalars,
    marks: &'a [u8; 128],
    xs: &'a [i32; 128],
    ys: &'a [i32; 128],
    held: &'a [u8; 128],
    inputs: &'a [i32; 1280],
) -> bool
    ensures { result ≡ good_reader (reader_with s (entries_with marks.now xs.now ys.now held.now inputs.now)) }
{
    good::both(
        good_scalars(s),
        good::good_lent(marks, xs, ys, held, inputs),
    )
}

// The test of a reader whose memory is lent.
pub fn good_memory(s: Scalars, m: &Memory) -> bool
    ensures { result ≡ good_reader (reader_with s m.now.entries) }
{
    good_state(
        s,
        &m.entries.marks,
        &m.entries.xs,
        &m.entries.ys,
        &m.entries.held,
        &m.entries.inputs,
    )
}
