// What is asked of a reader by value, beside reading (raw.rs, Reader): an empty one, whether it is good, lookups, the clients seen.
#![tactic(auto)]

ghost use Rattle.std.specs.Prelude.{◌≡◌, pos, ◌+ℤ◌};
ghost use Rattle.state.specs.State.{good_reader};
ghost use Rattle.lookups.specs.Lookups.{pos_of, input_for};
ghost use Rattle.queries.specs.Wanted.{WantedIs};

use lookups::Pos;
use refusal::Refusal;
use state::Reader;

// An empty reader in a version, or refusal 2.
pub fn wanted(version: i32) -> Result<Reader, Refusal>
    ensures { WantedIs version result }
{
    let v = kinds::version_of(version)?;
    Ok(Reader::empty(v))
}

// Whether the reader is not refused 17.
pub fn is_good(reader: Reader) -> bool
    ensures { result ≡ good_reader reader }
{
    let scalars = reader.scalars;
    let entries = reader.entries;
    good_reader::good_state(
        scalars,
        &entries.marks,
        &entries.xs,
        &entries.ys,
        &entries.held,
        &entries.inputs,
    )
}

// The position of a client, or none.
pub fn player_pos(reader: Reader, cid: i32) -> Option<Pos>
    ensures { result ≡ pos_of reader.entries cid }
{
    let entries = reader.entries;
    lookups::player_pos(entries, cid)
}

// The ten input numbers of a client, or none.
pub fn input(reader: Reader, cid: i32) -> Option<[i32; 10]>
    ensures { result ≡ input_for reader.entries cid }
{
    let entries = reader.entries;
    lookups::input(entries, cid)
}

// The end of the range of clients seen, from 0: the largest client + 1, which may be 2147483648.
pub fn cids(reader: Reader) -> i64
    ensures { result ≡ reader.scalars.largest +ℤ pos 1 }
{
    let scalars = reader.scalars;
    scalars.largest as i64 + 1
}
