// How many events a body has, by calls on lent memory, for C and Rust programs to link. A library of its own, as count_each is.
#![tactic(auto)]

ghost use Rattle.std.specs.Prelude.{◌≡◌};
ghost use Rattle.count.specs.Count.{version_if, event_count};

use state::{Memory, Reader};

const MOST: u64 = 4611686018427387904;

// The number of events before finish or a refusal, read one event a call on lent memory; second says that the version is 2.
pub fn jolzerv_count_lent(second: bool, body: &[u8]) -> u64
    ensures { result ≡ event_count (version_if second) body.now }
{
    let reader = Reader::empty(count::version_if(second));
    let mut m = Memory::of(reader.entries);
    let mut scalars = reader.scalars;
    let mut at: usize = 0;
    let mut count: u64 = 0;
    while count < MOST {
        let o = lent::read_plain(scalars, &mut m, &body[at..], true);
        let answer = o.answer;
        let Some(used) = count::event_used(answer) else {
            return count;
        };
        at = count::past(at, used, body.len());
        let next = o.scalars;
        scalars = next;
        count += 1;
    }
    count
}
