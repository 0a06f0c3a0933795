// How many events a body has, by calls of many events, for C and Rust programs to link. A library of its own, as count_each is.
#![tactic(auto)]

ghost use Rattle.std.specs.Prelude.{◌≡◌};
ghost use Rattle.count.specs.Count.{version_if, event_count};
ghost use Rattle.many.specs.Many.{halt_of};
ghost use Rattle.count_many.specs.steps.Ends.{not_full};

use many::Stop;
use teams::TeamReader;

// A call reads 4,096 events: 4611686018427387904 calls in all.
const TURNS: u64 = 1125899906842624;

// Whether something else than the room ended a call.
fn ended(stop: Stop) -> bool
    ensures { result ≡ not_full (halt_of stop) }
{
    !matches!(stop, Stop::Full)
}

// The number of events before finish or a refusal, read 4,096 events a call; second says that the version is 2.
pub fn jolzerv_count_many(second: bool, body: &[u8]) -> u64
    ensures { result ≡ event_count (version_if second) body.now }
{
    let mut rows = [0i32; 32768];
    let mut tens = [0i32; 81920];
    let mut reader = TeamReader::empty(count::version_if(second));
    let mut at: usize = 0;
    let mut count: u64 = 0;
    for _ in 0..TURNS {
        let many = many::read_many(reader, &body[at..], true, &mut rows, &mut tens);
        count += many.count as u64;
        let stop = many.stop;
        if ended(stop) {
            return count;
        }
        at = count::past(at, many.used, body.len());
        let next = many.reader;
        reader = next;
    }
    count
}
