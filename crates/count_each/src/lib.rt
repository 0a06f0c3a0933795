// How many events a body has, by single calls, for C and Rust programs to link. A library of its own: with one caller of the core call
// the compiler makes the two one.
#![tactic(auto)]

ghost use Rattle.std.specs.Prelude.{◌≡◌};
ghost use Rattle.count.specs.Count.{version_if, event_count};

use state::Reader;

const MOST: u64 = 4611686018427387904;

// The number of events before finish or a refusal, read one event a call by value; second says that the version is 2.
pub fn jolzerv_count_each(second: bool, body: &[u8]) -> u64
    ensures { result ≡ event_count (version_if second) body.now }
{
    let mut reader = Reader::empty(count::version_if(second));
    let mut at: usize = 0;
    let mut count: u64 = 0;
    while count < MOST {
        let read = reader::read(reader, &body[at..], true);
        let answer = read.answer;
        let Some(used) = count::event_used(answer) else {
            return count;
        };
        at = count::past(at, used, body.len());
        let next = read.reader;
        reader = next;
        count += 1;
    }
    count
}
