// The results list of a whole body.
#![tactic(auto)]

ghost use Rattle.listed.specs.Listed.{ListsBody};

use kinds::Version;
use listing::End;
use results::Results;
use state::Reader;

// How many rows there are, the number of the finishes of other clients, and how the body ends: finish or a refusal, never more.
#[derive(Clone, Copy)]
pub struct Listed {
    pub rows: usize,
    pub others: u64,
    pub end: End,
}

// The results list of a body: its rows into lent arrays, in rising order of time.
pub fn list_body(
    version: Version,
    body: &[u8],
    clients: &mut [i32; 128],
    times: &mut [i32; 128],
    ticks: &mut [i32; 128],
) -> Listed
    ensures { ListsBody version body.now result clients.old times.old ticks.old clients.new times.new ticks.new }
{
    let read = listing::read_on(Results::empty(), Reader::empty(version), body, true);
    let list = read.list;
    let end = read.end;
    Listed {
        rows: ranking::rank(list, clients, times, ticks),
        others: list.others,
        end,
    }
}
