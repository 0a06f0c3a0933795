// The results list of a body, for C and Rust programs to link.
#![tactic(auto)]

ghost use Rattle.std.specs.Prelude.{◌≡◌};
ghost use Rattle.count.specs.Count.{version_if};
ghost use Rattle.list_linked.specs.Linked.{end_number, Links};

use listing::End;

fn end_number(end: End) -> u64
    ensures { result ≡ end_number end }
{
    match end {
        End::More => 0,
        End::Finish => 0,
        End::Refused(refusal) => refusal.number() as u64,
    }
}

// The rows into three arrays, in rising order of time: how many they are; the number of the finishes of other clients, and 0 or the number of
// the refusal that ends the body, into a fourth. second says that the version is 2.
pub fn jolzerv_list_body(
    second: bool,
    body: &[u8],
    clients: &mut [i32; 128],
    times: &mut [i32; 128],
    ticks: &mut [i32; 128],
    two: &mut [u64; 2],
) -> usize
    ensures { Links (version_if second) body.now result clients.old times.old ticks.old two.old clients.new times.new ticks.new two.new }
{
    let listed = listed::list_body(count::version_if(second), body, clients, times, ticks);
    let end = listed.end;
    two[0] = listed.others;
    two[1] = end_number(end);
    listed.rows
}
