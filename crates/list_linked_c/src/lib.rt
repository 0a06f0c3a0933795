// The exports of list_linked, for C and Rust programs to link: each calls the function of that name and promises what it promises.
// bench/run links the archive as liblist_linked.a.
#![tactic(auto)]

ghost use Rattle.count.specs.Count.{version_if};
ghost use Rattle.list_linked.specs.Linked.{Links};

// The rows into three arrays, in rising order of time: how many they are; the number of the finishes of other clients, and 0 or the number of
// the refusal that ends the body, into a fourth. second says that the version is 2.
#[unsafe(no_mangle)]
pub extern "C" fn jolzerv_list_body(
    second: bool,
    body: &[u8],
    clients: &mut [i32; 128],
    times: &mut [i32; 128],
    ticks: &mut [i32; 128],
    two: &mut [u64; 2],
) -> usize
    ensures { Links (version_if second) body.now result clients.old times.old ticks.old two.old clients.new times.new ticks.new two.new }
{
    list_linked::jolzerv_list_body(second, body, clients, times, ticks, two)
}
