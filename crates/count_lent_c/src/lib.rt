// The exports of count_lent, for C and Rust programs to link: each calls the function of that name and promises what it promises.
// bench/run links the archive as libcount_lent.a.
#![tactic(auto)]

ghost use Rattle.std.specs.Prelude.{◌≡◌};
ghost use Rattle.count.specs.Count.{version_if, event_count};

// The number of events before finish or a refusal, read one event a call on lent memory; second says that the version is 2.
#[unsafe(no_mangle)]
pub extern "C" fn jolzerv_count_lent(second: bool, body: &[u8]) -> u64
    ensures { result ≡ event_count (version_if second) body.now }
{
    count_lent::jolzerv_count_lent(second, body)
}
