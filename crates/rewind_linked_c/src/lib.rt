// The exports of rewind_linked, for C and Rust programs to link: each calls the function of that name and promises what it promises.
// bench/run links the archive as librewind_linked.a.
#![tactic(auto)]

ghost use Rattle.count.specs.Count.{version_if};
ghost use Rattle.state.specs.State.{entries_with};
ghost use Rattle.rewind_linked.specs.Linked.{ReadsKept, RewindsBody};
ghost use Rattle.rewind_linked.specs.UnderWay.{StartsRewind, under_way, GoesOn};

// Reads a body whole with a reel beside: the number of its events. The reel is left in three arrays, its counts in a fourth. second says that the
// version is 2.
#[unsafe(no_mangle)]
pub extern "C" fn jolzerv_read_kept(
    second: bool,
    body: &[u8],
    rows: &mut [i32; 5120],
    inputs: &mut [i32; 5120],
    formers: &mut [i32; 5120],
    two: &mut [usize; 2],
) -> usize
    ensures { ReadsKept (version_if second) body.now rows.old inputs.old formers.old two.old result
        rows.new inputs.new formers.new two.new }
{
    rewind_linked::jolzerv_read_kept(second, body, rows, inputs, formers, two)
}

// Reads a body whole with a reel beside in arrays lent, and rewinds to a tick: 0, or the number of the refusal. The copy's entries are left in five
// arrays, its teams in a sixth.
#[unsafe(no_mangle)]
pub extern "C" fn jolzerv_rewind_body(
    second: bool,
    body: &[u8],
    tick: i32,
    rows: &mut [i32; 5120],
    inputs: &mut [i32; 5120],
    formers: &mut [i32; 5120],
    marks: &mut [u8; 128],
    xs: &mut [i32; 128],
    ys: &mut [i32; 128],
    held: &mut [u8; 128],
    numbers: &mut [i32; 1280],
    teams: &mut [i32; 256],
) -> u8
    ensures { RewindsBody (version_if second) body.now tick rows.old inputs.old formers.old result
        rows.new inputs.new formers.new
        (entries_with marks.new xs.new ys.new held.new numbers.new) teams.new }
{
    rewind_linked::jolzerv_rewind_body(
        second, body, tick, rows, inputs, formers, marks, xs, ys, held, numbers, teams,
    )
}

// Reads a body whole with a reel beside in arrays lent, and starts a rewind to a tick: 0, or the number of the refusal. The reel is the rewind's own.
// The copy's entries are left in five arrays, its teams in a sixth, the numbers of the rewind in two more; in a refusal the copy is blank.
#[unsafe(no_mangle)]
pub extern "C" fn jolzerv_start_rewind(
    second: bool,
    body: &[u8],
    tick: i32,
    rows: &mut [i32; 5120],
    inputs: &mut [i32; 5120],
    formers: &mut [i32; 5120],
    marks: &mut [u8; 128],
    xs: &mut [i32; 128],
    ys: &mut [i32; 128],
    held: &mut [u8; 128],
    numbers: &mut [i32; 1280],
    teams: &mut [i32; 256],
    three: &mut [usize; 3],
    two: &mut [i32; 2],
) -> u8
    ensures { StartsRewind (version_if second) body.now tick rows.old inputs.old formers.old three.old two.old
        result rows.new inputs.new formers.new
        (entries_with marks.new xs.new ys.new held.new numbers.new) teams.new three.new two.new }
{
    rewind_linked::jolzerv_start_rewind(
        second, body, tick, rows, inputs, formers, marks, xs, ys, held, numbers, teams, three, two,
    )
}

// Goes on with a rewind to a tick by at most so many events: 0 if it has ended, 255 if it is still going, or the number of the refusal.
#[unsafe(no_mangle)]
pub extern "C" fn jolzerv_go_on(
    tick: i32,
    events: usize,
    rows: &[i32; 5120],
    inputs: &[i32; 5120],
    formers: &[i32; 5120],
    marks: &mut [u8; 128],
    xs: &mut [i32; 128],
    ys: &mut [i32; 128],
    held: &mut [u8; 128],
    numbers: &mut [i32; 1280],
    teams: &mut [i32; 256],
    three: &mut [usize; 3],
    two: &mut [i32; 2],
) -> u8
    ensures { GoesOn (under_way tick rows.now inputs.now formers.now
        (entries_with marks.old xs.old ys.old held.old numbers.old) teams.old three.old two.old)
        events three.old two.old result
        (entries_with marks.new xs.new ys.new held.new numbers.new) teams.new three.new two.new }
{
    rewind_linked::jolzerv_go_on(
        tick, events, rows, inputs, formers, marks, xs, ys, held, numbers, teams, three, two,
    )
}
