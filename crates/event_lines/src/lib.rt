// The line of an event, written into a lent buffer at a place.
#![tactic(auto)]

ghost use Rattle.std.specs.Prelude.{◌≡◌};
ghost use Rattle.state.specs.Views.{event_is};
ghost use Rattle.lines.specs.Lines.{line_of, line_answer, line_target};

use refusal::Refusal;
use state::Event;

// Refused 9, with nothing changed, where the longest line wouldn't fit.
// The ten numbers are those of an Input event; else they are not looked at.
pub fn write_line(
    event: Event,
    input: [i32; 10],
    out: &mut [u8],
    at: usize,
) -> Result<usize, Refusal>
    ensures answer { result ≡ line_answer out.old at (line_of (event_is event) input) }
    ensures target { out.new ≡ line_target out.old at (line_of (event_is event) input) }
{
    if !lines::has_longest(out.len(), at) {
        return Err(Refusal::ShortTarget);
    }
    match event {
        Event::TickStart(t) => lines::write_plain(b"start", &[t], out, at),
        Event::TickEnd(t) => lines::write_plain(b"end", &[t], out, at),
        Event::PlayerNew { cid, x, y } => lines::write_plain(b"new", &[cid, x, y], out, at),
        Event::PlayerChange {
            cid,
            x,
            y,
            old_x,
            old_y,
        } => { lines::write_plain(b"change", &[cid, x, y, old_x, old_y], out, at) }
        Event::PlayerOld { cid, x, y } => lines::write_plain(b"old", &[cid, x, y], out, at),
        Event::Input { cid, former: _ } => lines::write_input(cid, &input, out, at),
        Event::Record(item) => lines::write_record(item.kind_number(), item.cid(), out, at),
    }
}
