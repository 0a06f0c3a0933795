// The bytes at hand in a lent buffer: read behind those that are there, used from their front.
#![tactic(auto)]

ghost use Rattle.std.specs.Prelude.{◌≡◌, ◌-◌, ◌≤◌, min, length};
ghost use Rattle.std.proofs.Math.Seq.{slice};
ghost use Rattle.feed.specs.Feed.{empty_hand, unread, kept, passed, grown};
ghost use Rattle.feed.specs.steps.Clamped.{clamped};

// The bytes of a buffer from a place to an end, and whether the input has ended, so that no more come behind them.
#[derive(Clone, Copy)]
pub struct Hand {
    pub at: usize,
    pub end: usize,
    pub ended: bool,
}

impl Hand {
    pub fn empty() -> Hand
        ensures { result ≡ empty_hand }
    {
        Hand {
            at: 0,
            end: 0,
            ended: false,
        }
    }
}

// The same bytes of a buffer of a length, with places inside it.
fn clamp(hand: Hand, len: usize) -> Hand
    ensures { result ≡ clamped hand len }
{
    let end = hand.end.min(len);
    Hand {
        at: hand.at.min(end),
        end,
        ended: hand.ended,
    }
}

// The bytes at hand.
pub fn window(buf: &[u8], hand: Hand) -> &[u8]
    ensures { result.now ≡ unread hand buf.now }
{
    let inside = clamp(hand, buf.len());
    let at = inside.at;
    let end = inside.end;
    &buf[at..end]
}

// What is at hand after so many bytes of it were used.
pub fn pass(hand: Hand, used: usize) -> Hand
    ensures { result ≡ passed hand used }
{
    let left = hand.end.saturating_sub(hand.at).saturating_sub(used);
    Hand {
        at: hand.end - left,
        end: hand.end,
        ended: hand.ended,
    }
}

fn shift(buf: &mut [u8], at: usize, end: usize) -> usize
    requires { (at ≤ end) × (end ≤ length buf.old) }
    ensures value { result ≡ end - at }
    ensures buf_after { buf.new ≡ kept (slice at end buf.old) buf.old }
{
    for i in 0..end - at {
        buf[i] = buf[at + i];
    }
    end - at
}

// Moves the bytes at hand to the front of the buffer: how many they are.
pub fn keep(buf: &mut [u8], hand: Hand) -> usize
    ensures value { result ≡ length (unread hand buf.old) }
    ensures buf_after { buf.new ≡ kept (unread hand buf.old) buf.old }
    ensures upper_bound { result ≤ length buf.new }
{
    let inside = clamp(hand, buf.len());
    shift(buf, inside.at, inside.end)
}

// What is at hand after a read that put so many bytes behind the n at the front of a buffer of a length; none, where the input has ended.
pub fn grow(len: usize, n: usize, got: usize) -> Hand
    ensures { result ≡ grown len n got }
{
    let free = len.saturating_sub(n);
    Hand {
        at: 0,
        end: n.min(len) + got.min(free),
        ended: got == 0,
    }
}
