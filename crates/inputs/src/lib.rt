// The input records on memory that is lent.
#![tactic(auto)]

ghost use Rattle.std.specs.Prelude.{◌≡◌, ◌/◌, cond, ltb};
ghost use Rattle.fields.specs.Views.{zeros};
ghost use Rattle.state.specs.State.{ten_of, put_ten};
ghost use Rattle.state.specs.Reading.{sums, input_diff, input_new};
ghost use Rattle.state.specs.steps.Inside.{done};

use refusal::Refusal;
use state::{Event, Memory, Outcome, Scalars};

// The ten numbers at place p of an array of tens; zeros where there is no such place.
pub fn take_ten<const N: usize>(numbers: &[i32; N], p: usize) -> [i32; 10]
    ensures { result ≡ cond (ltb p (N / 10)) (ten_of numbers.now p) (zeros 10) }
{
    let mut t = [0i32; 10];
    if N / 10 <= p {
        return t;
    }
    for k in 0..10 {
        let x = numbers[10 * p + k];
        t[k] = x;
    }
    t
}

// Ten numbers at place p of an array of tens; nothing changes where there is no such place.
pub fn put_ten<const N: usize>(numbers: &mut [i32; N], p: usize, t: [i32; 10])
    ensures { numbers.new ≡ cond (ltb p (N / 10)) (put_ten numbers.old p t) numbers.old }
{
    if N / 10 <= p {
        return;
    }
    for k in 0..10 {
        let x = t[k];
        numbers[10 * p + k] = x;
    }
}

// The sums of the former numbers and the differences.
fn add_ten(f: [i32; 10], d: [i32; 10]) -> [i32; 10]
    ensures { result ≡ sums f d }
{
    let mut t = [0i32; 10];
    for k in 0..10 {
        let x = num::wrapping_add(f[k], d[k]);
        t[k] = x;
    }
    t
}

pub fn input_diff(s: Scalars, m: &mut Memory, cid: i32, ds: [i32; 10], used: usize) -> Outcome
    ensures { done result m.new ≡ input_diff s m.old cid ds used }
{
    let bits = num::bits(cid);
    if 128 <= bits {
        return ticks::refuse(s, ticks::no_entry(bits, Refusal::InputDiffWithoutNew));
    }
    let c = bits as usize;
    if m.entries.held[c] != 1 {
        return ticks::refuse(s, Refusal::InputDiffWithoutNew);
    }
    let old = take_ten(&m.entries.inputs, c);
    let new = add_ten(old, ds);
    put_ten(&mut m.entries.inputs, c, new);
    m.input = new;
    m.former = old;
    m.entries.held[c] = 1;
    ticks::gave(Event::Input { cid, former: true }, used, s)
}

pub fn input_new(s: Scalars, m: &mut Memory, cid: i32, ns: [i32; 10], used: usize) -> Outcome
    ensures { done result m.new ≡ input_new s m.old cid ns used }
{
    let bits = num::bits(cid);
    if 128 <= bits {
        return ticks::refuse(s, ticks::no_entry(bits, Refusal::ClientTooLarge));
    }
    let c = bits as usize;
    let mark = m.entries.held[c];
    let old = take_ten(&m.entries.inputs, c);
    put_ten(&mut m.entries.inputs, c, ns);
    m.input = ns;
    m.former = old;
    m.entries.held[c] = 1;
    let event = Event::Input {
        cid,
        former: mark == 1,
    };
    ticks::gave(event, used, s)
}

// The ten numbers of a client; zeros where it has no entry.
pub fn ten_at(inputs: &[i32; 1280], c: usize) -> [i32; 10]
    ensures { result ≡ cond (ltb c 128) (ten_of inputs.now c) (zeros 10) }
{
    take_ten(inputs, c)
}

// The ten numbers of a client become others; nothing changes where it has no entry.
pub fn put_ten_at(inputs: &mut [i32; 1280], c: usize, t: [i32; 10])
    ensures { inputs.new ≡ cond (ltb c 128) (put_ten inputs.old c t) inputs.old }
{
    put_ten(inputs, c, t);
}
