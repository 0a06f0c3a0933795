// Writing strings, data and raw bytes (packer/src/lib.rs, Packer).
#![tactic(auto)]

ghost use Rattle.std.specs.Prelude.{◌≡◌, ◌+◌, ◌≤◌, length};
ghost use Rattle.varint.specs.Written.{written, written_if};
ghost use Rattle.varint.specs.steps.Writing.{wrote, wrote_if};
ghost use Rattle.packer.specs.Texts.{no_zero, string_bytes, is_data, data_bytes};

use refusal::Refusal;

// Bytes that fit, into the target at a place: the place past them.
fn put(b: &[u8], out: &mut [u8], at: usize) -> usize
    requires { at + length b.now ≤ length out.old }
    ensures { (result ≡ at + length b.now) × (out.new ≡ written out.old at b.now) }
{
    let end = at + b.len();
    out[at..end].copy_from_slice(b);
    end
}

pub fn write_raw(b: &[u8], out: &mut [u8], at: usize) -> Result<usize, Refusal>
    ensures answer { result ≡ wrote out.old at b.now }
    ensures target { out.new ≡ written out.old at b.now }
{
    if out.len() < at || out.len() - at < b.len() {
        return Err(Refusal::ShortTarget);
    }
    Ok(put(b, out, at))
}

pub fn no_zero(b: &[u8]) -> bool
    ensures { result ≡ no_zero b.now }
{
    !b.contains(&0)
}

// A string and its 00. One that holds a 00 is refused.
pub fn write_string(b: &[u8], out: &mut [u8], at: usize) -> Result<usize, Refusal>
    ensures answer { result ≡ wrote_if (no_zero b.now) out.old at (string_bytes b.now) }
    ensures target { out.new ≡ written_if (no_zero b.now) out.old at (string_bytes b.now) }
{
    if !no_zero(b) {
        return Err(Refusal::Unwritable);
    }
    if out.len().saturating_sub(at) <= b.len() {
        return Err(Refusal::ShortTarget);
    }
    let end = put(b, out, at);
    out[end] = 0;
    Ok(end + 1)
}

// A length and the bytes. More than 2147483647 bytes are refused.
pub fn write_data(b: &[u8], out: &mut [u8], at: usize) -> Result<usize, Refusal>
    ensures answer { result ≡ wrote_if (is_data b.now) out.old at (data_bytes b.now) }
    ensures target { out.new ≡ written_if (is_data b.now) out.old at (data_bytes b.now) }
{
    if 2147483647 < b.len() {
        return Err(Refusal::Unwritable);
    }
    let length = b.len() as i32;
    let size = int_writer::int_size(length) + b.len();
    if out.len().saturating_sub(at) < size {
        return Err(Refusal::ShortTarget);
    }
    let Ok(next) = int_writer::write_int(length, out, at) else {
        return Err(Refusal::ShortTarget);
    };
    Ok(put(b, out, next))
}
