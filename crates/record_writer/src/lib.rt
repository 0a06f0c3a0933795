// The writer of records (added to the Rust's): a record and the bytes lent with it, into a target at a place.
#![tactic(auto)]

ghost use Rattle.std.specs.Prelude.{◌≡◌, length};
ghost use Rattle.varint.specs.Written.{written, written_if};
ghost use Rattle.varint.specs.steps.Writing.{wrote, wrote_if};
ghost use Rattle.fields.specs.Writing.{inside};
ghost use Rattle.extensions.specs.Extensions.{id_at};
ghost use Rattle.item.specs.steps.Taken.{from_fields};
ghost use Rattle.item.specs.declared.Tag.TheVariants.{Named};
ghost use Rattle.written.specs.Unwritable.{Writes};
ghost use Rattle.pieces.specs.steps.Pieces.{piece_ok, piece_bytes, pieces_of, pieces_ok, pieces_bytes};
ghost use Rattle.outlines.specs.steps.Outlines.{Outlines};
ghost use Rattle.record_writer.specs.steps.Room.{left_after, room_at};
ghost use Rattle.record_writer.specs.steps.Puts.{past_of, HasRoom, Ready, PutsBytes};

use extensions::Extension;
use fields::Args;
use item::{Record, Tag};
use kinds::Version;
use packer::Part;
use pieces::{Outline, Piece};
use refusal::Refusal;
use shapes::Fields;

// The bytes of room that are left, that there are too few, or that something can't be written.
#[derive(Clone, Copy)]
pub enum Left {
    Room(usize),
    Short,
    Unwritable,
}

// ---- whether the pieces of an outline can be written, and the room that they leave

// Whether a part lies inside the bytes lent.
fn is_inside(s: &[u8], p: Part) -> bool
    ensures { result ≡ inside s.now p }
{
    p.at <= s.len() && p.len <= s.len() - p.at
}

// The room that is left after n bytes, if they can be written.
fn left_after(left: Left, ok: bool, n: usize) -> Left
    ensures { result ≡ left_after left ok n }
{
    if !ok {
        return Left::Unwritable;
    }
    match left {
        Left::Room(room) if n <= room => Left::Room(room - n),
        Left::Room(_) => Left::Short,
        _ => left,
    }
}

// Data has at most 2147483647 bytes.
fn left_data(left: Left, s: &[u8], p: Part) -> Left
    ensures { result ≡ left_after left (piece_ok s.now (Piece.Data p)) (length (piece_bytes s.now (Piece.Data p))) }
{
    let b = packer::show(s, p);
    if 2147483647 < b.len() {
        return Left::Unwritable;
    }
    left_after(
        left,
        is_inside(s, p),
        int_writer::int_size(b.len() as i32) + b.len(),
    )
}

fn left_piece(left: Left, s: &[u8], piece: Piece) -> Left
    ensures { result ≡ left_after left (piece_ok s.now piece) (length (piece_bytes s.now piece)) }
{
    match piece {
        Piece::Empty => left,
        Piece::Never => Left::Unwritable,
        Piece::Int(value) => left_after(left, true, int_writer::int_size(value)),
        Piece::Raw(p) => left_after(left, is_inside(s, p), packer::show(s, p).len()),
        Piece::Str(p) => {
            let b = packer::show(s, p);
            left_after(
                left_after(left, is_inside(s, p), b.len()),
                text_writer::no_zero(b),
                1,
            )
        }
        Piece::Data(p) => left_data(left, s, p),
        Piece::Id(_) => left_after(left, true, 16),
    }
}

// The room that is left after a record.
fn measure(room: Left, o: Outline, s: &[u8], ten: [i32; 10], args: Args) -> Left
    ensures { result ≡ left_after room (pieces_ok s.now (pieces_of o ten args)) (length (pieces_bytes s.now (pieces_of o ten args))) }
{
    let mut left = room;
    for i in 0..pieces::past_pieces(o.tail) {
        left = left_piece(left, s, pieces::piece_at(o, ten, args, i));
    }
    left
}

// ---- the outline of a record

// One of the extensions: its number, its identifier, the size of its data, the data. It may have 2147483647 bytes.
fn named_outline(
    version: Version,
    which: Extension,
    s: &[u8],
    f: Fields,
    ten: [i32; 10],
    args: Args,
) -> Outline
    ensures { Outlines version s.now (from_fields (Named which) f) ten args result }
{
    let none = Piece::Empty;
    let plan = pieces::payload_plan(extensions::payload_of(which), f);
    let data = outlines::outline_with(none, none, none, plan);
    let left = measure(Left::Room(2147483647), data, s, ten, args);
    match left {
        Left::Room(room) => outlines::outline_with(
            outlines::ex_number(version),
            Piece::Id(which),
            Piece::Int((2147483647 - room) as i32),
            plan,
        ),
        Left::Short => outlines::never(),
        Left::Unwritable => outlines::never(),
    }
}

// The outline of a record that is taken apart.
fn outline_of(
    version: Version,
    tag: Tag,
    s: &[u8],
    f: Fields,
    ten: [i32; 10],
    args: Args,
) -> Outline
    ensures { Outlines version s.now (from_fields tag f) ten args result }
{
    match tag {
        Tag::Plain(kind) => outlines::kind_outline(kind, f, args.count),
        Tag::Named(which) => named_outline(version, which, s, f, ten, args),
        Tag::Other => outlines::other_outline(version, s, f, ten, args),
    }
}

// ---- its pieces, put one after the other

// The place past what was written, or else the other.
fn past(answer: Result<usize, Refusal>, other: usize) -> usize
    ensures { result ≡ past_of answer other }
{
    match answer {
        Ok(next) => next,
        Err(_) => other,
    }
}

// The identifier of an extension, which fits: the place past it.
fn put_id(which: Extension, out: &mut [u8], at: usize) -> usize
    requires { HasRoom out.old at (id_at which) }
    ensures { PutsBytes out.old at (id_at which) result out.new }
{
    for i in 0..16 {
        out[at + i] = ids::id_byte(which, i);
    }
    at + 16
}

// A piece that can be written and fits.
fn write_piece(s: &[u8], piece: Piece, out: &mut [u8], at: usize) -> Result<usize, Refusal>
    requires { Ready (piece_ok s.now piece) out.old at (piece_bytes s.now piece) }
    ensures answer { result ≡ wrote out.old at (piece_bytes s.now piece) }
    ensures target { out.new ≡ written out.old at (piece_bytes s.now piece) }
{
    match piece {
        Piece::Empty => Ok(at),
        Piece::Never => Ok(at),
        Piece::Int(value) => int_writer::write_int(value, out, at),
        Piece::Raw(p) => text_writer::write_raw(packer::show(s, p), out, at),
        Piece::Str(p) => text_writer::write_string(packer::show(s, p), out, at),
        Piece::Data(p) => text_writer::write_data(packer::show(s, p), out, at),
        Piece::Id(which) => Ok(put_id(which, out, at)),
    }
}

// All pieces of a record, which can be written and fit: the place past them.
fn put_pieces(o: Outline, s: &[u8], ten: [i32; 10], args: Args, out: &mut [u8], at: usize) -> usize
    requires { Ready (pieces_ok s.now (pieces_of o ten args)) out.old at (pieces_bytes s.now (pieces_of o ten args)) }
    ensures { PutsBytes out.old at (pieces_bytes s.now (pieces_of o ten args)) result out.new }
{
    let mut next = at;
    for i in 0..pieces::past_pieces(o.tail) {
        next = past(
            write_piece(s, pieces::piece_at(o, ten, args, i), out, next),
            next,
        );
    }
    next
}

// The room from a place to the end of a target.
fn room_at(len: usize, at: usize) -> Left
    ensures { result ≡ room_at len at }
{
    if at <= len {
        return Left::Room(len - at);
    }
    Left::Short
}

// Nothing is put before the room is known.
fn write_outline(
    o: Outline,
    s: &[u8],
    ten: [i32; 10],
    args: Args,
    out: &mut [u8],
    at: usize,
) -> Result<usize, Refusal>
    ensures answer { result ≡ wrote_if (pieces_ok s.now (pieces_of o ten args)) out.old at (pieces_bytes s.now (pieces_of o ten args)) }
    ensures target { out.new ≡ written_if (pieces_ok s.now (pieces_of o ten args)) out.old at (pieces_bytes s.now (pieces_of o ten args)) }
{
    let left = measure(room_at(out.len(), at), o, s, ten, args);
    match left {
        Left::Room(_) => Ok(put_pieces(o, s, ten, args, out, at)),
        Left::Short => Err(Refusal::ShortTarget),
        Left::Unwritable => Err(Refusal::Unwritable),
    }
}

// The record's bytes into the target, at a place, and nothing else: 11 where one of the eight tests of `record_writable` holds, then 9
// where the target is too short.
pub fn write_record(
    version: Version,
    value: Record,
    s: &[u8],
    out: &mut [u8],
    at: usize,
) -> Result<usize, Refusal>
    ensures { Writes version s.now value out.old at result out.new }
{
    let item = value.item;
    let ten = value.input;
    let args = value.args;
    let taken = item.take_apart();
    let tag = taken.tag;
    let f = taken.fields;
    let o = outline_of(version, tag, s, f, ten, args);
    write_outline(o, s, ten, args, out, at)
}
