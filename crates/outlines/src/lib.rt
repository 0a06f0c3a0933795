// Which pieces stand in the outline of a record.
#![tactic(auto)]

ghost use Rattle.std.specs.Prelude.{◌≡◌};
ghost use Rattle.item.specs.steps.Taken.{from_fields};
ghost use Rattle.item.specs.declared.Tag.TheVariants.{Other};
ghost use Rattle.outlines.specs.steps.Outlines.{
  checked_piece,
  count_piece,
  outline_with,
  unwritable,
  form_with,
  form_of,
  kind_outline,
  ex_number,
  Outlines,
};

use fields::Args;
use kinds::{Kind, Version};
use packer::Part;
use pieces::{Outline, Piece, Plan, Tail};
use shapes::{Fields, Shape};

// What stands behind a kind's number: its client, its fields, and what follows them.
#[derive(Clone, Copy)]
pub struct Form {
    pub client: Piece,
    pub shape: Shape,
    pub tail: Tail,
}

// ---- the outline of a kind

// No piece, and none that can be written where the number is negative.
fn checked(value: i32) -> Piece
    ensures { result ≡ checked_piece value }
{
    if value < 0 {
        return Piece::Never;
    }
    Piece::Empty
}

// The number of arguments, at most 16, where there are any.
fn count_piece(tail: Tail, count: usize) -> Piece
    ensures { result ≡ count_piece tail count }
{
    match tail {
        Tail::Nothing => Piece::Empty,
        Tail::Numbers => Piece::Empty,
        Tail::Arguments => {
            if 16 < count {
                return Piece::Never;
            }
            Piece::Int(count as i32)
        }
    }
}

// A record with nothing behind its fields.
pub fn outline_with(number: Piece, client: Piece, size: Piece, plan: Plan) -> Outline
    ensures { result ≡ outline_with number client size plan Piece.Empty Tail.Nothing }
{
    Outline {
        number,
        client,
        size,
        plan,
        count: Piece::Empty,
        tail: Tail::Nothing,
    }
}

// What has no written form.
pub fn never() -> Outline
    ensures { result ≡ unwritable }
{
    let none = Piece::Empty;
    outline_with(
        Piece::Never,
        none,
        none,
        pieces::plan_with(none, none, none, none),
    )
}

fn form_with(client: Piece, shape: Shape, tail: Tail) -> Form
    ensures { result ≡ form_with client shape tail }
{
    Form {
        client,
        shape,
        tail,
    }
}

// The form of a kind whose first number this is. A negative client of PlayerDiff has no written form, nor has a dt that is negative as an
// i32.
fn form_of(kind: Kind, first: i32) -> Form
    ensures { result ≡ form_of kind first }
{
    let no = Piece::Empty;
    let end = Tail::Nothing;
    match kind {
        Kind::PlayerDiff(cid) => form_with(checked(cid), Shape::IntInt, end),
        Kind::Finish => form_with(no, Shape::Nothing, end),
        Kind::TickSkip => form_with(checked(first), Shape::Int, end),
        Kind::PlayerNew(cid) => form_with(Piece::Int(cid), Shape::IntInt, end),
        Kind::PlayerOld(cid) => form_with(Piece::Int(cid), Shape::Nothing, end),
        Kind::InputDiff => form_with(no, Shape::Int, Tail::Numbers),
        Kind::InputNew => form_with(no, Shape::Int, Tail::Numbers),
        Kind::Message => form_with(no, Shape::IntData, end),
        Kind::Join => form_with(no, Shape::Int, end),
        Kind::Drop => form_with(no, Shape::IntStr, end),
        Kind::ConsoleCommand => form_with(no, Shape::IntIntStr, Tail::Arguments),
        Kind::Ex => form_with(Piece::Never, Shape::Nothing, end),
    }
}

// The record of a kind.
pub fn kind_outline(kind: Kind, f: Fields, count: usize) -> Outline
    ensures { result ≡ kind_outline kind f count }
{
    let form = form_of(kind, f.first);
    let client = form.client;
    let shape = form.shape;
    let tail = form.tail;
    Outline {
        number: Piece::Int(kind.number()),
        client,
        size: Piece::Empty,
        plan: pieces::plan_of(shape, f),
        count: count_piece(tail, count),
        tail,
    }
}

// ---- the outline of an extension

// The number of an extension, which has no written form in version 1.
pub fn ex_number(version: Version) -> Piece
    ensures { result ≡ ex_number version }
{
    match version {
        Version::V1 => Piece::Never,
        Version::V2 => Piece::Int(Kind::EX),
    }
}

// Another extension: an identifier that is none of the 20, and data.
pub fn other_outline(version: Version, s: &[u8], f: Fields, ten: [i32; 10], args: Args) -> Outline
    ensures { Outlines version s.now (from_fields Other f) ten args result }
{
    let none = Piece::Empty;
    let at = f.uuid;
    let words = f.text;
    let part = Part { at, len: 16 };
    let id = Piece::Raw(part);
    match ids::find_id(s, at) {
        Some(_) => never(),
        None => outline_with(
            ex_number(version),
            none,
            none,
            pieces::plan_with(id, Piece::Data(words), none, none),
        ),
    }
}
