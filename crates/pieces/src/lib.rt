// The pieces of a record's written form.
#![tactic(auto)]

ghost use Rattle.std.specs.Prelude.{◌≡◌, get_or};
ghost use Rattle.pieces.specs.steps.Pieces.{
  plan_with,
  plan_of,
  payload_plan,
  number_pieces,
  arg_pieces,
  pieces_of,
  past_pieces,
};

use extensions::{Extension, Layout};
use fields::Args;
use packer::Part;
use shapes::{Fields, Shape};

// A piece of a written form: none, one that can't be written, a number, bytes as they are, a string, data, the identifier of an
// extension.
#[derive(Clone, Copy)]
pub enum Piece {
    Empty,
    Never,
    Int(i32),
    Raw(Part),
    Str(Part),
    Data(Part),
    Id(Extension),
}

// What follows the fields: nothing, the ten numbers of an input, the arguments of a command.
#[derive(Clone, Copy)]
pub enum Tail {
    Nothing,
    Numbers,
    Arguments,
}

// The fields.
#[derive(Clone, Copy)]
pub struct Plan {
    pub one: Piece,
    pub two: Piece,
    pub three: Piece,
    pub four: Piece,
}

// In this order: the kind's number; its client, or an extension's identifier; the size of an extension's data; the fields; how many
// arguments there are; and what follows.
#[derive(Clone, Copy)]
pub struct Outline {
    pub number: Piece,
    pub client: Piece,
    pub size: Piece,
    pub plan: Plan,
    pub count: Piece,
    pub tail: Tail,
}

// Four of them; fewer are filled up with none.
pub fn plan_with(one: Piece, two: Piece, three: Piece, four: Piece) -> Plan
    ensures { result ≡ plan_with one two three four }
{
    Plan {
        one,
        two,
        three,
        four,
    }
}

// The fields of a shape.
pub fn plan_of(shape: Shape, f: Fields) -> Plan
    ensures { result ≡ plan_of shape f }
{
    let words = f.text;
    let part = Part {
        at: f.uuid,
        len: 16,
    };
    let first = Piece::Int(f.first);
    let second = Piece::Int(f.second);
    let id = Piece::Raw(part);
    let text = Piece::Str(words);
    let none = Piece::Empty;
    match shape {
        Shape::Nothing => plan_with(none, none, none, none),
        Shape::Int => plan_with(first, none, none, none),
        Shape::IntInt => plan_with(first, second, none, none),
        Shape::IntStr => plan_with(first, text, none, none),
        Shape::IntIntStr => plan_with(first, second, text, none),
        Shape::IntUuidStr => plan_with(first, id, text, none),
        Shape::IntUuidIntStr => plan_with(first, id, second, text),
        Shape::IntData => plan_with(first, Piece::Data(words), none, none),
    }
}

// The fields of an extension's data.
pub fn payload_plan(layout: Layout, f: Fields) -> Plan
    ensures { result ≡ payload_plan layout f }
{
    let none = Piece::Empty;
    let words = f.text;
    match layout {
        Layout::Shaped(shape) => plan_of(shape, f),
        Layout::Whole => plan_with(Piece::Raw(words), none, none, none),
    }
}

// The numbers of an input.
fn number_piece(ten: [i32; 10], i: usize) -> Piece
    ensures { result ≡ get_or (number_pieces ten) i Piece.Empty }
{
    match ten.get(i) {
        Some(&n) => Piece::Int(n),
        None => Piece::Empty,
    }
}

// The arguments of a command.
fn arg_piece(args: Args, i: usize) -> Piece
    ensures { result ≡ get_or (arg_pieces args) i Piece.Empty }
{
    match args.parts.get(i) {
        Some(&part) if i < args.count => Piece::Str(part),
        _ => Piece::Empty,
    }
}

// Piece i of a record.
pub fn piece_at(o: Outline, ten: [i32; 10], args: Args, i: usize) -> Piece
    ensures { result ≡ get_or (pieces_of o ten args) i Piece.Empty }
{
    let plan = o.plan;
    let tail = o.tail;
    match i {
        0 => o.number,
        1 => o.client,
        2 => o.size,
        3 => plan.one,
        4 => plan.two,
        5 => plan.three,
        6 => plan.four,
        7 => o.count,
        _ => match tail {
            Tail::Nothing => Piece::Empty,
            Tail::Numbers => number_piece(ten, i - 8),
            Tail::Arguments => arg_piece(args, i - 8),
        },
    }
}

// No piece stands at this place or past it.
pub fn past_pieces(tail: Tail) -> usize
    ensures { result ≡ past_pieces tail }
{
    match tail {
        Tail::Nothing => 8,
        Tail::Numbers => 18,
        Tail::Arguments => 24,
    }
}
