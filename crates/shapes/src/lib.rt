// The field sequences that records share, and how they are read.
#![tactic(auto)]

ghost use Rattle.std.specs.Prelude.{◌≡◌, false};
ghost use Rattle.fields.specs.Fields.{read_fields};
ghost use Rattle.varint.specs.Integers.{read_int};
ghost use Rattle.shapes.specs.steps.Shapes.{fields_in, pair_is, is_nothing, numbers_read, text_read, data_read, second_read, ShowsRest, Read};

use packer::{DataRead, Part, PartRead};
use varint::IntRead;

// Named for the fields: numbers, 16 bytes of an identifier, then a string or data.
#[derive(Clone, Copy)]
pub enum Shape {
    Nothing,
    Int,
    IntInt,
    IntStr,
    IntIntStr,
    IntUuidStr,
    IntUuidIntStr,
    IntData,
}

// The fields of every shape; those that a shape lacks are zero and empty. Of an identifier it is the place.
#[derive(Clone, Copy)]
pub struct Fields {
    pub first: i32,
    pub second: i32,
    pub uuid: usize,
    pub text: Part,
}

// The fields and the place past them; or that the bytes run out; or that the length of data has been read and is below 0.
#[derive(Clone, Copy)]
pub enum FieldsRead {
    Got { fields: Fields, next: usize },
    RunsOut,
    NegativeLength,
}

// Two numbers and the place past them. It is smaller than FieldsRead: most records hold no more.
#[derive(Clone, Copy)]
pub enum PairRead {
    Got {
        first: i32,
        second: i32,
        next: usize,
    },
    RunsOut,
}

const NO_PART: Part = Part { at: 0, len: 0 };

// Two numbers.
pub fn read_pair(s: &[u8], at: usize) -> PairRead
    ensures { pair_is result ≡ read_fields (fields_in Shape.IntInt) s.now at }
{
    let IntRead::Got {
        value: x,
        next: at_y,
        remark: _,
    } = varint::read_int(s, at)
    else {
        return PairRead::RunsOut;
    };
    let IntRead::Got {
        value: y,
        next,
        remark: _,
    } = varint::read_int(s, at_y)
    else {
        return PairRead::RunsOut;
    };
    PairRead::Got {
        first: x,
        second: y,
        next,
    }
}

// The fields of a shape that ends in no text.
fn no_text(first: i32, second: i32, next: usize) -> FieldsRead
    ensures { result ≡ numbers_read first second next }
{
    FieldsRead::Got {
        fields: Fields {
            first,
            second,
            uuid: 0,
            text: NO_PART,
        },
        next,
    }
}

// The fields of a shape that ends in a string.
fn with_text(first: i32, second: i32, uuid: usize, text: PartRead) -> FieldsRead
    ensures { result ≡ text_read first second uuid text }
{
    let PartRead::Got { part: text, next } = text else {
        return FieldsRead::RunsOut;
    };
    FieldsRead::Got {
        fields: Fields {
            first,
            second,
            uuid,
            text,
        },
        next,
    }
}

// A number and the data behind it.
fn with_data(first: i32, load: DataRead) -> FieldsRead
    ensures { result ≡ data_read first load }
{
    match load {
        DataRead::Got { part: text, next } => FieldsRead::Got {
            fields: Fields {
                first,
                second: 0,
                uuid: 0,
                text,
            },
            next,
        },
        DataRead::RunsOut => FieldsRead::RunsOut,
        DataRead::NegativeLength => FieldsRead::NegativeLength,
    }
}

// The second number, and a string behind it where the shape has one.
fn read_second(first: i32, uuid: usize, string: bool, s: &[u8], at: usize) -> FieldsRead
    ensures { result ≡ second_read first uuid string s.now (read_int s.now at) }
{
    let IntRead::Got {
        value: second,
        next,
        remark: _,
    } = varint::read_int(s, at)
    else {
        return FieldsRead::RunsOut;
    };
    if string {
        return with_text(first, second, uuid, packer::read_string(s, next));
    }
    no_text(first, second, next)
}

fn is_nothing(shape: Shape) -> bool
    ensures { result ≡ is_nothing shape }
{
    matches!(shape, Shape::Nothing)
}

// What follows the first number.
fn read_rest(shape: Shape, first: i32, s: &[u8], at: usize) -> FieldsRead
    requires { is_nothing shape ≡ false }
    ensures { ShowsRest shape first s.now at result }
{
    match shape {
        Shape::Nothing => FieldsRead::RunsOut,
        Shape::Int => no_text(first, 0, at),
        Shape::IntInt => read_second(first, 0, false, s, at),
        Shape::IntStr => with_text(first, 0, 0, packer::read_string(s, at)),
        Shape::IntIntStr => read_second(first, 0, true, s, at),
        Shape::IntUuidStr => {
            let PartRead::Got { part: _, next } = packer::read_raw(s, at, 16) else {
                return FieldsRead::RunsOut;
            };
            with_text(first, 0, at, packer::read_string(s, next))
        }
        Shape::IntUuidIntStr => {
            let PartRead::Got { part: _, next } = packer::read_raw(s, at, 16) else {
                return FieldsRead::RunsOut;
            };
            read_second(first, at, true, s, next)
        }
        Shape::IntData => with_data(first, packer::read_data(s, at)),
    }
}

// The fields of a shape at a place of the window.
pub fn read_shape(shape: Shape, s: &[u8], at: usize) -> FieldsRead
    ensures { Read shape s.now at result }
{
    if is_nothing(shape) {
        return no_text(0, 0, at);
    }
    let IntRead::Got {
        value: first,
        next,
        remark: _,
    } = varint::read_int(s, at)
    else {
        return FieldsRead::RunsOut;
    };
    read_rest(shape, first, s, next)
}
