// Reading records (format/item.rs): the rest of a record of a kind, and a whole record.
#![tactic(auto)]

ghost use Rattle.std.specs.Prelude.{◌≡◌, true};
ghost use Rattle.fields.specs.Fields.{read_fields};
ghost use Rattle.fields.specs.Views.{zeros};
ghost use Rattle.item.specs.Records.{read_ex, read_rest};
ghost use Rattle.item.specs.Contents.{item_of, record_with, no_args};
ghost use Rattle.item.specs.Own.{own_fields};
ghost use Rattle.item.specs.steps.Taken.{from_fields};
ghost use Rattle.item.specs.declared.Tag.TheVariants.{Plain};
ghost use Rattle.records.specs.steps.Views.{item_is, own, read_is, rest_code, is_shaped, record_read, input_item, head_is, command_read, whole_of, RestRead, RecordAt};
ghost use Rattle.kinds.specs.steps.Kinds.{input_kind};

use extension_records::ExRead;
use fields::{Args, ArgsAnswer, InputAnswer};
use item::{Item, Record};
use kinds::{Kind, KindRead, Version};
use packer::{Part, PartRead};
use refusal::Refusal;
use shapes::{Fields, FieldsRead, PairRead, Shape};
use varint::IntRead;

// A record without what stands beside it, and the place past it.
#[derive(Clone, Copy)]
pub enum ItemRead {
    Got { item: Item, next: usize },
    RunsOut,
    Refused(Refusal),
}

fn read_dt(s: &[u8], at: usize) -> ItemRead
    ensures { item_is result ≡ read_rest Kind.TickSkip s.now at }
{
    let IntRead::Got {
        value,
        next,
        remark: _,
    } = varint::read_int(s, at)
    else {
        return ItemRead::RunsOut;
    };
    if value < 0 {
        return ItemRead::Refused(Refusal::NegativeDt);
    }
    ItemRead::Got {
        item: Item::TickSkip { dt: value as u32 },
        next,
    }
}

// An extension at a place of the window.
fn read_ex(s: &[u8], at: usize) -> ItemRead
    ensures { item_is result ≡ read_ex s.now at }
{
    let read = extension_records::read_ex(s, at);
    match read {
        ExRead::Got { item, next } => ItemRead::Got { item, next },
        ExRead::RunsOut => ItemRead::RunsOut,
        ExRead::NegativeLength => ItemRead::Refused(Refusal::NegativeLength),
    }
}

// How a record goes on after its kind: fields of a shape; dt; an input (whether a new one) or a command, which have something beside
// them; an extension.
#[derive(Clone, Copy)]
pub enum Rest {
    Shaped(Shape),
    Dt,
    Input(bool),
    Command,
    Extension,
}

fn rest_of(kind: Kind) -> Rest
    ensures { result ≡ rest_code kind }
{
    match kind {
        Kind::PlayerDiff(_) => Rest::Shaped(Shape::IntInt),
        Kind::Finish => Rest::Shaped(Shape::Nothing),
        Kind::TickSkip => Rest::Dt,
        Kind::PlayerNew(_) => Rest::Shaped(Shape::IntInt),
        Kind::PlayerOld(_) => Rest::Shaped(Shape::Nothing),
        Kind::InputDiff => Rest::Input(false),
        Kind::InputNew => Rest::Input(true),
        Kind::Message => Rest::Shaped(Shape::IntData),
        Kind::Join => Rest::Shaped(Shape::Int),
        Kind::Drop => Rest::Shaped(Shape::IntStr),
        Kind::ConsoleCommand => Rest::Command,
        Kind::Ex => Rest::Extension,
    }
}

// The record of a kind that has a shape, of its fields.
fn plain_item(kind: Kind, f: Fields) -> Item
    requires { is_shaped (rest_code kind) ≡ true }
    ensures { item_of result ≡ from_fields (Plain kind) f }
{
    let first = f.first;
    let second = f.second;
    let text = f.text;
    match kind {
        Kind::PlayerDiff(cid) => Item::PlayerDiff {
            cid,
            dx: first,
            dy: second,
        },
        Kind::Finish => Item::Finish,
        Kind::TickSkip => Item::Finish,
        Kind::PlayerNew(cid) => Item::PlayerNew {
            cid,
            x: first,
            y: second,
        },
        Kind::PlayerOld(cid) => Item::PlayerOld { cid },
        Kind::InputDiff => Item::Finish,
        Kind::InputNew => Item::Finish,
        Kind::Message => Item::Message {
            cid: first,
            msg: text,
        },
        Kind::Join => Item::Join { cid: first },
        Kind::Drop => Item::Drop {
            cid: first,
            reason: text,
        },
        Kind::ConsoleCommand => Item::Finish,
        Kind::Ex => Item::Finish,
    }
}

fn read_shaped(kind: Kind, shape: Shape, s: &[u8], at: usize) -> ItemRead
    requires { rest_code kind ≡ Rest.Shaped shape }
    ensures { item_is result ≡ read_rest kind s.now at }
{
    let read = shapes::read_shape(shape, s, at);
    match read {
        FieldsRead::Got { fields, next } => ItemRead::Got {
            item: plain_item(kind, fields),
            next,
        },
        FieldsRead::RunsOut => ItemRead::RunsOut,
        FieldsRead::NegativeLength => ItemRead::Refused(Refusal::NegativeLength),
    }
}

// The place past a whole record.
#[derive(Clone, Copy)]
pub enum RecordAnswer {
    Got(usize),
    RunsOut,
    Refused(Refusal),
}

// The record stands beside the answer; it is a blank one (Finish, zeros, no arguments) where there is none.
#[derive(Clone, Copy)]
pub struct RecordRead {
    pub answer: RecordAnswer,
    pub value: Record,
}

const NO_PART: Part = Part { at: 0, len: 0 };

// A record with nothing beside it.
fn alone(answer: RecordAnswer, item: Item) -> RecordRead
    ensures { result ≡ record_read answer (record_with item (zeros 10) no_args) }
{
    RecordRead {
        answer,
        value: Record {
            item,
            input: [0; 10],
            args: Args {
                count: 0,
                parts: [NO_PART; 16],
            },
        },
    }
}

fn input_item(new: bool, cid: i32) -> Item
    ensures { result ≡ input_item new cid }
{
    if new {
        return Item::InputNew { cid };
    }
    Item::InputDiff { cid }
}

// InputNew or InputDiff: the ten numbers stand beside the record.
fn read_input(new: bool, s: &[u8], at: usize) -> RecordRead
    ensures { RestRead (input_kind new) s.now at result }
{
    let read = fields::read_input(s, at);
    let answer = read.answer;
    let input = read.input;
    let InputAnswer::Got { cid, next } = answer else {
        return alone(RecordAnswer::RunsOut, Item::Finish);
    };
    RecordRead {
        answer: RecordAnswer::Got(next),
        value: Record {
            item: input_item(new, cid),
            input,
            args: Args {
                count: 0,
                parts: [NO_PART; 16],
            },
        },
    }
}

// A command with the arguments that were read behind it.
fn command(answer: ArgsAnswer, item: Item, args: Args) -> RecordRead
    ensures { result ≡ command_read answer item args }
{
    match answer {
        ArgsAnswer::Got(next) => RecordRead {
            answer: RecordAnswer::Got(next),
            value: Record {
                item,
                input: [0; 10],
                args,
            },
        },
        ArgsAnswer::RunsOut => alone(RecordAnswer::RunsOut, Item::Finish),
        ArgsAnswer::Refused(r) => alone(RecordAnswer::Refused(r), Item::Finish),
    }
}

// What a command holds before its arguments, and their place.
#[derive(Clone, Copy)]
pub enum HeadRead {
    Got {
        cid: i32,
        flag_mask: u32,
        cmd: Part,
        next: usize,
    },
    RunsOut,
}

fn read_head(s: &[u8], at: usize) -> HeadRead
    ensures { head_is result ≡ read_fields (own_fields (Plain Kind.ConsoleCommand)) s.now at }
{
    let PairRead::Got {
        first: cid,
        second: mask,
        next: at_cmd,
    } = shapes::read_pair(s, at)
    else {
        return HeadRead::RunsOut;
    };
    let PartRead::Got { part: cmd, next } = packer::read_string(s, at_cmd) else {
        return HeadRead::RunsOut;
    };
    HeadRead::Got {
        cid,
        flag_mask: num::bits(mask),
        cmd,
        next,
    }
}

// ConsoleCommand: the arguments stand beside the record.
fn read_console(s: &[u8], at: usize) -> RecordRead
    ensures { RestRead Kind.ConsoleCommand s.now at result }
{
    let HeadRead::Got {
        cid,
        flag_mask,
        cmd,
        next,
    } = read_head(s, at)
    else {
        return alone(RecordAnswer::RunsOut, Item::Finish);
    };
    let read = fields::read_args(s, next);
    let answer = read.answer;
    let args = read.args;
    let item = Item::ConsoleCommand {
        cid,
        flag_mask,
        cmd,
    };
    command(answer, item, args)
}

// ConsoleCommand without its arguments.
fn console_item(s: &[u8], at: usize) -> ItemRead
    ensures { item_is result ≡ own (read_rest Kind.ConsoleCommand s.now at) }
{
    let HeadRead::Got {
        cid,
        flag_mask,
        cmd,
        next,
    } = read_head(s, at)
    else {
        return ItemRead::RunsOut;
    };
    let answer = fields::skip_args(s, next);
    match answer {
        ArgsAnswer::Got(past) => ItemRead::Got {
            item: Item::ConsoleCommand {
                cid,
                flag_mask,
                cmd,
            },
            next: past,
        },
        ArgsAnswer::RunsOut => ItemRead::RunsOut,
        ArgsAnswer::Refused(r) => ItemRead::Refused(r),
    }
}

fn whole(read: ItemRead) -> RecordRead
    ensures { result ≡ whole_of read }
{
    match read {
        ItemRead::Got { item, next } => alone(RecordAnswer::Got(next), item),
        ItemRead::RunsOut => alone(RecordAnswer::RunsOut, Item::Finish),
        ItemRead::Refused(r) => alone(RecordAnswer::Refused(r), Item::Finish),
    }
}

// The rest of a record of a kind, at a place of the window.
pub fn read_rest(kind: Kind, s: &[u8], at: usize) -> RecordRead
    ensures { RestRead kind s.now at result }
{
    let rest = rest_of(kind);
    match rest {
        Rest::Shaped(shape) => whole(read_shaped(kind, shape, s, at)),
        Rest::Dt => whole(read_dt(s, at)),
        Rest::Input(new) => read_input(new, s, at),
        Rest::Command => read_console(s, at),
        Rest::Extension => whole(read_ex(s, at)),
    }
}

// A record that was read, without what stands beside it.
fn item_of(read: RecordRead) -> ItemRead
    ensures { item_is result ≡ own (read_is read) }
{
    let answer = read.answer;
    let value = read.value;
    let item = value.item;
    match answer {
        RecordAnswer::Got(next) => ItemRead::Got { item, next },
        RecordAnswer::RunsOut => ItemRead::RunsOut,
        RecordAnswer::Refused(r) => ItemRead::Refused(r),
    }
}

// The rest of a record without what stands beside it.
pub fn read_item(kind: Kind, s: &[u8], at: usize) -> ItemRead
    ensures { item_is result ≡ own (read_rest kind s.now at) }
{
    let rest = rest_of(kind);
    match rest {
        Rest::Shaped(shape) => read_shaped(kind, shape, s, at),
        Rest::Dt => read_dt(s, at),
        Rest::Input(new) => item_of(read_input(new, s, at)),
        Rest::Command => console_item(s, at),
        Rest::Extension => read_ex(s, at),
    }
}

// A record at the start of the window.
pub fn read_record(version: Version, s: &[u8]) -> RecordRead
    ensures { RecordAt version s.now result }
{
    let read = kinds::read_kind(version, s, 0);
    match read {
        KindRead::Got { kind, next } => read_rest(kind, s, next),
        KindRead::RunsOut => alone(RecordAnswer::RunsOut, Item::Finish),
        KindRead::Refused(r) => alone(RecordAnswer::Refused(r), Item::Finish),
    }
}
