// Field sequences that hold several values: the arguments of a command, the ten numbers of an input.
#![tactic(auto)]

ghost use Rattle.std.specs.Prelude.{◌≡◌, []};
ghost use Rattle.fields.specs.Fields.{args, read_field, read_fields, args_from};
ghost use Rattle.fields.specs.Views.{zeros, ten_fields};
ghost use Rattle.fields.specs.steps.Sorts.{input_fields};
ghost use Rattle.fields.specs.steps.Reads.{read_args, args_read, field_parts, input_with, input_read, ten_read};

use packer::{Part, PartRead};
use refusal::Refusal;
use varint::IntRead;

// The arguments of a command: as many of the parts as count says; the others are empty.
#[derive(Clone, Copy)]
pub struct Args {
    pub count: usize,
    pub parts: [Part; 16],
}

// The place past the arguments.
#[derive(Clone, Copy)]
pub enum ArgsAnswer {
    Got(usize),
    RunsOut,
    Refused(Refusal),
}

// The arguments stand beside the answer; there are none in a refusal and where the bytes run out.
#[derive(Clone, Copy)]
pub struct ArgsRead {
    pub answer: ArgsAnswer,
    pub args: Args,
}

const NO_PART: Part = Part { at: 0, len: 0 };

fn no_args(answer: ArgsAnswer) -> ArgsRead
    ensures { result ≡ read_args answer [] }
{
    ArgsRead {
        answer,
        args: Args {
            count: 0,
            parts: [NO_PART; 16],
        },
    }
}

// n strings.
fn read_strings(s: &[u8], at: usize, n: usize) -> ArgsRead
    ensures { result ≡ args_read (args_from n s.now [] at) }
{
    let mut parts = [NO_PART; 16];
    let mut next = at;
    for count in 0..n {
        let PartRead::Got { part, next: past } = packer::read_string(s, next) else {
            return no_args(ArgsAnswer::RunsOut);
        };
        if count == 16 {
            return no_args(ArgsAnswer::Refused(Refusal::NumArgsTooLarge));
        }
        parts[count] = part;
        next = past;
    }
    ArgsRead {
        answer: ArgsAnswer::Got(next),
        args: Args { count: n, parts },
    }
}

// A count, then that many strings, at most 16.
pub fn read_args(s: &[u8], at: usize) -> ArgsRead
    ensures { result ≡ args_read (field_parts (read_field args s.now at)) }
{
    let IntRead::Got {
        value,
        next,
        remark: _,
    } = varint::read_int(s, at)
    else {
        return no_args(ArgsAnswer::RunsOut);
    };
    if value < 0 {
        return no_args(ArgsAnswer::Refused(Refusal::NegativeNumArgs));
    }
    read_strings(s, next, value as usize)
}

// The place past n strings, byte by byte: the strings themselves are not kept, and most are short.
fn skip_strings(s: &[u8], at: usize, n: usize) -> ArgsAnswer
    ensures { result ≡ (args_read (args_from n s.now [] at)).answer }
{
    if n == 0 {
        return ArgsAnswer::Got(at);
    }
    let mut passed: usize = 0;
    for i in at..s.len() {
        if s[i] == 0 {
            if passed == 16 {
                return ArgsAnswer::Refused(Refusal::NumArgsTooLarge);
            }
            passed += 1;
            if passed == n {
                return ArgsAnswer::Got(i + 1);
            }
        }
    }
    ArgsAnswer::RunsOut
}

// The arguments where only the place past them is wanted.
pub fn skip_args(s: &[u8], at: usize) -> ArgsAnswer
    ensures { result ≡ (args_read (field_parts (read_field args s.now at))).answer }
{
    let IntRead::Got {
        value,
        next,
        remark: _,
    } = varint::read_int(s, at)
    else {
        return ArgsAnswer::RunsOut;
    };
    if value < 0 {
        return ArgsAnswer::Refused(Refusal::NegativeNumArgs);
    }
    skip_strings(s, next, value as usize)
}

// The client of an input and the place past its numbers.
#[derive(Clone, Copy)]
pub enum InputAnswer {
    Got { cid: i32, next: usize },
    RunsOut,
}

// The ten numbers stand beside the answer; they are zeros where the bytes run out.
#[derive(Clone, Copy)]
pub struct InputRead {
    pub answer: InputAnswer,
    pub input: [i32; 10],
}

fn no_input() -> InputRead
    ensures { result ≡ input_with InputAnswer.RunsOut (zeros 10) }
{
    InputRead {
        answer: InputAnswer::RunsOut,
        input: [0; 10],
    }
}

// Ten numbers, behind the client that was read.
fn read_ten(s: &[u8], at: usize, cid: i32) -> InputRead
    ensures { result ≡ ten_read cid (read_fields ten_fields s.now at) }
{
    let mut input = [0i32; 10];
    let mut next = at;
    for k in 0..10 {
        let IntRead::Got {
            value,
            next: past,
            remark: _,
        } = varint::read_int(s, next)
        else {
            return no_input();
        };
        input[k] = value;
        next = past;
    }
    InputRead {
        answer: InputAnswer::Got { cid, next },
        input,
    }
}

// The client and the ten numbers of InputDiff and InputNew.
pub fn read_input(s: &[u8], at: usize) -> InputRead
    ensures { result ≡ input_read (read_fields input_fields s.now at) }
{
    let IntRead::Got {
        value: cid,
        next,
        remark: _,
    } = varint::read_int(s, at)
    else {
        return no_input();
    };
    read_ten(s, next, cid)
}
