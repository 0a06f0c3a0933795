// Reading an extension (format/item.rs): its identifier, its data, and the record that they make.
#![tactic(auto)]

ghost use Rattle.std.specs.Prelude.{◌≡◌, ◌≤◌, pos, length};
ghost use Rattle.packer.specs.Parts.{shown};
ghost use Rattle.shapes.specs.steps.Shapes.{id_part, fields_with};
ghost use Rattle.extensions.specs.Extensions.{find, payload_at};
ghost use Rattle.item.specs.Records.{of_payload, of_found, read_ex};
ghost use Rattle.item.specs.Contents.{item_of};
ghost use Rattle.extension_records.specs.steps.Views.{ex_is, ex_content};

use extensions::{Extension, Layout};
use item::Item;
use packer::{DataRead, Part, PartRead};
use shapes::{Fields, FieldsRead};

// An extension and the place past it; or that the bytes run out; or that the length of its data has been read and is below 0.
#[derive(Clone, Copy)]
pub enum ExRead {
    Got { item: Item, next: usize },
    RunsOut,
    NegativeLength,
}

// The record of an extension, of its fields; where all the data is one field, it is the text.
fn ex_item(which: Extension, f: Fields) -> Item
    ensures { item_of result ≡ ex_content which (payload_at which) f }
{
    let first = f.first;
    let second = f.second;
    let uuid = f.uuid;
    let text = f.text;
    match which {
        Extension::Antibot => Item::Antibot { data: text },
        Extension::AuthInit => Item::AuthInit {
            cid: first,
            level: second,
            identity: text,
        },
        Extension::AuthLogin => Item::AuthLogin {
            cid: first,
            level: second,
            identity: text,
        },
        Extension::AuthLogout => Item::AuthLogout { cid: first },
        Extension::Ddnetver => Item::Ddnetver {
            cid: first,
            connection_id: uuid,
            ddnet_version: second,
            ddnet_version_str: text,
        },
        Extension::DdnetverOld => Item::DdnetverOld {
            cid: first,
            ddnet_version: second,
        },
        Extension::Joinver6 => Item::Joinver6 { cid: first },
        Extension::Joinver7 => Item::Joinver7 { cid: first },
        Extension::PlayerFinish => Item::PlayerFinish {
            cid: first,
            time_ticks: second,
        },
        Extension::PlayerName => Item::PlayerName {
            cid: first,
            name: text,
        },
        Extension::PlayerReady => Item::PlayerReady { cid: first },
        Extension::PlayerRejoin => Item::PlayerRejoin { cid: first },
        Extension::PlayerSwap => Item::PlayerSwap {
            cid1: first,
            cid2: second,
        },
        Extension::PlayerTeam => Item::PlayerTeam {
            cid: first,
            team: second,
        },
        Extension::TeamFinish => Item::TeamFinish {
            team: first,
            time_ticks: second,
        },
        Extension::TeamLoadFailure => Item::TeamLoadFailure { team: first },
        Extension::TeamLoadSuccess => Item::TeamLoadSuccess {
            team: first,
            save_uuid: uuid,
            save: text,
        },
        Extension::TeamPractice => Item::TeamPractice {
            team: first,
            practice: second,
        },
        Extension::TeamSaveFailure => Item::TeamSaveFailure { team: first },
        Extension::TeamSaveSuccess => Item::TeamSaveSuccess {
            team: first,
            save_uuid: uuid,
            save: text,
        },
    }
}

// All the data as one field.
fn data_fields(load: Part) -> Fields
    ensures { result ≡ fields_with (pos 0) (pos 0) 0 load }
{
    Fields {
        first: 0,
        second: 0,
        uuid: 0,
        text: load,
    }
}

// The record of an extension whose data is load, which ends at next.
fn read_payload(s: &[u8], which: Extension, load: Part, next: usize) -> ExRead
    requires { next ≤ length s.now }
    ensures { ex_is result ≡ of_payload s.now load which (payload_at which) next }
{
    let layout = extensions::payload_of(which);
    match layout {
        Layout::Shaped(shape) => {
            let start = load.at;
            let read = shapes::read_shape(shape, &s[..next], start);
            match read {
                FieldsRead::Got { fields, next: _ } => ExRead::Got {
                    item: ex_item(which, fields),
                    next,
                },
                FieldsRead::RunsOut => ExRead::RunsOut,
                FieldsRead::NegativeLength => ExRead::NegativeLength,
            }
        }
        Layout::Whole => ExRead::Got {
            item: ex_item(which, data_fields(load)),
            next,
        },
    }
}

// The record of the identifier at a place, whose data is load, which ends at next.
fn read_found(s: &[u8], at: usize, load: Part, next: usize) -> ExRead
    requires { next ≤ length s.now }
    ensures { ex_is result ≡ of_found s.now (id_part at) load (find (shown s.now (id_part at))) next }
{
    let found = ids::find_id(s, at);
    match found {
        Some(which) => read_payload(s, which, load, next),
        None => ExRead::Got {
            item: Item::UnknownEx {
                uuid: at,
                data: load,
            },
            next,
        },
    }
}

// An extension at a place of the window.
pub fn read_ex(s: &[u8], at: usize) -> ExRead
    ensures { ex_is result ≡ read_ex s.now at }
{
    let PartRead::Got {
        part: _,
        next: after_id,
    } = packer::read_raw(s, at, 16)
    else {
        return ExRead::RunsOut;
    };
    let read = packer::read_data(s, after_id);
    match read {
        DataRead::Got { part: load, next } => read_found(s, at, load, next),
        DataRead::RunsOut => ExRead::RunsOut,
        DataRead::NegativeLength => ExRead::NegativeLength,
    }
}
