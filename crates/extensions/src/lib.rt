// The twenty extensions that the format names (format/item.rs): what stands in the data of each, and which have a client.
#![tactic(auto)]

ghost use Rattle.std.specs.Prelude.{◌≡◌, get_or};
ghost use Rattle.extensions.specs.Extensions.{all, payload_at, has_client};
ghost use Rattle.extensions.specs.steps.Layouts.{payload_is, row_with, RowOf};
ghost use Rattle.extensions.specs.declared.Extension.TheVariants.{TeamSaveSuccess};

use shapes::Shape;

// In the order of docs/FORMAT.md.
#[derive(Clone, Copy)]
pub enum Extension {
    Antibot,
    AuthInit,
    AuthLogin,
    AuthLogout,
    Ddnetver,
    DdnetverOld,
    Joinver6,
    Joinver7,
    PlayerFinish,
    PlayerName,
    PlayerReady,
    PlayerRejoin,
    PlayerSwap,
    PlayerTeam,
    TeamFinish,
    TeamLoadFailure,
    TeamLoadSuccess,
    TeamPractice,
    TeamSaveFailure,
    TeamSaveSuccess,
}

// What stands in an extension's data: fields of a shape, or all of it is one part.
#[derive(Clone, Copy)]
pub enum Layout {
    Shaped(Shape),
    Whole,
}

// What stands in an extension's data, and whether its first number is the record's client.
#[derive(Clone, Copy)]
pub struct Row {
    layout: Layout,
    client: bool,
}

fn row_with(layout: Layout, client: bool) -> Row
    ensures { result ≡ row_with layout client }
{
    Row { layout, client }
}

fn row_of(which: Extension) -> Row
    ensures { RowOf which result }
{
    match which {
        Extension::Antibot => row_with(Layout::Whole, false),
        Extension::AuthInit => row_with(Layout::Shaped(Shape::IntIntStr), true),
        Extension::AuthLogin => row_with(Layout::Shaped(Shape::IntIntStr), true),
        Extension::AuthLogout => row_with(Layout::Shaped(Shape::Int), true),
        Extension::Ddnetver => row_with(Layout::Shaped(Shape::IntUuidIntStr), true),
        Extension::DdnetverOld => row_with(Layout::Shaped(Shape::IntInt), true),
        Extension::Joinver6 => row_with(Layout::Shaped(Shape::Int), true),
        Extension::Joinver7 => row_with(Layout::Shaped(Shape::Int), true),
        Extension::PlayerFinish => row_with(Layout::Shaped(Shape::IntInt), true),
        Extension::PlayerName => row_with(Layout::Shaped(Shape::IntStr), true),
        Extension::PlayerReady => row_with(Layout::Shaped(Shape::Int), true),
        Extension::PlayerRejoin => row_with(Layout::Shaped(Shape::Int), true),
        Extension::PlayerSwap => row_with(Layout::Shaped(Shape::IntInt), false),
        Extension::PlayerTeam => row_with(Layout::Shaped(Shape::IntInt), true),
        Extension::TeamFinish => row_with(Layout::Shaped(Shape::IntInt), false),
        Extension::TeamLoadFailure => row_with(Layout::Shaped(Shape::Int), false),
        Extension::TeamLoadSuccess => row_with(Layout::Shaped(Shape::IntUuidStr), false),
        Extension::TeamPractice => row_with(Layout::Shaped(Shape::IntInt), false),
        Extension::TeamSaveFailure => row_with(Layout::Shaped(Shape::Int), false),
        Extension::TeamSaveSuccess => row_with(Layout::Shaped(Shape::IntUuidStr), false),
    }
}

// What stands in the data of an extension.
pub fn payload_of(which: Extension) -> Layout
    ensures { payload_is result ≡ payload_at which }
{
    let found = row_of(which);
    found.layout
}

// Whether the first number of an extension is the record's client.
pub fn has_client(which: Extension) -> bool
    ensures { result ≡ has_client which }
{
    let found = row_of(which);
    found.client
}

// The extension at a place of the list, from 0 on; the last where there is none.
pub fn extension_at(k: usize) -> Extension
    ensures { result ≡ get_or all k TeamSaveSuccess }
{
    match k {
        0 => Extension::Antibot,
        1 => Extension::AuthInit,
        2 => Extension::AuthLogin,
        3 => Extension::AuthLogout,
        4 => Extension::Ddnetver,
        5 => Extension::DdnetverOld,
        6 => Extension::Joinver6,
        7 => Extension::Joinver7,
        8 => Extension::PlayerFinish,
        9 => Extension::PlayerName,
        10 => Extension::PlayerReady,
        11 => Extension::PlayerRejoin,
        12 => Extension::PlayerSwap,
        13 => Extension::PlayerTeam,
        14 => Extension::TeamFinish,
        15 => Extension::TeamLoadFailure,
        16 => Extension::TeamLoadSuccess,
        17 => Extension::TeamPractice,
        18 => Extension::TeamSaveFailure,
        _ => Extension::TeamSaveSuccess,
    }
}
