// Versions and kinds (format/mod.rs, format/item.rs): what the first integer of a record says.
#![tactic(auto)]

ghost use Rattle.std.specs.Prelude.{◌≡◌};
ghost use Rattle.varint.specs.Integers.{read_int};
ghost use Rattle.kinds.specs.Kinds.{kind_of, read_kind, kind_number, kind_cid};
ghost use Rattle.kinds.specs.steps.Kinds.{player_kind, with_client, kind_is};
ghost use Rattle.kinds.specs.Magic.{version_of};
ghost use Rattle.kinds.specs.Views.{version_is};

use refusal::Refusal;
use varint::IntRead;

#[derive(Clone, Copy)]
pub enum Version {
    V1,
    V2,
}

// What a record is, by its first integer; the client belongs to the kind of a player record.
#[derive(Clone, Copy)]
pub enum Kind {
    PlayerDiff(i32),
    Finish,
    TickSkip,
    PlayerNew(i32),
    PlayerOld(i32),
    InputDiff,
    InputNew,
    Message,
    Join,
    Drop,
    ConsoleCommand,
    Ex,
}

impl Kind {
    pub const FINISH: i32 = -1;

    pub const TICK_SKIP: i32 = -2;

    pub const PLAYER_NEW: i32 = -3;

    pub const PLAYER_OLD: i32 = -4;

    pub const INPUT_DIFF: i32 = -5;

    pub const INPUT_NEW: i32 = -6;

    pub const MESSAGE: i32 = -7;

    pub const JOIN: i32 = -8;

    pub const DROP: i32 = -9;

    pub const CONSOLE_COMMAND: i32 = -10;

    pub const EX: i32 = -11;

    pub fn number(self) -> i32
        ensures { result ≡ kind_number self }
    {
        match self {
            Kind::PlayerDiff(cid) => cid,
            Kind::Finish => Kind::FINISH,
            Kind::TickSkip => Kind::TICK_SKIP,
            Kind::PlayerNew(_) => Kind::PLAYER_NEW,
            Kind::PlayerOld(_) => Kind::PLAYER_OLD,
            Kind::InputDiff => Kind::INPUT_DIFF,
            Kind::InputNew => Kind::INPUT_NEW,
            Kind::Message => Kind::MESSAGE,
            Kind::Join => Kind::JOIN,
            Kind::Drop => Kind::DROP,
            Kind::ConsoleCommand => Kind::CONSOLE_COMMAND,
            Kind::Ex => Kind::EX,
        }
    }

    // The client of a record of this kind whose first number this is, or none.
    pub fn cid(self, first: i32) -> Option<i32>
        ensures { result ≡ kind_cid self first }
    {
        match self {
            Kind::PlayerDiff(cid) => Some(cid),
            Kind::Finish => None,
            Kind::TickSkip => None,
            Kind::PlayerNew(cid) => Some(cid),
            Kind::PlayerOld(cid) => Some(cid),
            Kind::InputDiff => Some(first),
            Kind::InputNew => Some(first),
            Kind::Message => Some(first),
            Kind::Join => Some(first),
            Kind::Drop => Some(first),
            Kind::ConsoleCommand => Some(first),
            Kind::Ex => None,
        }
    }
}

#[derive(Clone, Copy)]
pub enum KindRead {
    Got { kind: Kind, next: usize },
    RunsOut,
    Refused(Refusal),
}

pub fn version_of(number: i32) -> Result<Version, Refusal>
    ensures { version_is result ≡ version_of number }
{
    match number {
        1 => Ok(Version::V1),
        2 => Ok(Version::V2),
        _ => Err(Refusal::UnknownVersion),
    }
}

// The client of a player kind, at a place of the window.
fn with_client(old: bool, s: &[u8], at: usize) -> KindRead
    ensures { kind_is result ≡ with_client (player_kind old) (read_int s.now at) }
{
    let IntRead::Got {
        value: cid,
        next,
        remark: _,
    } = varint::read_int(s, at)
    else {
        return KindRead::RunsOut;
    };
    if old {
        return KindRead::Got {
            kind: Kind::PlayerOld(cid),
            next,
        };
    }
    KindRead::Got {
        kind: Kind::PlayerNew(cid),
        next,
    }
}

// What the number says that was read as a kind; next is the place past it.
fn kind_of(version: Version, s: &[u8], number: i32, next: usize) -> KindRead
    ensures { kind_is result ≡ kind_of version s.now number next }
{
    match number {
        0..=2147483647 => KindRead::Got {
            kind: Kind::PlayerDiff(number),
            next,
        },
        Kind::FINISH => KindRead::Got {
            kind: Kind::Finish,
            next,
        },
        Kind::TICK_SKIP => KindRead::Got {
            kind: Kind::TickSkip,
            next,
        },
        Kind::PLAYER_NEW => with_client(false, s, next),
        Kind::PLAYER_OLD => with_client(true, s, next),
        Kind::INPUT_DIFF => KindRead::Got {
            kind: Kind::InputDiff,
            next,
        },
        Kind::INPUT_NEW => KindRead::Got {
            kind: Kind::InputNew,
            next,
        },
        Kind::MESSAGE => KindRead::Got {
            kind: Kind::Message,
            next,
        },
        Kind::JOIN => KindRead::Got {
            kind: Kind::Join,
            next,
        },
        Kind::DROP => KindRead::Got {
            kind: Kind::Drop,
            next,
        },
        Kind::CONSOLE_COMMAND => KindRead::Got {
            kind: Kind::ConsoleCommand,
            next,
        },
        Kind::EX => match version {
            Version::V1 => KindRead::Refused(Refusal::UnknownType(number)),
            Version::V2 => KindRead::Got {
                kind: Kind::Ex,
                next,
            },
        },
        _ => KindRead::Refused(Refusal::UnknownType(number)),
    }
}

// The kind at a place of the window.
pub fn read_kind(version: Version, s: &[u8], at: usize) -> KindRead
    ensures { kind_is result ≡ read_kind version s.now at }
{
    let IntRead::Got {
        value,
        next,
        remark: _,
    } = varint::read_int(s, at)
    else {
        return KindRead::RunsOut;
    };
    kind_of(version, s, value, next)
}
