// Records (format/item.rs) by the Rust's names.
#![tactic(auto)]

ghost use Rattle.std.specs.Prelude.{◌≡◌};
ghost use Rattle.item.specs.Contents.{item_of, cid_of};
ghost use Rattle.item.specs.Numbers.{tag_number};
ghost use Rattle.item.specs.steps.Taken.{taken_of, TakenApart};

use extensions::Extension;
use fields::Args;
use kinds::Kind;
use packer::Part;
use shapes::Fields;

// Which record: a kind other than the extension's, one of the 20 extensions, another extension.
#[derive(Clone, Copy)]
pub enum Tag {
    Plain(Kind),
    Named(Extension),
    Other,
}

// A record. Strings, messages and payloads are parts of the caller's window; of 16 bytes of an identifier it is the place.
// The ten numbers of an input and the arguments of a command stand beside it.
#[derive(Clone, Copy)]
pub enum Item {
    PlayerDiff {
        cid: i32,
        dx: i32,
        dy: i32,
    },
    Finish,
    TickSkip {
        dt: u32,
    },
    PlayerNew {
        cid: i32,
        x: i32,
        y: i32,
    },
    PlayerOld {
        cid: i32,
    },
    InputDiff {
        cid: i32,
    },
    InputNew {
        cid: i32,
    },
    Message {
        cid: i32,
        msg: Part,
    },
    Join {
        cid: i32,
    },
    Drop {
        cid: i32,
        reason: Part,
    },
    ConsoleCommand {
        cid: i32,
        flag_mask: u32,
        cmd: Part,
    },
    Antibot {
        data: Part,
    },
    AuthInit {
        cid: i32,
        level: i32,
        identity: Part,
    },
    AuthLogin {
        cid: i32,
        level: i32,
        identity: Part,
    },
    AuthLogout {
        cid: i32,
    },
    Ddnetver {
        cid: i32,
        connection_id: usize,
        ddnet_version: i32,
        ddnet_version_str: Part,
    },
    DdnetverOld {
        cid: i32,
        ddnet_version: i32,
    },
    Joinver6 {
        cid: i32,
    },
    Joinver7 {
        cid: i32,
    },
    PlayerFinish {
        cid: i32,
        time_ticks: i32,
    },
    PlayerName {
        cid: i32,
        name: Part,
    },
    PlayerReady {
        cid: i32,
    },
    PlayerRejoin {
        cid: i32,
    },
    PlayerSwap {
        cid1: i32,
        cid2: i32,
    },
    PlayerTeam {
        cid: i32,
        team: i32,
    },
    TeamFinish {
        team: i32,
        time_ticks: i32,
    },
    TeamLoadFailure {
        team: i32,
    },
    TeamLoadSuccess {
        team: i32,
        save_uuid: usize,
        save: Part,
    },
    TeamPractice {
        team: i32,
        practice: i32,
    },
    TeamSaveFailure {
        team: i32,
    },
    TeamSaveSuccess {
        team: i32,
        save_uuid: usize,
        save: Part,
    },
    UnknownEx {
        uuid: usize,
        data: Part,
    },
}

// A record with what stands beside it: zeros and no arguments where it has none.
#[derive(Clone, Copy)]
pub struct Record {
    pub item: Item,
    pub input: [i32; 10],
    pub args: Args,
}

// A record taken apart.
#[derive(Clone, Copy)]
pub struct Taken {
    pub tag: Tag,
    pub fields: Fields,
}

const NO_PART: Part = Part { at: 0, len: 0 };

fn taken_with(tag: Tag, first: i32, second: i32, uuid: usize, text: Part) -> Taken
    ensures { result ≡ taken_of tag first second uuid text }
{
    Taken {
        tag,
        fields: Fields {
            first,
            second,
            uuid,
            text,
        },
    }
}

impl Item {
    // The record's tag, and the fields that hold its values; the others are zero and empty.
    pub fn take_apart(self) -> Taken
        ensures { TakenApart self result }
    {
        match self {
            Item::PlayerDiff { cid, dx, dy } => taken_with(
                Tag::Plain(Kind::PlayerDiff(cid)),
                dx,
                dy,
                0,
                NO_PART,
            ),
            Item::Finish => taken_with(Tag::Plain(Kind::Finish), 0, 0, 0, NO_PART),
            Item::TickSkip { dt } => taken_with(
                Tag::Plain(Kind::TickSkip),
                num::signed(dt),
                0,
                0,
                NO_PART,
            ),
            Item::PlayerNew { cid, x, y } => taken_with(
                Tag::Plain(Kind::PlayerNew(cid)),
                x,
                y,
                0,
                NO_PART,
            ),
            Item::PlayerOld { cid } => taken_with(
                Tag::Plain(Kind::PlayerOld(cid)),
                0,
                0,
                0,
                NO_PART,
            ),
            Item::InputDiff { cid } => taken_with(Tag::Plain(Kind::InputDiff), cid, 0, 0, NO_PART),
            Item::InputNew { cid } => taken_with(Tag::Plain(Kind::InputNew), cid, 0, 0, NO_PART),
            Item::Message { cid, msg } => taken_with(Tag::Plain(Kind::Message), cid, 0, 0, msg),
            Item::Join { cid } => taken_with(Tag::Plain(Kind::Join), cid, 0, 0, NO_PART),
            Item::Drop { cid, reason } => taken_with(Tag::Plain(Kind::Drop), cid, 0, 0, reason),
            Item::ConsoleCommand {
                cid,
                flag_mask,
                cmd,
            } => taken_with(
                Tag::Plain(Kind::ConsoleCommand),
                cid,
                num::signed(flag_mask),
                0,
                cmd,
            ),
            Item::Antibot { data } => taken_with(Tag::Named(Extension::Antibot), 0, 0, 0, data),
            Item::AuthInit {
                cid,
                level,
                identity,
            } => taken_with(Tag::Named(Extension::AuthInit), cid, level, 0, identity),
            Item::AuthLogin {
                cid,
                level,
                identity,
            } => taken_with(Tag::Named(Extension::AuthLogin), cid, level, 0, identity),
            Item::AuthLogout { cid } => taken_with(
                Tag::Named(Extension::AuthLogout),
                cid,
                0,
                0,
                NO_PART,
            ),
            Item::Ddnetver {
                cid,
                connection_id,
                ddnet_version,
                ddnet_version_str,
            } => taken_with(
                Tag::Named(Extension::Ddnetver),
                cid,
                ddnet_version,
                connection_id,
                ddnet_version_str,
            ),
            Item::DdnetverOld { cid, ddnet_version } => taken_with(
                Tag::Named(Extension::DdnetverOld),
                cid,
                ddnet_version,
                0,
                NO_PART,
            ),
            Item::Joinver6 { cid } => taken_with(
                Tag::Named(Extension::Joinver6),
                cid,
                0,
                0,
                NO_PART,
            ),
            Item::Joinver7 { cid } => taken_with(
                Tag::Named(Extension::Joinver7),
                cid,
                0,
                0,
                NO_PART,
            ),
            Item::PlayerFinish { cid, time_ticks } => taken_with(
                Tag::Named(Extension::PlayerFinish),
                cid,
                time_ticks,
                0,
                NO_PART,
            ),
            Item::PlayerName { cid, name } => taken_with(
                Tag::Named(Extension::PlayerName),
                cid,
                0,
                0,
                name,
            ),
            Item::PlayerReady { cid } => taken_with(
                Tag::Named(Extension::PlayerReady),
                cid,
                0,
                0,
                NO_PART,
            ),
            Item::PlayerRejoin { cid } => taken_with(
                Tag::Named(Extension::PlayerRejoin),
                cid,
                0,
                0,
                NO_PART,
            ),
            Item::PlayerSwap { cid1, cid2 } => taken_with(
                Tag::Named(Extension::PlayerSwap),
                cid1,
                cid2,
                0,
                NO_PART,
            ),
            Item::PlayerTeam { cid, team } => taken_with(
                Tag::Named(Extension::PlayerTeam),
                cid,
                team,
                0,
                NO_PART,
            ),
            Item::TeamFinish { team, time_ticks } => taken_with(
                Tag::Named(Extension::TeamFinish),
                team,
                time_ticks,
                0,
                NO_PART,
            ),
            Item::TeamLoadFailure { team } => taken_with(
                Tag::Named(Extension::TeamLoadFailure),
                team,
                0,
                0,
                NO_PART,
            ),
            Item::TeamLoadSuccess {
                team,
                save_uuid,
                save,
            } => taken_with(
                Tag::Named(Extension::TeamLoadSuccess),
                team,
                0,
                save_uuid,
                save,
            ),
            Item::TeamPractice { team, practice } => taken_with(
                Tag::Named(Extension::TeamPractice),
                team,
                practice,
                0,
                NO_PART,
            ),
            Item::TeamSaveFailure { team } => taken_with(
                Tag::Named(Extension::TeamSaveFailure),
                team,
                0,
                0,
                NO_PART,
            ),
            Item::TeamSaveSuccess {
                team,
                save_uuid,
                save,
            } => taken_with(
                Tag::Named(Extension::TeamSaveSuccess),
                team,
                0,
                save_uuid,
                save,
            ),
            Item::UnknownEx { uuid, data } => taken_with(Tag::Other, 0, 0, uuid, data),
        }
    }

    // The client of the record, or none.
    pub fn cid(self) -> Option<i32>
        ensures { result ≡ cid_of (item_of self) }
    {
        let t = self.take_apart();
        let tag = t.tag;
        let first = t.fields.first;
        match tag {
            Tag::Plain(kind) => kind.cid(first),
            Tag::Named(which) => {
                if extensions::has_client(which) {
                    return Some(first);
                }
                None
            }
            Tag::Other => None,
        }
    }

    // The number of the record's kind: -11 for every extension.
    pub fn kind_number(self) -> i32
        ensures { result ≡ tag_number (item_of self).tag }
    {
        let t = self.take_apart();
        let tag = t.tag;
        match tag {
            Tag::Plain(kind) => kind.number(),
            Tag::Named(_) => Kind::EX,
            Tag::Other => Kind::EX,
        }
    }
}
