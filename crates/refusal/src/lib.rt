// The refusals of docs/FORMAT.md, by the Rust's names where it has them.
#![tactic(auto)]

ghost use Rattle.std.specs.Prelude.{◌≡◌};
ghost use Rattle.refusal.specs.Numbers.{number_of};

#[derive(Clone, Copy)]
pub enum Refusal {
    WrongMagic,
    UnknownVersion,
    UnexpectedEnd,
    // With the kind.
    UnknownType(i32),
    NegativeDt,
    NegativeNumArgs,
    NumArgsTooLarge,
    InvalidClientId,
    ShortTarget,
    ClientTooLarge,
    Unwritable,
    TickOverflow,
    PlayerNewDuplicate,
    PlayerDiffWithoutNew,
    PlayerOldWithoutNew,
    InputDiffWithoutNew,
    BadState,
    Closed,
    NotLast,
    TickGone,
    NegativeLength,
    MidRecord,
    Unreachable,
}

impl Refusal {
    pub fn number(self) -> u8
        ensures { result ≡ number_of self }
    {
        match self {
            Refusal::WrongMagic => 1,
            Refusal::UnknownVersion => 2,
            Refusal::UnexpectedEnd => 3,
            Refusal::UnknownType(_) => 4,
            Refusal::NegativeDt => 5,
            Refusal::NegativeNumArgs => 6,
            Refusal::NumArgsTooLarge => 7,
            Refusal::InvalidClientId => 8,
            Refusal::ShortTarget => 9,
            Refusal::ClientTooLarge => 10,
            Refusal::Unwritable => 11,
            Refusal::TickOverflow => 12,
            Refusal::PlayerNewDuplicate => 13,
            Refusal::PlayerDiffWithoutNew => 14,
            Refusal::PlayerOldWithoutNew => 15,
            Refusal::InputDiffWithoutNew => 16,
            Refusal::BadState => 17,
            Refusal::Closed => 18,
            Refusal::NotLast => 19,
            Refusal::TickGone => 20,
            Refusal::NegativeLength => 21,
            Refusal::MidRecord => 22,
            Refusal::Unreachable => 23,
        }
    }
}
