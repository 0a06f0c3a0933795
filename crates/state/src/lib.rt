// The types of the reader, and the empty one (raw.rs, Reader).
#![tactic(auto)]

ghost use Rattle.std.specs.Prelude.{◌≡◌};
ghost use Rattle.state.specs.State.{empty_reader};
ghost use Rattle.state.specs.Reading.{is_closed};
ghost use Rattle.state.specs.steps.Parts.{memory_of};

use item::Item;
use kinds::{Kind, Version};
use refusal::Refusal;

// The entries of clients 0 to 127: marks are 0 or 1, and an entry whose mark is 0 holds zeros; ten input numbers each.
#[derive(Clone, Copy)]
pub struct Entries {
    pub marks: [u8; 128],
    pub xs: [i32; 128],
    pub ys: [i32; 128],
    pub held: [u8; 128],
    pub inputs: [i32; 1280],
}

// All that a reading call works on beside the scalars: the entries; the ten numbers of an Input event, and the former ten.
#[derive(Clone, Copy)]
pub struct Memory {
    pub entries: Entries,
    pub input: [i32; 10],
    pub former: [i32; 10],
}

impl Memory {
    // Entries, with zeros for the numbers of an input.
    pub fn of(entries: Entries) -> Memory
        ensures { result ≡ memory_of entries }
    {
        Memory {
            entries,
            input: [0; 10],
            former: [0; 10],
        }
    }
}

// Whether a reader reads on: it is open, or finish or a refusal has closed it.
#[derive(Clone, Copy)]
pub enum Standing {
    Open,
    Finished,
    Refused,
}

impl Standing {
    pub fn is_closed(self) -> bool
        ensures { result ≡ is_closed self }
    {
        match self {
            Standing::Open => false,
            Standing::Finished => true,
            Standing::Refused => true,
        }
    }
}

#[derive(Clone, Copy)]
pub struct Scalars {
    pub version: Version,
    pub tick: i32,
    pub inside: bool,
    pub remembered: Option<i32>,
    pub largest: i32,
    pub pending: Option<Kind>,
    pub standing: Standing,
}

#[derive(Clone, Copy)]
pub struct Reader {
    pub scalars: Scalars,
    pub entries: Entries,
}

impl Reader {
    // Tick 0, outside a tick, no remembered client, no pending kind, largest client -1, open, nobody present.
    pub fn empty(version: Version) -> Reader
        ensures { result ≡ empty_reader version }
    {
        Reader {
            scalars: Scalars {
                version,
                tick: 0,
                inside: false,
                remembered: None,
                largest: -1,
                pending: None,
                standing: Standing::Open,
            },
            entries: Entries {
                marks: [0; 128],
                xs: [0; 128],
                ys: [0; 128],
                held: [0; 128],
                inputs: [0; 1280],
            },
        }
    }
}

// What a reading call finds. The ten numbers of an input and the former ten stand beside it, and the arguments of a command.
#[derive(Clone, Copy)]
pub enum Event {
    TickStart(i32),
    TickEnd(i32),
    PlayerNew {
        cid: i32,
        x: i32,
        y: i32,
    },
    PlayerChange {
        cid: i32,
        x: i32,
        y: i32,
        old_x: i32,
        old_y: i32,
    },
    PlayerOld {
        cid: i32,
        x: i32,
        y: i32,
    },
    Input {
        cid: i32,
        former: bool,
    },
    Record(Item),
}

#[derive(Clone, Copy)]
pub enum Answer {
    Event { event: Event, used: usize },
    More,
    Finish { used: usize },
    Refused(Refusal),
}

// What a call on lent memory answers, and the scalars that it leaves.
#[derive(Clone, Copy)]
pub struct Outcome {
    pub answer: Answer,
    pub scalars: Scalars,
}

// What the tick rules say of a kind: the record is read; a tick starts; a tick ends and the number is the next one; a tick ends at
// Finish; the tick would pass the last.
#[derive(Clone, Copy)]
pub enum Rule {
    Reads,
    Starts,
    Ends(i32),
    EndsHere,
    Over,
}
