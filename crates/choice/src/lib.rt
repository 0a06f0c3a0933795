// Which records bring a reader to a wanted board, and when none do: defined in specs/. Here are only the types of a client's entries.
#![tactic(auto)]

// A client's player entry.
#[derive(Clone, Copy)]
pub struct Player {
    pub mark: u8,
    pub x: i32,
    pub y: i32,
}

// A client's input entry.
#[derive(Clone, Copy)]
pub struct Held {
    pub mark: u8,
    pub ten: [i32; 10],
}
