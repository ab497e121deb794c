// Why a call is refused, and the rows that several calls share.
#![tactic(auto)]

pub mod path_rows;
pub mod refusals;
pub mod style_rows;

// Why a call is refused, each with the number that goes beside its reply. They are appended, never renumbered.
#[derive(Clone, Copy, Debug, PartialEq, Eq)]
pub enum Refusal {
    Uneven(usize),
    TooMany(usize),
    Grade(u32),
    Outside(usize),
    NoRoom(usize),
    NotOutline,
    Kind(u32),
    NotSound(usize),
    NoVertex(usize),
    NoEdge(usize),
    StyleWord(u32),
    OtherKind(u32),
    NotTaken(usize),
    Damaged,
    KeyThere(u32),
    KeyMissing(u32),
    TableFull(usize),
    WithoutEdges(usize),
    NoListRoom(usize),
}

// A reply, and the number with it.
#[derive(Clone, Copy)]
pub struct Code {
    pub reply: u32,
    pub number: u64,
}
