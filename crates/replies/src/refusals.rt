// The refusals by number: the one list, for the boundary and the programs alike.
ghost use Rattle.replies.specs.Refusals.{refusal_of, Codes};

use crate::{Code, Refusal};

// A refusal's reply and number.
impl From<Refusal> for Code {
    ghost from_gives = { λ r c. Codes c (refusal_of r) };

    fn from(refusal: Refusal) -> Code {
        let (reply, number) = match refusal {
            Refusal::Uneven(n) => (1, n as u64),
            Refusal::TooMany(n) => (2, n as u64),
            Refusal::Grade(g) => (3, g as u64),
            Refusal::Outside(i) => (4, i as u64),
            Refusal::NoRoom(n) => (5, n as u64),
            Refusal::NotOutline => (6, 0),
            Refusal::Kind(k) => (7, k as u64),
            Refusal::NotSound(i) => (8, i as u64),
            Refusal::NoVertex(i) => (9, i as u64),
            Refusal::NoEdge(i) => (10, i as u64),
            Refusal::StyleWord(i) => (11, i as u64),
            Refusal::OtherKind(k) => (12, k as u64),
            Refusal::NotTaken(i) => (13, i as u64),
            Refusal::Damaged => (14, 0),
            Refusal::KeyThere(k) => (15, k as u64),
            Refusal::KeyMissing(k) => (16, k as u64),
            Refusal::TableFull(n) => (17, n as u64),
            Refusal::WithoutEdges(n) => (18, n as u64),
            Refusal::NoListRoom(n) => (19, n as u64),
        };
        Code { reply, number }
    }
}
