// The calls that tell why edges are there, for C and Rust: numbers and slices only.
ghost use Rattle.explaining.specs.Explaining.{reply_of_explained, why_of_explained};
ghost use Rattle.sehmelir.specs.ReasonBoundary.{ReasonReplies, ExplainReplies, ListReplies};

use crate::Reply;
use explaining::Explained;
use reasons::labels::{exact_number, exactness, reason_number};
use replies::{Code, Refusal};

// A reply with its number, and why an edge is there: the reason's number, the vertex and the place, and of a side whether its start and its end are exact
// (1 or 0; 0 of every other edge); all but reply and number 0 when refused.
#[repr(C)]
#[derive(Clone, Copy)]
pub struct ReasonReply {
    pub reply: u32,
    pub reason: u32,
    pub number: u64,
    pub vertex: u64,
    pub place: u64,
    pub start: u32,
    pub end: u32,
}

// What explaining came to, as a reply with its reason.
impl From<Result<Explained, Refusal>> for ReasonReply {
    ghost from_gives = { λ answer reply. ReasonReplies reply (reply_of_explained answer) (why_of_explained answer) };

    fn from(answer: Result<Explained, Refusal>) -> ReasonReply {
        match answer {
            Ok(Explained { edge, why }) => {
                let exact = exactness(why.reason);
                ReasonReply {
                    reply: 0,
                    reason: reason_number(why.reason) as u32,
                    number: edge as u64,
                    vertex: why.vertex as u64,
                    place: why.place as u64,
                    start: exact_number(exact.a) as u32,
                    end: exact_number(exact.b) as u32,
                }
            }
            Err(refusal) => {
                let code = Code::from(refusal);
                ReasonReply {
                    reply: code.reply,
                    reason: 0,
                    number: code.number,
                    vertex: 0,
                    place: 0,
                    start: 0,
                    end: 0,
                }
            }
        }
    }
}

// Tells why an edge of a sound outline is there.
#[unsafe(no_mangle)]
pub extern "C" fn sehmelir_explain(store: &[u8], edge: usize) -> ReasonReply
    ensures { ExplainReplies store.now edge result }
{
    ReasonReply::from(explaining::explain(store, edge))
}

// Lists why each edge of a sound outline is there into lent numbers, five an edge.
#[unsafe(no_mangle)]
pub extern "C" fn sehmelir_list(store: &[u8], out: &mut [usize]) -> Reply
    ensures { ListReplies store.now out.old result out.new }
{
    Reply::from(explaining::list(store, out))
}
