// Salvage for C and Rust: numbers and slices only.
ghost use Rattle.salvaging.specs.Salvaging.{reply_of_salvaged, notes_of_salvaged};
ghost use Rattle.sehmelir.specs.SalvageBoundary.{SalvagedReplies, SalvageReplies};

use replies::{Code, Refusal};
use salvaging::Salvaged;

// A reply with its number, and how many entries the list has; entries 0 when refused.
#[repr(C)]
#[derive(Clone, Copy)]
pub struct SalvageReply {
    pub reply: u32,
    pub zero: u32,
    pub number: u64,
    pub entries: u64,
}

// What salvage came to, as a reply with its entries.
impl From<Result<Salvaged, Refusal>> for SalvageReply {
    ghost from_gives = { λ answer reply. SalvagedReplies reply (reply_of_salvaged answer) (notes_of_salvaged answer) };

    fn from(answer: Result<Salvaged, Refusal>) -> SalvageReply {
        match answer {
            Ok(salvaged) => SalvageReply {
                reply: 0,
                zero: 0,
                number: salvaged.bytes as u64,
                entries: salvaged.notes as u64,
            },
            Err(refusal) => {
                let code = Code::from(refusal);
                SalvageReply {
                    reply: code.reply,
                    zero: 0,
                    number: code.number,
                    entries: 0,
                }
            }
        }
    }
}

// Salvages a store of kind 0 from its header and vertices: a sound outline into lent bytes, and a list of what differed into lent numbers, two an entry.
#[unsafe(no_mangle)]
pub extern "C" fn sehmelir_salvage(store: &[u8], out: &mut [u8], list: &mut [u32]) -> SalvageReply
    ensures { SalvageReplies store.now out.old list.old result out.new list.new }
{
    SalvageReply::from(salvaging::salvage(store, out, list))
}
