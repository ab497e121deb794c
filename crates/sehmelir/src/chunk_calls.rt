// The calls on a chunk for C and Rust: numbers and slices only.
ghost use Rattle.replies.specs.Refusals.{refusal_of};
ghost use Rattle.chunks.specs.Answers.{reply_of_found, offset_of_found};
ghost use Rattle.sehmelir.specs.ChunkBoundary.{PartReplies, MakeReplies, AddReplies, FindReplies, RemoveReplies, CompactReplies};

use crate::Reply;
use chunks::part;
use replies::{Code, Refusal};

// A reply with its number, and a part of lent bytes: where it begins, and how long it is; all but reply and number 0 when refused.
#[repr(C)]
#[derive(Clone, Copy)]
pub struct Part {
    pub reply: u32,
    pub zero: u32,
    pub number: u64,
    pub offset: u64,
    pub length: u64,
}

// A refusal, without a part.
impl From<Refusal> for Part {
    ghost from_gives = { λ refusal part. PartReplies part (refusal_of refusal) 0 };

    fn from(refusal: Refusal) -> Part {
        let code = Code::from(refusal);
        Part {
            reply: code.reply,
            zero: 0,
            number: code.number,
            offset: 0,
            length: 0,
        }
    }
}

// What finding came to: the part, with its length as the number.
impl From<Result<part::Part, Refusal>> for Part {
    ghost from_gives = { λ answer part. PartReplies part (reply_of_found answer) (offset_of_found answer) };

    fn from(answer: Result<part::Part, Refusal>) -> Part {
        match answer {
            Ok(found) => Part {
                reply: 0,
                zero: 0,
                number: found.size as u64,
                offset: found.offset as u64,
                length: found.size as u64,
            },
            Err(refusal) => Part::from(refusal),
        }
    }
}

// Makes a chunk: an empty table of some entries.
#[unsafe(no_mangle)]
pub extern "C" fn sehmelir_chunk_make(chunk: &mut [u8], entries: u32) -> Reply
    ensures { MakeReplies chunk.old entries result chunk.new }
{
    Reply::from(chunks::making::make(chunk, entries))
}

// Adds an outline to a chunk under a key.
#[unsafe(no_mangle)]
pub extern "C" fn sehmelir_chunk_add(chunk: &mut [u8], key: u32, outline: &[u8]) -> Reply
    ensures { AddReplies chunk.old key outline.now result chunk.new }
{
    Reply::from(chunk_adding::add(chunk, key, outline))
}

// Finds the outline that a chunk holds under a key.
#[unsafe(no_mangle)]
pub extern "C" fn sehmelir_chunk_find(chunk: &[u8], key: u32) -> Part
    ensures { FindReplies chunk.now key result }
{
    Part::from(chunks::finding::find(chunk, key))
}

// Removes the outline that a chunk holds under a key.
#[unsafe(no_mangle)]
pub extern "C" fn sehmelir_chunk_remove(chunk: &mut [u8], key: u32) -> Reply
    ensures { RemoveReplies chunk.old key result chunk.new }
{
    Reply::from(chunks::removing::remove(chunk, key))
}

// Compacts a chunk.
#[unsafe(no_mangle)]
pub extern "C" fn sehmelir_chunk_compact(chunk: &mut [u8]) -> Reply
    ensures { CompactReplies chunk.old result chunk.new }
{
    Reply::from(chunks::compacting::compact(chunk))
}
