// The conversion of a kept outline for C and Rust: numbers and slices only.
ghost use Rattle.sehmelir.specs.ConvertBoundary.{ConvertReplies};

use crate::Reply;

// Redraws a sound outline in place at a grade from 2 to 8.
#[unsafe(no_mangle)]
pub extern "C" fn sehmelir_convert(store: &mut [u8], grade: u32) -> Reply
    ensures { ConvertReplies store.old grade result store.new }
{
    Reply::from(converting::convert(store, grade))
}
