// The calls over vertex records, for C and Rust: numbers and slices only.
ghost use Rattle.std.specs.Prelude.{◌≡◌, ◌*◌, ◌≤◌, length};
ghost use Rattle.runs.specs.Runs.{spread};
ghost use Rattle.records.specs.Records.{record_numbers, record_posts};
ghost use Rattle.record_paths.specs.RecordPaths.{wanted_of};
ghost use Rattle.sehmelir.specs.Boundary.{DrawReplies, KeepReplies};
ghost use Rattle.sehmelir.specs.RecordBoundary.{DrawGatheredReplies, KeepGatheredReplies};

use crate::{Reply, sehmelir_draw};
use record_keeping::keep_gathered;
use record_paths::{check_count, numbers_of, wanted};
use records::{Record, gather};

// Draws a path of n records, those that are wanted at the front of own numbers: grade and count first, then the call over numbers.
fn draw_reply(own: &mut [i32], n: usize, grade: u32, out: &mut [i32]) -> Reply
    requires { 4 * wanted_of n grade ≤ length own.old }
    ensures { DrawGatheredReplies own.old n grade out.old result out.new }
{
    match check_count(n, grade) {
        Ok(m) => sehmelir_draw(&own[..numbers_of(m)], grade, out),
        Err(refusal) => Reply::from(refusal),
    }
}

// Keeps a path of n records, likewise: grade and count first, then the numbers and the posts.
fn keep_reply(own: &mut [i32], n: usize, grade: u32, out: &mut [u8]) -> Reply
    requires { 4 * wanted_of n grade ≤ length own.old }
    ensures { KeepGatheredReplies own.old n grade out.old result out.new }
{
    match check_count(n, grade) {
        Ok(m) => Reply::from(keep_gathered(own, m, grade, out)),
        Err(refusal) => Reply::from(refusal),
    }
}

// The edges of a path of records, the m that are wanted by way of own numbers.
fn draw_by(path: &[Record], m: usize, grade: u32, own: &mut [i32], out: &mut [i32]) -> Reply
    requires { (m ≡ wanted_of (length path.now) grade) × (4 * m ≤ length own.old) }
    ensures { DrawReplies (spread record_numbers path.now) grade out.old result out.new }
{
    gather(path, m, own);
    draw_reply(own, path.len(), grade, out)
}

// The outline of a path of records, likewise.
fn keep_by(path: &[Record], m: usize, grade: u32, own: &mut [i32], out: &mut [u8]) -> Reply
    requires { (m ≡ wanted_of (length path.now) grade) × (4 * m ≤ length own.old) }
    ensures { KeepReplies (spread record_numbers path.now) (spread record_posts path.now) grade out.old result out.new }
{
    gather(path, m, own);
    keep_reply(own, path.len(), grade, out)
}

// Draws the edges of a path of vertex records into lent numbers, four an edge. How many own numbers there are is for speed alone; they are lent to the functions above,
// since of a length that is a const parameter the search does not show that the whole array is lent.
#[unsafe(no_mangle)]
pub extern "C" fn sehmelir_draw_records(path: &[Record], grade: u32, out: &mut [i32]) -> Reply
    ensures { DrawReplies (spread record_numbers path.now) grade out.old result out.new }
{
    let m = wanted(path.len(), grade);
    if m <= 32 {
        let mut own = [0i32; 128];
        return draw_by(path, m, grade, &mut own, out);
    }
    if m <= 512 {
        let mut own = [0i32; 2048];
        return draw_by(path, m, grade, &mut own, out);
    }
    let mut own = [0i32; 16384];
    draw_by(path, m, grade, &mut own, out)
}

// Keeps the outline of a path of vertex records as bytes.
#[unsafe(no_mangle)]
pub extern "C" fn sehmelir_keep_records(path: &[Record], grade: u32, out: &mut [u8]) -> Reply
    ensures { KeepReplies (spread record_numbers path.now) (spread record_posts path.now) grade out.old result out.new }
{
    let m = wanted(path.len(), grade);
    if m <= 32 {
        let mut own = [0i32; 128];
        return keep_by(path, m, grade, &mut own, out);
    }
    if m <= 512 {
        let mut own = [0i32; 2048];
        return keep_by(path, m, grade, &mut own, out);
    }
    let mut own = [0i32; 16384];
    keep_by(path, m, grade, &mut own, out)
}
