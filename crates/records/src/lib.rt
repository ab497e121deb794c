// A path as its host holds it: vertex records, lent as a slice and read where they lie.
#![tactic(auto)]

ghost use Rattle.std.specs.Prelude.{◌*◌, ◌≤◌, ◌<◌, length, take};
ghost use Rattle.records.specs.Records.{PutsRecord, Gathers};

use words::signed;

// A vertex as its host holds it, with its point number.
#[repr(C)]
#[derive(Clone, Copy)]
pub struct Record {
    pub x: i32,
    pub y: i32,
    pub radius: i32,
    pub number: u32,
}

// The k-th of m records: its three numbers among those of the others, and its point number among theirs, which come after.
pub fn put_record(numbers: &mut [i32], m: usize, k: usize, v: Record)
    requires { (k < m) × (4 * m ≤ length numbers.old) }
    ensures { PutsRecord numbers.old m k v numbers.new }
{
    let at = 3 * k;
    numbers[at] = v.x;
    numbers[at + 1] = v.y;
    numbers[at + 2] = v.radius;
    numbers[3 * m + k] = signed(v.number);
}

// The numbers of the first m records, m being where the point numbers begin as well, in order, and then their point numbers: each record is read once and handed on by value.
pub fn gather(path: &[Record], m: usize, numbers: &mut [i32])
    requires { (m ≤ length path.now) × (4 * m ≤ length numbers.old) }
    ensures { Gathers numbers.old m (take m path.now) numbers.new }
{
    for i in 0..m {
        put_record(numbers, m, i, path[i]);
    }
}
