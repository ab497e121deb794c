// What a call answers, as the numbers of document 01: reply, number beside it, grade.
use cases::answer::Reply;
use reading::Read;
use replies::{Code, Refusal};

// Reply 0 with its number.
fn given(number: usize, grade: u32) -> Reply {
    Reply {
        reply: 0,
        number: number as u64,
        grade: u64::from(grade),
    }
}

// The reply of each refusal.
fn refused(refusal: Refusal) -> Reply {
    let told = Code::from(refusal);
    Reply {
        reply: u64::from(told.reply),
        number: told.number,
        grade: 0,
    }
}

// The reply of drawing, keeping or replacing.
pub fn of(answer: Result<usize, Refusal>) -> Reply {
    match answer {
        Ok(number) => given(number, 0),
        Err(refusal) => refused(refusal),
    }
}

// The reply of reading.
pub fn of_read(answer: Result<Read, Refusal>) -> Reply {
    match answer {
        Ok(read) => given(read.vertices, read.grade),
        Err(refusal) => refused(refusal),
    }
}
