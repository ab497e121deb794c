// A part of a chunk: where an outline stands.
#[derive(Clone, Copy)]
pub struct Part {
    pub offset: usize,
    pub size: usize,
}
