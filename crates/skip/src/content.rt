// A content: the bytes after a length. The message reader and the pull reader return it as a `Span`.

// Where it starts and where it ends in the slice.
#[derive(Clone, Copy, Debug, PartialEq, Eq)]
pub struct Span {
    pub start: usize,
    pub end: usize,
}
