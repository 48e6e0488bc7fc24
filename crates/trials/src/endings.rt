//! How a command ends.
use std::alloc::{AllocError, Global};
use text_io::Counted;

/// How many bytes an output takes before it takes memory.
const ROOM: usize = 512;

/// An output of a command.
pub type Out<'a> = Counted<&'a mut Vec<u8>>;

/// A reader of a text.
pub fn reader(text: &str) -> Counted<&[u8]> {
    Counted::new(text.as_bytes())
}

/// What a command comes to.
#[derive(Clone, Copy, Debug, PartialEq, Eq)]
pub enum End {
    Right,
    /// It said that memory was wanting, behind a beginning of what is due.
    Wanting,
    Wrong,
}

/// The outputs of a command, which take no memory while it is performed.
#[derive(Drop)]
pub struct Outputs {
    pub out: Vec<u8>,
    pub err: Vec<u8>,
}

impl Outputs {
    pub fn new(alloc: Global) -> Result<Outputs, AllocError> {
        Ok(Outputs {
            out: Vec::with_capacity(alloc, ROOM)?,
            err: Vec::with_capacity(alloc, ROOM)?,
        })
    }

    /// Where all is well a command ends with status 0, writes this text, and tells no fault.
    pub fn end(&self, status: u8, text: &str) -> End {
        let (out, err, due) = (self.out.as_slice(), self.err.as_slice(), text.as_bytes());
        if status == 0 && out == due && err.is_empty() {
            End::Right
        } else if status == 3 && due.starts_with(out) && err == b"mapf: OutOfMemory\n".as_slice() {
            End::Wanting
        } else {
            End::Wrong
        }
    }
}
