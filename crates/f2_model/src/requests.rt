//! What a seat asks of a volume.
ghost use Rattle.std.specs.Prelude.{◌≡◌, IfOk};

use crate::lists::{Items, Path};
use std::alloc::{AllocError, Global};
use std::marker::Model;

/// One run of equal bytes to be written.
#[derive(Clone, Copy, Debug, PartialEq, Eq)]
pub struct Piece {
    /// The offset of the first byte in the file.
    pub off: u64,
    /// The number of bytes, 1 to 65,536.
    pub len: u32,
    /// The byte that is written at each of them.
    pub byte: u8,
}

/// The pieces of one write, put in order.
pub type Pieces = Items<Piece>;

/// A call on the file tree.
#[derive(Debug, Drop)]
pub enum Request {
    /// Adds an empty regular file.
    Create { path: Path },
    /// Adds an empty directory.
    Mkdir { path: Path },
    /// Puts the pieces one after another, and raises the size to the furthest end.
    Write { path: Path, pieces: Pieces },
    /// Sets the size of a file; what lies past it is gone.
    Truncate { path: Path, size: u64 },
    /// Removes a regular file.
    Unlink { path: Path },
    /// Removes an empty directory.
    Rmdir { path: Path },
    /// Gives a row another parent and name.
    Rename { from: Path, to: Path },
    /// Reads up to `len` bytes from an offset.
    Read { path: Path, off: u64, len: u32 },
    /// The names in a directory, in byte order.
    List { path: Path },
    /// Makes a file durable.
    Fsync { path: Path },
    /// Makes the whole tree durable, by a checkpoint.
    Sync,
}

impl Request {
    /// An equal request.
    pub fn copy(&self, alloc: Global) -> Result<Request, AllocError>
        ensures { IfOk result (λ request. request ≡ self.now) }
    {
        match self {
            Request::Create { path } => path.copy(alloc).map(|path| Request::Create { path }),
            Request::Mkdir { path } => path.copy(alloc).map(|path| Request::Mkdir { path }),
            Request::Write { path, pieces } => Ok(Request::Write {
                path: path.copy(alloc)?,
                pieces: Items::from_slice(alloc, pieces.as_slice())?,
            }),
            Request::Truncate { path, size } => Ok(Request::Truncate {
                path: path.copy(alloc)?,
                size: *size,
            }),
            Request::Unlink { path } => path.copy(alloc).map(|path| Request::Unlink { path }),
            Request::Rmdir { path } => path.copy(alloc).map(|path| Request::Rmdir { path }),
            Request::Rename { from, to } => Ok(Request::Rename {
                from: from.copy(alloc)?,
                to: to.copy(alloc)?,
            }),
            Request::Read { path, off, len } => Ok(Request::Read {
                path: path.copy(alloc)?,
                off: *off,
                len: *len,
            }),
            Request::List { path } => path.copy(alloc).map(|path| Request::List { path }),
            Request::Fsync { path } => path.copy(alloc).map(|path| Request::Fsync { path }),
            Request::Sync => Ok(Request::Sync),
        }
    }
}

/// A request behind one pointer, as an entry of the history keeps it.
#[derive(Debug, Drop)]
pub struct BoxedRequest {
    request: Box<Request>,
}

impl Model for BoxedRequest {
    ghost use Rattle.f2_model.specs.declared.requests.Request.{Request};
    ghost use Rattle.f2_model.specs.contracts.requests.Request as row;

    ghost Value = { Request };

    ghost coded = { row.the_row.coded };

    ghost view = { λ boxed. boxed.request.value };
}

impl BoxedRequest {
    /// Moves a request behind a pointer. Where memory is refused the request is gone.
    pub fn new(alloc: Global, request: Request) -> Result<BoxedRequest, AllocError>
        ensures { IfOk result (λ boxed. boxed ≡ request) }
    {
        let request = Box::new(alloc, request)?;
        Ok(BoxedRequest { request })
    }

    /// The request.
    pub fn get(&self) -> &Request
        ensures { result.now ≡ self.now }
    {
        &self.request
    }
}
