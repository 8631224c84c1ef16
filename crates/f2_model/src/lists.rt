//! Lists that grow at their end, seen by contracts as the list of their members.
ghost use Rattle.std.specs.Prelude.{◌≡◌, [], ◌∷◌, ◌++◌, ◌<◌, length, slice_get, OnOk, OnErr, IfOk, IsTrue, ◌↔◌};

use std::alloc::{AllocError, Global};
use std::marker::Model;

/// A list that grows at its end.
#[derive(Debug, Drop)]
pub struct Items<E> {
    items: Vec<E>,
}

impl<E> Model for Items<E> {
    ghost use Rattle.std.specs.Prelude.{List};
    ghost use Rattle.std.specs.Coded.{coded_list};

    ghost Value = { List E };

    ghost coded = { coded_list E.code };

    ghost view = { λ list. list.items.items };
}

impl<E> Items<E> {
    /// The empty list, which takes no memory.
    pub fn new(alloc: Global) -> Items<E>
        ensures { result ≡ [] }
    {
        Items {
            items: Vec::new(alloc),
        }
    }

    /// A list of the members of a `Vec`, which takes no memory.
    pub fn from_vec(items: Vec<E>) -> Items<E>
        ensures { result ≡ items.items }
    {
        Items { items }
    }

    /// The members as a `Vec`, which takes no memory.
    pub fn into_vec(self) -> Vec<E>
        ensures { result.items ≡ self }
    {
        let Items { items } = self;
        items
    }

    /// The members in order.
    pub fn as_slice(&self) -> &[E]
        ensures { result.now ≡ self.now }
    {
        self.items.as_slice()
    }

    /// The number of members.
    pub fn len(&self) -> usize
        ensures { result ≡ length self.now }
    {
        self.items.len()
    }

    /// Whether there is no member.
    pub fn is_empty(&self) -> bool
        ensures { IsTrue result ↔ (self.now ≡ []) }
    {
        self.items.is_empty()
    }

    /// The member at a place, counted from 0.
    pub fn at(&self, place: usize) -> &E
        requires { place < length self.now }
        ensures { slice_get self.now place ≡ Some result.now }
    {
        &self.items[place]
    }
}

impl<E: Drop> Items<E> {
    /// Appends one member. Where memory is refused the list stays as it was.
    pub fn push(&mut self, one: E) -> Result<(), AllocError>
        ensures ok { OnOk result (self.new ≡ self.old ++ one ∷ []) }
        ensures err { OnErr result (self.new ≡ self.old) }
    {
        self.items.push(one)?;
        Ok(())
    }
}

impl<E: Copy> Items<E> {
    /// A list of the members of a slice.
    pub fn from_slice(alloc: Global, items: &[E]) -> Result<Items<E>, AllocError>
        ensures { IfOk result (λ list. list ≡ items.now) }
    {
        let items = Vec::from_slice(alloc, items)?;
        Ok(Items { items })
    }
}

/// The name of a file in its directory, as bytes.
pub type Name = Items<u8>;

/// Bytes of a file.
pub type Bytes = Items<u8>;

/// The names from the root to a row. No name stands for the root itself.
pub type Path = Items<Name>;

/// Names in a directory.
pub type Names = Items<Name>;

/// Numbers of pages, of rows or of blocks.
pub type Numbers = Items<u32>;
