//! The node log as a value.

ghost use Rattle.std.specs.Prelude.{◌≡◌, length};

use f2_disk::Block;
use std::marker::Model;

/// A block of the node log, and its address.
#[derive(Debug, Drop)]
pub struct LogBlock {
    /// Its address.
    pub at: u32,
    /// Its bytes.
    pub block: Box<Block>,
}

impl Model for LogBlock {
    ghost use Rattle.f2_image.specs.Chains.{Logged};

    ghost Value = { Logged };

    ghost view = { λ l. record { at = l.at; block = l.block.value } };
}

/// The node log of an image: the blocks of its chain, the first one first.
#[derive(Debug, Drop)]
pub struct Chain {
    pub(crate) log: Vec<LogBlock>,
}

impl Model for Chain {
    ghost use Rattle.std.specs.Prelude.{List};
    ghost use Rattle.f2_image.specs.Chains.{Logged};

    ghost Value = { List Logged };

    ghost view = { λ c. c.log.items };
}

impl Chain {
    /// How many blocks the log has.
    pub fn len(&self) -> usize
        ensures { result ≡ length self.now }
    {
        self.log.len()
    }

    /// The blocks, the first one first.
    pub fn blocks(&self) -> &[LogBlock]
        ensures { result.now ≡ self.now }
    {
        &self.log
    }
}
