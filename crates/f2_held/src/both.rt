//! A number for each zone.
ghost use Rattle.std.specs.Prelude.{◌≡◌};
ghost use Rattle.f2_model.specs.Fallback.{greater_of, nothing};

use std::marker::Model;

/// How many nodes and how many data blocks.
#[derive(Clone, Copy, Debug, PartialEq, Eq)]
pub struct Both {
    pub nodes: u64,
    /// Pages of files, and blocks of names of directories.
    pub pages: u64,
}

impl Model for Both {
    ghost use Rattle.f2_model.specs.Fallback.{Both as Numbers};

    ghost Value = { Numbers };

    ghost view = { λ b. record { nodes = b.nodes; pages = b.pages } };

    ghost inverse = { λ b. record { nodes = b.nodes; pages = b.pages } };
}

pub const NOTHING: Both = Both { nodes: 0, pages: 0 };

impl Both {
    /// The greater ones of two, each by itself.
    pub fn greater(self, other: Both) -> Both
        ensures { result ≡ greater_of self other }
    {
        Both {
            nodes: self.nodes.max(other.nodes),
            pages: self.pages.max(other.pages),
        }
    }
}
