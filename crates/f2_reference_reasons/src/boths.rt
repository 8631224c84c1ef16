//! A number for each zone.
ghost use Rattle.std.specs.Prelude.{◌≡◌, ◌+◌, ◌^◌, ◌<◌};
ghost use Rattle.f2_model.specs.Fallback as machine;
ghost use Rattle.f2_reference_reasons.specs.Boths.{both_of};

/// A number of node blocks, and one of data blocks.
#[derive(Clone, Copy, Debug, PartialEq, Eq)]
pub struct Both {
    pub nodes: u128,
    pub pages: u128,
}

impl Both {
    /// Nothing in either zone.
    pub(crate) fn none() -> Both
        ensures { both_of result ≡ machine.nothing }
    {
        Both { nodes: 0, pages: 0 }
    }

    /// The sum, zone by zone.
    pub(crate) fn plus(self, other: Both) -> Both
        requires nodes { self.nodes + other.nodes < 2 ^ 128 }
        requires pages { self.pages + other.pages < 2 ^ 128 }
        ensures { both_of result ≡ machine.sum_of (both_of self) (both_of other) }
    {
        Both {
            nodes: self.nodes + other.nodes,
            pages: self.pages + other.pages,
        }
    }

    /// The greater, zone by zone.
    pub(crate) fn or_greater(self, other: Both) -> Both
        ensures { both_of result ≡ machine.greater_of (both_of self) (both_of other) }
    {
        Both {
            nodes: self.nodes.max(other.nodes),
            pages: self.pages.max(other.pages),
        }
    }
}
