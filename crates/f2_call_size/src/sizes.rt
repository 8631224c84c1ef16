//! How much is added and how much goes.
ghost use Rattle.std.specs.Prelude.{◌≡◌};
ghost use Rattle.f2_call_size.specs.Sizes.{IsModest, IsSmallChange, added, gone, together};

use f2_held::Both;

/// How many nodes and how many data blocks a call adds to the tree, and how many of them go.
///
/// The same node or block may be counted on both sides, so only their difference tells how the tree grows.
#[derive(Clone, Copy, Debug, PartialEq, Eq)]
pub struct CallSize {
    pub added: Both,
    pub gone: Both,
}

const NOTHING: Both = Both { nodes: 0, pages: 0 };

/// Nothing is added and nothing goes.
pub(crate) const UNCHANGED: CallSize = CallSize {
    added: NOTHING,
    gone: NOTHING,
};

/// This much is added, and nothing goes.
pub(crate) fn added(size: Both) -> CallSize
    ensures { result ≡ added size }
{
    CallSize {
        added: size,
        gone: NOTHING,
    }
}

/// This much goes, and nothing is added.
pub(crate) fn gone(size: Both) -> CallSize
    ensures { result ≡ gone size }
{
    CallSize {
        added: NOTHING,
        gone: size,
    }
}

/// What two changes come to, one after the other.
pub(crate) fn together(one: CallSize, other: CallSize) -> CallSize
    requires one { IsModest one }
    requires other { IsSmallChange other }
    ensures { result ≡ together one other }
{
    CallSize {
        added: Both {
            nodes: one.added.nodes + other.added.nodes,
            pages: one.added.pages + other.added.pages,
        },
        gone: Both {
            nodes: one.gone.nodes + other.gone.nodes,
            pages: one.gone.pages + other.gone.pages,
        },
    }
}
