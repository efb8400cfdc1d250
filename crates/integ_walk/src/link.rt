ghost use Rattle.std.specs.Prelude.{◌≡◌, ◌<◌, length};
ghost use Rattle.integ_walk.specs.Link.{path_to, double_of};
ghost use Rattle.integ_walk.specs.Frame.{link_of};

use gds_law::{Fault, FaultKind, Path};
use integ_block::{At, Child};

/// A record with a sound pointer that is still to be followed, with the block that holds it.
#[derive(Drop)]
pub(crate) struct Link {
    /// The path to that block.
    pub(crate) path: Path,
    pub(crate) block: u32,
    /// The level byte of that block.
    pub(crate) level: u8,
    pub(crate) child: Child,
}

impl Link {
    /// The block that it leads to.
    pub(crate) fn into_at(self) -> At
        requires { length self.path < 16 }
        ensures path { result.path ≡ path_to (link_of self) }
        ensures visit { result.visit ≡ self.child.visit }
    {
        let Link {
            mut path,
            block,
            level: _,
            child: Child { offset, visit },
        } = self;
        path.push(block, offset);
        At { path, visit }
    }

    /// That an earlier path ends in the block that it leads to.
    pub(crate) fn into_fault(self) -> Fault
        ensures { result ≡ double_of (link_of self) }
    {
        Fault {
            kind: FaultKind::DoublyAllocated,
            block: self.block,
            offset: self.child.offset,
            level: self.level,
            path: self.path,
        }
    }
}
