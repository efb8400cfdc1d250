ghost use Rattle.std.specs.Prelude.{◌≡◌, [], ◌++◌, option_map, IfNone};
ghost use Rattle.std.specs.Option.{option_to_list};
ghost use Rattle.integ_walk.specs.Frame.{all_links, link_of, links_in};

use crate::link::Link;
use gds_law::Path;
use integ_block::Child;
use std::vec::IntoIter;

/// A block that was read, and its children that are still to be followed.
#[derive(Drop)]
pub(crate) struct Frame {
    /// The path to the block.
    pub(crate) path: Path,
    pub(crate) block: u32,
    /// The level byte of the block.
    pub(crate) level: u8,
    pub(crate) children: IntoIter<Child>,
}

impl Frame {
    /// Takes out the next child.
    pub(crate) fn next_link(&mut self) -> Option<Link>
        ensures links { links_in self.old ≡ option_to_list (option_map link_of result) ++ links_in self.new }
        ensures end { IfNone result (links_in self.old ≡ []) }
    {
        let child = self.children.next()?;
        Some(Link {
            path: self.path.copied(),
            block: self.block,
            level: self.level,
            child,
        })
    }
}

/// Takes the next link out of the last of the frames that has one, and the frames behind that one too.
pub(crate) fn next_link(frames: &mut Vec<Frame>) -> Option<Link>
    ensures links { all_links frames.old.items
        ≡ option_to_list (option_map link_of result) ++ all_links frames.new.items }
    ensures end { IfNone result (all_links frames.new.items ≡ []) }
{
    while let Some(last) = frames.len().checked_sub(1) {
        if let Some(link) = frames[last].next_link() {
            return Some(link);
        }
        frames.pop();
    }
    None
}
