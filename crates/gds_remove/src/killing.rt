ghost use Rattle.std.specs.Prelude.{◌≡◌, ◌<◌, ◌≤◌, IfOk, OnOk};
ghost use Rattle.gds_base.specs.Drafting.{Drafts, IsDraftFor, WithDraft};
ghost use Rattle.gds_base.specs.Ending.{EndsReading};
ghost use Rattle.gds_block.specs.Block.{level_of};
ghost use Rattle.gds_header.specs.Fields.{block_of};
ghost use Rattle.gds_units.specs.Reading.{OnlyRead};
ghost use Rattle.gds_remove.specs.Killed.{CannotKill, KillsIn, OnlyWrites};

use crate::cutting::cut;
use crate::emptying::{DIRECTORY, put_empty_directory};
use crate::node::changed;
use crate::range::KeyRange;
use gds_base::{Base, BaseError};
use gds_block::BlockView;
use gds_draft::Draft;
use host_model::Host;
use std::alloc::Global;

/// KILL in one tree: takes the items out whose keys are from `low` on and below `high`, in the image with a draft, and
/// frees the blocks that have no entry left. Answers whether the tree is empty now.
///
/// Then the directory has one level above a block without entries. Of any other tree only the root is still busy,
/// whatever its bytes. `Changed` comes where no such tree stands at the root.
pub fn kill_in<H: Host>(
    alloc: Global,
    base: &mut Base<H>,
    draft: &mut Draft,
    root: u32,
    low: &[u8],
    high: &[u8],
) -> Result<bool, BaseError>
    requires draft { IsDraftFor base.old.header draft.old }
    ensures killed { IfOk result (λ empty. Drafts base.old draft.old draft.new (KillsIn root low.now high.now empty)) }
    ensures drafts { OnlyWrites H.told H.moment H.failures H.left_since base.old base.new draft.old draft.new 24 }
    ensures ends { EndsReading (H.failures base.old.host) (H.failures base.new.host)
        (WithDraft base.old draft.old (CannotKill root)) result }
{
    let level = root_level(base, draft, root)?;
    let range = KeyRange {
        low: Some(low),
        high: Some(high),
    };
    if !cut(alloc, base, draft, root, level, range)? {
        return Ok(false);
    }
    if root != DIRECTORY {
        return Ok(true);
    }
    put_empty_directory(alloc, base, draft)?;
    Ok(true)
}

// The level of a root, if it is one that a root may have.
fn root_level<H: Host>(base: &mut Base<H>, draft: &Draft, root: u32) -> Result<u8, BaseError>
    requires { IsDraftFor base.old.header draft.now }
    ensures level { IfOk result (λ level. WithDraft base.old draft.now (λ file.
        level_of (block_of file root) ≡ level)) }
    ensures low { IfOk result (λ level. (1 ≤ level) × (level ≤ 7)) }
    ensures within { OnOk result (root < draft.now.header.total) }
    ensures read { OnlyRead H.told H.moment H.failures H.left_since base.old base.new }
    ensures ends { EndsReading (H.failures base.old.host) (H.failures base.new.host)
        (WithDraft base.old draft.now (CannotKill root)) result }
{
    base.hold_draft(draft);
    if root >= draft.header().total {
        return Err(changed(root));
    }
    let bytes = base.read(draft, root)?;
    let Some(view) = BlockView::new(bytes) else {
        return Err(changed(root));
    };
    let level = view.level();
    if level == 0 || level > 7 {
        return Err(changed(root));
    }
    Ok(level)
}
