ghost use Rattle.std.specs.Prelude.{◌+◌, ◌*◌, OnOk, length};
ghost use Rattle.gds_base.specs.Drafting.{Drafts, IsDraftFor, OnlyDrafts, WithDraft};
ghost use Rattle.gds_pack.specs.Entry.{items};
ghost use Rattle.gds_splice.specs.Ending.{EndsParting};
ghost use Rattle.gds_splice.specs.Splicing.{CannotGrowAt, CannotSplice, SplicesAt, SplicesInPlace};

use crate::changing::read_spliced;
use crate::parting::part;
use crate::putting::put_node;
use gds_base::{Base, BaseError};
use gds_draft::Draft;
use gds_find::Step;
use gds_pack::Entry;
use host_model::Host;
use std::alloc::Global;

/// Puts entries in the place of so many neighbouring children of an index block, and goes up where they don't fit, as
/// `part` does. Where nothing stands behind them, the last becomes the star.
///
/// The last step is to the record of the first of those children, those before it lead there from the root. Where the
/// entries have no key that those children hadn't, they fit in place: one block changes, no free one is needed, and
/// `TooDeep` doesn't come.
pub fn splice<H: Host>(
    alloc: Global,
    base: &mut Base<H>,
    draft: &mut Draft,
    steps: &[Step],
    taken: usize,
    put: Vec<Entry>,
) -> Result<(), BaseError>
    requires { IsDraftFor base.old.header draft.old }
    ensures spliced { OnOk result (Drafts base.old draft.old draft.new
        (SplicesAt steps.now taken (items put.items))) }
    ensures in_place { OnOk result (WithDraft base.old draft.old
        (SplicesInPlace steps.now taken (items put.items) draft.old draft.new)) }
    ensures drafts { OnlyDrafts H.told H.moment H.failures H.left_since base.old base.new draft.old draft.new
        (5 * length steps.now + 2) }
    ensures ends { EndsParting (H.failures base.old.host) (H.failures base.new.host)
        (WithDraft base.old draft.old (CannotSplice steps.now taken (items put.items)))
        (WithDraft base.old draft.old (CannotGrowAt steps.now taken (items put.items))) result }
{
    base.hold_draft(draft);
    let Some((step, outer)) = steps.split_last() else {
        return Err(BaseError::Changed { unit: 0 });
    };
    let count = put.len();
    let node = read_spliced(alloc, base, draft, *step, taken, put)?;
    let Some(own) = put_node(alloc, base, draft, *step, outer.is_empty(), node, count)? else {
        return Ok(());
    };
    base.hold_draft(draft);
    part(alloc, base, draft, outer, &own)
}
