ghost use Rattle.std.specs.Prelude.{◌≤◌, ◌+◌, ◌*◌, ◌++◌, ◌∷◌, [], OnOk, length};
ghost use Rattle.gds_base.specs.Drafting.{Drafts, IsDraftFor, OnlyDrafts, WithDraft};
ghost use Rattle.gds_find.specs.Trail.{steps_of};
ghost use Rattle.gds_splice.specs.Ending.{EndsParting};
ghost use Rattle.gds_insert.specs.Setting.{CannotSetAt, IsDeepAt, SetsAt};

use crate::reading::read_with_item;
use gds_base::{Base, BaseError};
use gds_draft::Draft;
use gds_edit::Place;
use gds_find::Step;
use gds_splice::{Growth, divide, part};
use host_model::Host;
use std::alloc::Global;

// Sets an item in a leaf that has no room for it, at the place of its key: the leaf's entries go into pieces, and the
// index blocks above are told of them.
pub(crate) fn set_in_pieces<H: Host>(
    alloc: Global,
    base: &mut Base<H>,
    draft: &mut Draft,
    above: &[Step],
    leaf: Step,
    place: &Place,
    key: &[u8],
    rest: &[u8],
) -> Result<(), BaseError>
    requires draft { IsDraftFor base.old.header draft.old }
    requires short { length key.now ≤ 255 }
    ensures set { OnOk result (Drafts base.old draft.old draft.new
        (SetsAt (steps_of (above.now ++ leaf ∷ [])) place.now key.now rest.now)) }
    ensures free { OnOk result (draft.old.header.free ≤ draft.new.header.free + (2 * length above.now + 3)) }
    ensures drafts { OnlyDrafts H.told H.moment H.failures H.left_since base.old base.new draft.old draft.new
        (5 * length above.now + 7) }
    ensures ends { EndsParting (H.failures base.old.host) (H.failures base.new.host)
        (WithDraft base.old draft.old (CannotSetAt (steps_of (above.now ++ leaf ∷ [])) place.now key.now rest.now))
        (WithDraft base.old draft.old (IsDeepAt (steps_of (above.now ++ leaf ∷ [])) place.now key.now rest.now))
        result }
{
    base.hold_draft(draft);
    let node = read_with_item(alloc, base, draft, leaf, place.is_equal, key, rest)?;
    let growth = Growth::at(&node.entries, leaf.offset, 1);
    let parts = divide(alloc, base, draft, &[leaf.block], node, growth)?;
    part(alloc, base, draft, above, &parts)
}
