ghost use Rattle.std.specs.Prelude.{◌≤◌, ◌<◌, ◌+◌, ◌*◌, All, OnOk, length};
ghost use Rattle.gds_base.specs.Drafting.{Drafts, IsDraftFor, OnlyDrafts, WithDraft};
ghost use Rattle.gds_find.specs.Trail.{steps_of};
ghost use Rattle.gds_splice.specs.Ending.{EndsParting};
ghost use Rattle.gds_insert.specs.SetIn.{AddsFew, CannotSet, IsDeep, SetsIn};
ghost use Rattle.gds_insert.specs.Setting.{CannotSetAt, IsDeepAt, SetsAt};

use crate::in_pieces::set_in_pieces;
use crate::in_place::set_in_place;
use gds_base::{Base, BaseError};
use gds_draft::Draft;
use gds_edit::Place;
use gds_find::{Step, Trail, find};
use host_model::Host;
use std::alloc::Global;

/// SET in one tree: sets an item in the tree of a root, in the image with a draft. It is put in, or the one that has
/// its key gets another value.
///
/// `Changed` comes where no such tree stands at the root or too few blocks are free, and `TooDeep` where it would get
/// more levels than a tree may have.
pub fn set_in<H: Host>(
    alloc: Global,
    base: &mut Base<H>,
    draft: &mut Draft,
    root: u32,
    key: &[u8],
    value: &[u8],
) -> Result<(), BaseError>
    requires draft { IsDraftFor base.old.header draft.old }
    requires short { length key.now ≤ 255 }
    ensures set { OnOk result (Drafts base.old draft.old draft.new (SetsIn root key.now value.now)) }
    ensures free { OnOk result (draft.old.header.free ≤ draft.new.header.free + 17) }
    ensures drafts { OnlyDrafts H.told H.moment H.failures H.left_since base.old base.new draft.old draft.new 42 }
    ensures few { OnOk result (WithDraft base.old draft.old (AddsFew root key.now value.now draft.old draft.new)) }
    ensures ends { EndsParting (H.failures base.old.host) (H.failures base.new.host)
        (WithDraft base.old draft.old (CannotSet root key.now value.now))
        (WithDraft base.old draft.old (IsDeep root key.now value.now)) result }
{
    let mut trail = Trail::new();
    find(base, draft, root, key, &mut trail)?;
    set_at(alloc, base, draft, &trail.steps, &trail.place, key, value)
}

// Sets an item in the leaf to which steps lead, at the place of its key.
fn set_at<H: Host>(
    alloc: Global,
    base: &mut Base<H>,
    draft: &mut Draft,
    steps: &[Step],
    place: &Place,
    key: &[u8],
    rest: &[u8],
) -> Result<(), BaseError>
    requires draft { IsDraftFor base.old.header draft.old }
    requires short { length key.now ≤ 255 }
    requires within { All (λ s. s.block < draft.old.header.total) steps.now }
    ensures set { OnOk result (Drafts base.old draft.old draft.new
        (SetsAt (steps_of steps.now) place.now key.now rest.now)) }
    ensures free { OnOk result (draft.old.header.free ≤ draft.new.header.free + (2 * length steps.now + 1)) }
    ensures drafts { OnlyDrafts H.told H.moment H.failures H.left_since base.old base.new draft.old draft.new
        (5 * length steps.now + 2) }
    ensures ends { EndsParting (H.failures base.old.host) (H.failures base.new.host)
        (WithDraft base.old draft.old (CannotSetAt (steps_of steps.now) place.now key.now rest.now))
        (WithDraft base.old draft.old (IsDeepAt (steps_of steps.now) place.now key.now rest.now)) result }
{
    let Some((leaf, above)) = steps.split_last() else {
        return Err(BaseError::Changed { unit: 0 });
    };
    if set_in_place(alloc, base, draft, leaf.block, place, key, rest)? {
        return Ok(());
    }
    set_in_pieces(alloc, base, draft, above, *leaf, place, key, rest)
}
