ghost use Rattle.std.specs.Prelude.{◌≡◌, ◌++◌, ◌∷◌, ◌<◌, ℕ, List, Some, [], IfOk, IfSome};
ghost use Rattle.std.specs.Borrow.{sem};
ghost use Rattle.std.specs.Io.BufRead.{Rests};
ghost use Rattle.std.specs.Option.{option_copied};
ghost use Rattle.gds_base.specs.Drafting.{IsDraftFor, WithDraft};
ghost use Rattle.gds_base.specs.contracts.base.Base.{the_row};
ghost use Rattle.gds_law.specs.Path.{Steps};
ghost use Rattle.gds_law.specs.Visit.{Visit};
ghost use Rattle.gds_sound.specs.Sound.{Tree, tree_at};
ghost use Rattle.gds_find.specs.Found.{EndsGiving, IsValueOf};
ghost use Rattle.gds_find.specs.Trail.{HasTrail, steps_of};

use crate::trail::Trail;
use crate::turning::are_bytes;
use gds_base::{Base, BaseError};
use gds_draft::Draft;
use gds_search::rest_at;
use host_model::Host;

/// Lends the value that stands at the end of a trail, in the image with the draft: that of the record which has the
/// key. `None` where no record has it.
///
/// `Changed` comes where the trail is none of the image with the draft.
pub fn value_at<'a, H: Host>(
    base: &'a mut Base<H>,
    draft: &'a Draft,
    trail: &Trail,
) -> Result<Option<&'a [u8]>, BaseError>
    requires { IsDraftFor base.old.header draft.now }
    ensures value { IfOk result (λ value. WithDraft base.old draft.now (λ file. (v : Visit) (key : List ℕ) (t : Tree)
        → tree_at file v ≡ Some t → HasTrail file v key trail.now → IsValueOf t.items key (option_copied value))) }
    ensures* after_borrow { sem 𝓛 (Rests (the_row H.row H.Host) base.entry (λ new.
        EndsGiving H.told H.moment H.failures H.left_since base.old new
        (WithDraft base.old draft.now (λ file. (v : Visit) (key : List ℕ) (t : Tree) → tree_at file v ≡ Some t
        → HasTrail file v key trail.now → ⊥)) result)) }
{
    base.hold_draft(draft);
    if !trail.found {
        return Ok(None);
    }
    let Some(block) = leaf_of(draft, trail) else {
        return Err(BaseError::Changed { unit: 0 });
    };
    let bytes = base.read(draft, block)?;
    are_bytes(bytes);
    let Some(value) = rest_at(bytes, &trail.place) else {
        return Err(BaseError::Changed {
            unit: block.saturating_add(1),
        });
    };
    Ok(Some(value))
}

// The block of a trail's last step, if there is one and it is a block of the draft.
fn leaf_of(draft: &Draft, trail: &Trail) -> Option<u32>
    ensures found { (path : Steps) (block offset : ℕ) → block < draft.now.header.total
        → steps_of trail.now.steps.items ≡ path ++ (block, offset) ∷ [] → result ≡ Some block }
    ensures within { IfSome result (λ block. block < draft.now.header.total) }
{
    let step = trail.steps.as_slice().last()?;
    if step.block >= draft.header().total {
        return None;
    }
    Some(step.block)
}
