ghost use Rattle.std.specs.Prelude.{◌+◌, ◌<◌, ◌≤◌, All, IfOk, OnOk, None, length};
ghost use Rattle.gds_base.specs.Drafting.{IsDraftFor, WithDraft};
ghost use Rattle.gds_base.specs.Ending.{EndsReading};
ghost use Rattle.gds_law.specs.Visit.{Visit};
ghost use Rattle.gds_units.specs.Reading.{OnlyRead};
ghost use Rattle.gds_find.specs.Trail.{HasTrail, HasTreeFor, steps_of};
ghost use Rattle.gds_find.specs.Turn.{IsDueTurn, TrailsOn, TurnsAt, most_blocks};

use crate::trail::{Step, Trail};
use crate::turning::{Turn, are_bytes, turn_in};
use gds_base::{Base, BaseError};
use gds_draft::Draft;
use host_model::Host;

/// Finds the way of a key from a root, in the image with a draft.
///
/// At most 8 blocks are read and none is unpacked, and no memory is taken but what reading a block takes. `Changed`
/// comes where no sound tree stands at the root for the key.
pub fn find<H: Host>(
    base: &mut Base<H>,
    draft: &Draft,
    root: u32,
    key: &[u8],
    trail: &mut Trail,
) -> Result<(), BaseError>
    requires { IsDraftFor base.old.header draft.now }
    ensures found { OnOk result (WithDraft base.old draft.now (λ file. (v : Visit)
        → HasTreeFor file v root None key.now → HasTrail file v key.now trail.new)) }
    ensures count { OnOk result ((1 ≤ length trail.new.steps.items) × (length trail.new.steps.items ≤ 8)) }
    ensures within { OnOk result (All (λ s. s.block < draft.now.header.total) trail.new.steps.items) }
    ensures read { OnlyRead H.told H.moment H.failures H.left_since base.old base.new }
    ensures ends { EndsReading (H.failures base.old.host) (H.failures base.new.host)
        (WithDraft base.old draft.now (λ file. (v : Visit) → HasTreeFor file v root None key.now → ⊥)) result }
    ensures calls { H.moment base.new.host ≤ H.moment base.old.host + 8 }
{
    trail.steps.clear();
    go_down(base, draft, root, None, key, trail)
}

// Goes on from a block, of which a level may be due, down to level 0.
fn go_down<H: Host>(
    base: &mut Base<H>,
    draft: &Draft,
    block: u32,
    due: Option<u8>,
    key: &[u8],
    trail: &mut Trail,
) -> Result<(), BaseError>
    requires draft { IsDraftFor base.old.header draft.now }
    requires room { length trail.old.steps.items + most_blocks due ≤ 8 }
    ensures found { OnOk result (WithDraft base.old draft.now (λ file. (v : Visit)
        → HasTreeFor file v block due key.now
        → TrailsOn file v key.now (steps_of trail.old.steps.items) (steps_of trail.new.steps.items)
        trail.new.found trail.new.place)) }
    ensures count { OnOk result ((length trail.old.steps.items < length trail.new.steps.items)
        × (length trail.new.steps.items ≤ 8)) }
    ensures within { OnOk result (All (λ s. s.block < draft.now.header.total) trail.old.steps.items
        → All (λ s. s.block < draft.now.header.total) trail.new.steps.items) }
    ensures read { OnlyRead H.told H.moment H.failures H.left_since base.old base.new }
    ensures ends { EndsReading (H.failures base.old.host) (H.failures base.new.host)
        (WithDraft base.old draft.now (λ file. (v : Visit) → HasTreeFor file v block due key.now → ⊥)) result }
    ensures calls { H.moment base.new.host ≤ H.moment base.old.host + most_blocks due }
{
    let turn = turn_at(base, draft, block, due, key)?;
    trail.steps.push(Step {
        block,
        offset: turn.offset(),
    });
    match turn {
        Turn::Down { level, block, .. } => {
            go_down(base, draft, block, Some(level - 1), key, trail)
        }
        Turn::Here { place, .. } => {
            trail.found = place.is_equal;
            trail.place = place;
            Ok(())
        }
    }
}

// What a block of the image with the draft says of a key.
fn turn_at<H: Host>(
    base: &mut Base<H>,
    draft: &Draft,
    block: u32,
    due: Option<u8>,
    key: &[u8],
) -> Result<Turn, BaseError>
    requires { IsDraftFor base.old.header draft.now }
    ensures turn { IfOk result (λ turn. WithDraft base.old draft.now (λ file. (v : Visit)
        → HasTreeFor file v block due key.now → TurnsAt file v key.now turn)) }
    ensures due { IfOk result (IsDueTurn due) }
    ensures within { OnOk result (block < draft.now.header.total) }
    ensures read { OnlyRead H.told H.moment H.failures H.left_since base.old base.new }
    ensures ends { EndsReading (H.failures base.old.host) (H.failures base.new.host)
        (WithDraft base.old draft.now (λ file. (v : Visit) → HasTreeFor file v block due key.now → ⊥)) result }
    ensures calls { H.moment base.new.host ≤ H.moment base.old.host + 1 }
{
    base.hold_draft(draft);
    let changed = BaseError::Changed {
        unit: block.saturating_add(1),
    };
    if block >= draft.header().total {
        return Err(changed);
    }
    let bytes = base.read(draft, block)?;
    are_bytes(bytes);
    turn_in(bytes, due, key).ok_or(changed)
}
