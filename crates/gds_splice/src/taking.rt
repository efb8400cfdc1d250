ghost use Rattle.std.specs.Prelude.{◌≡◌, ◌≢◌, ◌+◌, ◌<◌, ◌≤◌, ◌%◌, All, IfOk, OnOk, length};
ghost use Rattle.gds_base.specs.Drafting.{Drafts, IsDraftFor, OnlyDrafts, WithDraft};
ghost use Rattle.gds_base.specs.Ending.{EndsReading};
ghost use Rattle.gds_file.specs.FileLaws.{IsLawful};
ghost use Rattle.gds_splice.specs.Parted.{TakesAll};

use arrayvec::ArrayVec;
use gds_base::{Base, BaseError};
use gds_draft::Draft;
use host_model::Host;
use std::alloc::Global;

/// Takes so many free blocks, up to three, one after another.
pub fn take_blocks<H: Host>(
    alloc: Global,
    base: &mut Base<H>,
    draft: &mut Draft,
    count: usize,
) -> Result<ArrayVec<u32, 3>, BaseError>
    requires draft { IsDraftFor base.old.header draft.old }
    requires few { count ≤ 3 }

    ensures taken { IfOk result (λ numbers. Drafts base.old draft.old draft.new (λ before after.
        IsLawful before → TakesAll before after numbers.items)) }
    ensures count { IfOk result (λ numbers. length numbers.items ≡ count) }
    ensures free { OnOk result (draft.old.header.free ≡ draft.new.header.free + count) }
    ensures within { IfOk result (λ numbers. All (λ n. n < draft.old.header.total) numbers.items) }
    ensures drafts { OnlyDrafts H.told H.moment H.failures H.left_since base.old base.new draft.old draft.new count }
    ensures ends { EndsReading (H.failures base.old.host) (H.failures base.new.host)
        (WithDraft base.old draft.old (λ file. IsLawful file → count ≤ draft.old.header.free → ⊥)) result }
{
    let mut numbers = ArrayVec::new();
    for _ in 0..count {
        numbers.push(base.take_block(alloc, draft)?);
    }
    Ok(numbers)
}
