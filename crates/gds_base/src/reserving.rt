//! Free blocks for a change.
ghost use Rattle.std.specs.Prelude.{◌≡◌, ◌↔◌, ◌⊎◌, ◌<◌, ◌≤◌, None, OnOk};
ghost use Rattle.gds_base.specs.Drafting.{Drafts, IsDraftFor};
ghost use Rattle.gds_base.specs.Ending.{EndsReading};
ghost use Rattle.gds_base.specs.Reserve.{EndsReserving, OnlyGrows, Reserves};
ghost use Rattle.gds_file.specs.FileLaws.{IsLawful};
ghost use Rattle.gds_file.specs.Grow.{Grows};
ghost use Rattle.gds_file.specs.Room.{extended, grown_free, room_of};
ghost use Rattle.gds_units.specs.State.{image_of};

use crate::groups::present_in;
use crate::growing::{extended, grown_free, grown_header, mark_new, put_new_maps};
use crate::{Base, BaseError};
use gds_draft::Draft;
use host_model::Host;
use std::alloc::Global;

/// How many blocks are free before a change begins. No change of one node takes more.
const RESERVE: u32 = 32;

impl<H: Host> Base<H> {
    /// Makes sure of 32 free blocks. Where fewer are free, the draft grows by the extension, or up to the limit.
    ///
    /// `Full` comes exactly where fewer would be free if the draft grew to its limit, and the draft stays then.
    pub fn reserve32(&mut self, alloc: Global, draft: &mut Draft) -> Result<(), BaseError>
        requires { IsDraftFor self.old.header draft.old }
        ensures enough { OnOk result (32 ≤ draft.new.header.free) }
        ensures longer { draft.old.header.free < 32
            → OnOk result (draft.new.header.total ≡ extended draft.old.header) }
        ensures stays { (32 ≤ draft.old.header.free) ⊎ (room_of draft.old.header < 32) → draft.new ≡ draft.old }
        ensures reserved { OnOk result (Drafts self.old draft.old draft.new (λ before after.
            IsLawful before → Reserves draft.old draft.new before after)) }
        ensures full { (result ≡ Err BaseError.Full) ↔ (room_of draft.old.header < 32) }
        ensures drafts { OnlyGrows H.told H.moment H.failures H.left_since self.old self.new draft.old draft.new }
        ensures ends { EndsReserving (H.failures self.old.host) (H.failures self.new.host)
            (image_of self.old ≡ None) result }
    {
        let header = *draft.header();
        if header.free >= RESERVE {
            return Ok(());
        }
        let total = extended(&header);
        if grown_free(&header, total) < RESERVE {
            return Err(BaseError::Full);
        }
        self.grow_draft(alloc, draft, total)
    }

    // Gives a draft so many blocks, the new ones free.
    fn grow_draft(&mut self, alloc: Global, draft: &mut Draft, total: u32) -> Result<(), BaseError>
        requires draft { IsDraftFor self.old.header draft.old }
        requires few { draft.old.header.free < 32 }
        requires from { draft.old.header.total < total }
        requires to { total ≤ draft.old.header.limit }
        ensures grown { OnOk result (Drafts self.old draft.old draft.new (λ before after.
            IsLawful before → Grows before after total × IsLawful after)) }
        ensures total { OnOk result (draft.new.header.total ≡ total) }
        ensures free { OnOk result (draft.new.header.free ≡ grown_free draft.old.header total) }
        ensures drafts { OnlyGrows H.told H.moment H.failures H.left_since self.old self.new draft.old draft.new }
        ensures ends { EndsReading (H.failures self.old.host) (H.failures self.new.host)
            (image_of self.old ≡ None) result }
    {
        self.hold_draft(draft);
        let old = *draft.header();
        let last = (old.total - 1) / 512;
        let mut map = self.copy_map(alloc, draft, last)?;
        let header = grown_header(&old, total);
        mark_new(&mut map, old.total - 512 * last, present_in(&header, last));
        draft.put_header(&header);
        draft.put_vec(512 * last, map)?;
        put_new_maps(
            alloc,
            draft,
            header.tn.saturating_sub(1),
            last + 1,
            total.div_ceil(512),
        )?;
        self.hold_draft(draft);
        Ok(())
    }
}
