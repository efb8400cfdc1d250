ghost use Rattle.std.specs.Prelude.{◌≡◌, ◌≢◌, ◌*◌, ◌+◌, ◌<◌, ◌≤◌, ◌%◌, None, IfOk, OnErr, OnOk, length};
ghost use Rattle.gds_base.specs.Drafting.{Drafts, IsDraftFor, OnlyDrafts, WithDraft};
ghost use Rattle.gds_base.specs.Ending.{EndsReading};
ghost use Rattle.gds_base.specs.Spaces.{IsFirstPlace, Recycles, TakesLeast, blocks_beside_maps};
ghost use Rattle.gds_draft.specs.Draft.{IsDraft, with_block};
ghost use Rattle.gds_file.specs.FileLaws.{IsLawful};
ghost use Rattle.gds_law.specs.Maps.{map_of};
ghost use Rattle.gds_units.specs.Reading.{OnlyRead};
ghost use Rattle.gds_units.specs.State.{image_of};

use crate::groups::{first_group, free_with, mark_in, present_in};
use crate::{Base, BaseError};
use gds_bitmap::{State, first_free, mark, state_of};
use gds_draft::Draft;
use gds_header::Header;
use host_model::Host;
use std::alloc::{AllocError, Global};

/// A free block of a group, and the group's map.
#[derive(Drop)]
struct FreePlace {
    group: u32,
    place: u32,
    map: Vec<u8>,
}

impl<H: Host> Base<H> {
    /// Takes the free block of least number: it is busy in the draft afterwards.
    ///
    /// `Changed` comes where the maps aren't lawful or no block is free.
    pub fn take_block(&mut self, alloc: Global, draft: &mut Draft) -> Result<u32, BaseError>
        requires { IsDraftFor self.old.header draft.old }
        ensures taken { IfOk result (λ n. Drafts self.old draft.old draft.new (λ before after.
            IsLawful before → TakesLeast before after n)) }
        ensures within { IfOk result (λ n. (n < draft.old.header.total) × (n % 512 ≢ 0)) }
        ensures one { OnOk result (draft.old.header.free ≡ draft.new.header.free + 1) }
        ensures drafts { OnlyDrafts H.told H.moment H.failures H.left_since self.old self.new draft.old draft.new 1 }
        ensures maps { blocks_beside_maps draft.new ≤ blocks_beside_maps draft.old }
        ensures ends { EndsReading (H.failures self.old.host) (H.failures self.new.host)
            (WithDraft self.old draft.old (λ file. IsLawful file → 0 < draft.old.header.free → ⊥)) result }
    {
        self.hold_draft(draft);
        let FreePlace {
            group,
            place,
            mut map,
        } = self.find_free(alloc, draft)?;
        let mut header = *draft.header();
        let left = mark_in(&mut map, place, State::Busy, present_in(&header, group));
        header.free -= 1;
        header.mark_group(group, left);
        put_map(draft, &header, group, map)?;
        Ok(512 * group + place)
    }

    /// Gives a block that is no map back to the free ones: it is a used one that is free in the draft afterwards.
    ///
    /// `Changed` comes only where the free count isn't lawful.
    pub fn free_block(&mut self, alloc: Global, draft: &mut Draft, n: u32) -> Result<(), BaseError>
        requires draft { IsDraftFor self.old.header draft.old }
        requires there { n < draft.old.header.total }
        requires no_map { n % 512 ≢ 0 }
        ensures freed { OnOk result (Drafts self.old draft.old draft.new (λ before after. Recycles before after n)) }
        ensures drafts { OnlyDrafts H.told H.moment H.failures H.left_since self.old self.new draft.old draft.new 1 }
        ensures maps { blocks_beside_maps draft.new ≤ blocks_beside_maps draft.old }
        ensures ends { EndsReading (H.failures self.old.host) (H.failures self.new.host)
            (WithDraft self.old draft.old (λ file. IsLawful file → ⊥)) result }
    {
        self.hold_draft(draft);
        let mut header = *draft.header();
        let group = n / 512;
        let mut map = self.copy_map(alloc, draft, group)?;
        let Some(free) = free_with(&header, state_of(&map, n % 512)) else {
            return Err(BaseError::Changed { unit: 0 });
        };
        mark(&mut map, n % 512, State::Recycled);
        header.free = free;
        header.mark_group(group, true);
        put_map(draft, &header, group, map)?;
        Ok(())
    }

    // Finds the free block of least number.
    fn find_free(&mut self, alloc: Global, draft: &Draft) -> Result<FreePlace, BaseError>
        requires { IsDraftFor self.old.header draft.now }
        ensures found { IfOk result (λ p. IsFirstPlace draft.now.header p.map.items p.group p.place) }
        ensures map { IfOk result (λ p. WithDraft self.old draft.now (λ file. p.map.items ≡ map_of file p.group)) }
        ensures len { IfOk result (λ p. length p.map.items ≡ self.old.header.block_size) }
        ensures read { OnlyRead H.told H.moment H.failures H.left_since self.old self.new }
        ensures ends { EndsReading (H.failures self.old.host) (H.failures self.new.host)
            (WithDraft self.old draft.now (λ file. IsLawful file → 0 < draft.now.header.free → ⊥)) result }
    {
        self.hold_draft(draft);
        let header = *draft.header();
        if header.free == 0 {
            return Err(BaseError::Changed { unit: 0 });
        }
        let Some(group) = first_group(&header) else {
            return Err(BaseError::Changed { unit: 0 });
        };
        let map = self.copy_map(alloc, draft, group)?;
        let changed = BaseError::Changed {
            unit: 512 * group + 1,
        };
        let Some(place) = first_free(&map, present_in(&header, group)) else {
            return Err(changed);
        };
        if place == 0 {
            return Err(changed);
        }
        Ok(FreePlace { group, place, map })
    }

    // A copy of a group's map.
    pub(crate) fn copy_map(
        &mut self,
        alloc: Global,
        draft: &Draft,
        group: u32,
    ) -> Result<Vec<u8>, BaseError>
        requires draft { IsDraftFor self.old.header draft.now }
        requires there { 512 * group < draft.now.header.total }
        ensures map { IfOk result (λ map. WithDraft self.old draft.now (λ file. map.items ≡ map_of file group)) }
        ensures len { IfOk result (λ map. length map.items ≡ self.old.header.block_size) }
        ensures read { OnlyRead H.told H.moment H.failures H.left_since self.old self.new }
        ensures ends { EndsReading (H.failures self.old.host) (H.failures self.new.host)
            (image_of self.old ≡ None) result }
    {
        let _header = draft.header();
        let bytes = self.read(draft, 512 * group)?;
        Ok(Vec::from_slice(alloc, bytes)?)
    }
}

// Gives a draft another map of a group, and a header that fits it.
fn put_map(draft: &mut Draft, header: &Header, group: u32, map: Vec<u8>) -> Result<(), AllocError>
    requires there { 512 * group < draft.old.header.total }
    requires size { length map.items ≡ draft.old.header.block_size }
    requires header { header.now ≡ record draft.old.header { free = header.now.free; master = header.now.master } }
    ensures put { OnOk result (draft.new ≡ record (with_block draft.old (512 * group) map.items) {
      header = header.now;
    }) }
    ensures draft { OnOk result (IsDraft draft.new) }
    ensures err { OnErr result (draft.new ≡ draft.old) }
    ensures maps { blocks_beside_maps draft.new ≤ blocks_beside_maps draft.old }
{
    let _header = draft.header();
    draft.put_vec(512 * group, map)?;
    draft.put_header(header);
    Ok(())
}
