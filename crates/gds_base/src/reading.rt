ghost use Rattle.std.specs.Prelude.{◌≡◌, ◌+◌, ◌<◌, ◌≤◌, Err, None, IfOk, OnErr, OnOk, length};
ghost use Rattle.std.specs.Borrow.{sem};
ghost use Rattle.std.specs.Io.BufRead.{Rests};
ghost use Rattle.std.specs.Option.{ForSome};
ghost use Rattle.gds_base.specs.Spaces.{blocks_beside_maps};
ghost use Rattle.gds_base.specs.Drafting.{Drafts, IsDraftFor, WithDraft};
ghost use Rattle.gds_base.specs.Ending.{EndsLending, EndsReading};
ghost use Rattle.gds_base.specs.contracts.base.Base.{the_row};
ghost use Rattle.gds_base.specs.Put.{PutsBlock};
ghost use Rattle.gds_draft.specs.Draft.{with_block};
ghost use Rattle.gds_draft.specs.Drafted.{or_block};
ghost use Rattle.gds_header.specs.Fields.{block_of};
ghost use Rattle.gds_units.specs.Reading.{OnlyRead};
ghost use Rattle.gds_units.specs.State.{image_of};

use crate::{Base, BaseError};
use gds_draft::Draft;
use gds_units::Units;
use host_model::Host;
use std::alloc::Global;

impl<H: Host> Base<H> {
    /// Fills `out` with a block of the image.
    pub fn block(&mut self, n: u32, out: &mut [u8]) -> Result<(), BaseError>
        requires there { n < self.old.header.total }
        requires size { length out.old ≡ self.old.header.block_size }
        ensures bytes { OnOk result (ForSome (image_of self.old) (λ image. out.new ≡ block_of image n)) }
        ensures len { length out.new ≡ length out.old }
        ensures read { OnlyRead H.told H.moment H.failures H.left_since self.old self.new }
        ensures ends { EndsReading (H.failures self.old.host) (H.failures self.new.host)
            (image_of self.old ≡ None) result }
        ensures calls { H.moment self.new.host ≤ H.moment self.old.host + 1 }
    {
        read_block(&mut self.units, n, out)
    }

    /// Lends a block of the image with a draft, for which nothing is copied where the draft has it.
    pub fn read<'a>(&'a mut self, draft: &'a Draft, n: u32) -> Result<&'a [u8], BaseError>
        requires draft { IsDraftFor self.old.header draft.now }
        requires there { n < draft.now.header.total }
        ensures bytes { IfOk result (λ bytes. WithDraft self.old draft.now (λ file. bytes.now ≡ block_of file n)) }
        ensures len { IfOk result (λ bytes. length bytes.now ≡ self.old.header.block_size) }
        ensures* after_borrow { sem 𝓛 (Rests (the_row H.row H.Host) self.entry (λ new.
            EndsLending H.told H.moment H.failures H.left_since self.old new result)) }
    {
        self.hold_draft(draft);
        let _header = draft.header();
        if let Some(bytes) = draft.get(n) {
            return Ok(bytes);
        }
        read_undrafted(&mut self.units, n, &mut self.room)?;
        Ok(&self.room)
    }

    /// Gives a block other bytes in a draft.
    pub fn put(
        &self,
        alloc: Global,
        draft: &mut Draft,
        n: u32,
        bytes: &[u8],
    ) -> Result<(), BaseError>
        requires draft { IsDraftFor self.now.header draft.old }
        requires there { n < draft.old.header.total }
        requires size { length bytes.now ≡ self.now.header.block_size }
        ensures put { OnOk result (Drafts self.now draft.old draft.new (λ before after.
            PutsBlock before after n bytes.now)) }
        ensures units { OnOk result (draft.new ≡ with_block draft.old n bytes.now) }
        ensures err { OnErr result ((result ≡ Err BaseError.Memory) × (draft.new ≡ draft.old)) }
        ensures beside { blocks_beside_maps draft.new ≤ blocks_beside_maps draft.old + 1 }
    {
        self.hold_draft(draft);
        Ok(draft.put(alloc, n, bytes)?)
    }
}

/// Fills `out` with a block of the image.
fn read_block<H: Host>(units: &mut Units<H>, n: u32, out: &mut [u8]) -> Result<(), BaseError>
    requires there { n < units.old.header.total }
    requires size { length out.old ≡ units.old.header.block_size }
    ensures bytes { OnOk result (ForSome (image_of units.old) (λ image. out.new ≡ block_of image n)) }
    ensures len { length out.new ≡ length out.old }
    ensures read { OnlyRead H.told H.moment H.failures H.left_since units.old units.new }
    ensures ends { EndsReading (H.failures units.old.host) (H.failures units.new.host)
        (image_of units.old ≡ None) result }
    ensures calls { H.moment units.new.host ≤ H.moment units.old.host + 1 }
{
    let _header = units.header();
    units.hold_told();
    Ok(units.unit(n + 1, out)?)
}

/// Fills `out` with a block that a draft of the image hasn't: behind the image's end it is zero.
fn read_undrafted<H: Host>(units: &mut Units<H>, n: u32, out: &mut [u8]) -> Result<(), BaseError>
    requires size { length out.old ≡ units.old.header.block_size }
    ensures bytes { OnOk result (ForSome (image_of units.old) (λ image.
        out.new ≡ or_block units.old.header image n None)) }
    ensures len { length out.new ≡ length out.old }
    ensures read { OnlyRead H.told H.moment H.failures H.left_since units.old units.new }
    ensures ends { EndsReading (H.failures units.old.host) (H.failures units.new.host)
        (image_of units.old ≡ None) result }
    ensures calls { H.moment units.new.host ≤ H.moment units.old.host + 1 }
{
    if n < units.header().total {
        return read_block(units, n, out);
    }
    out.fill(0);
    Ok(())
}
