ghost use Rattle.std.specs.Prelude.{◌≡◌, ◌<◌, ◌≤◌, ◌==◌, [], All, OnOk, OnErr, length};
ghost use Rattle.std.specs.Option.{option_copied};
ghost use Rattle.gds_header.specs.Fields.{fields_of, header_bytes};
ghost use Rattle.gds_header.specs.Kinds.{IsWithinLimits};
ghost use Rattle.gds_epoch.specs.WaitingView.{units_of};
ghost use Rattle.gds_draft.specs.Draft.{HoldsBytes, IsDraft, block_in, with_block};

use gds_epoch::{UnitBytes, Waiting};
use gds_header::Header;
use std::alloc::{AllocError, Global};
use std::marker::Model;

/// What is to be changed of a database: its header, and some of its blocks with the bytes that they are to have.
///
/// The image with a draft is the image with this header and these blocks, in the length that the header gives. A block
/// behind the image's end that the draft hasn't is zero there.
#[derive(Debug, Drop)]
pub struct Draft {
    header: Header,
    /// The blocks, as units of the file: block n is unit n + 1.
    blocks: Waiting,
}

impl Model for Draft {
    ghost use Rattle.gds_draft.specs.Draft.{DraftState, IsDraft};

    ghost Value = { DraftState };

    ghost view = { λ draft. record { header = draft.header; units = draft.blocks.units } };

    ghost invariant = { λ draft. IsDraft (record { header = draft.header; units = draft.blocks.units }) };
}

impl Draft {
    /// No changes, with the header as it is now.
    pub fn new(alloc: Global, header: &Header) -> Draft
        requires { IsWithinLimits header.now }
        ensures header { result.header ≡ header.now }
        ensures none { result.units ≡ [] }
        ensures draft { IsDraft result }
    {
        reads_again(*header);
        Draft {
            header: *header,
            blocks: Waiting::new(alloc),
        }
    }

    /// The draft's header.
    pub fn header(&self) -> &Header
        ensures header { result.now ≡ self.now.header }
        ensures draft { IsDraft self.now }
    {
        &self.header
    }

    /// Takes another header: its block size is the same, and its total isn't smaller.
    pub fn put_header(&mut self, header: &Header)
        requires limits { IsWithinLimits header.now }
        requires block_size { header.now.block_size ≡ self.old.header.block_size }
        requires total { self.old.header.total ≤ header.now.total }
        ensures put { self.new ≡ record self.old { header = header.now } }
        ensures draft { IsDraft self.new }
    {
        reads_again(*header);
        self.header = *header;
    }

    /// The bytes that the draft has for a block, if it has it.
    pub fn get(&self, block: u32) -> Option<&[u8]>
        requires { block < self.now.header.total }
        ensures { option_copied result ≡ block_in self.now block }
    {
        self.blocks.find(block + 1)
    }

    /// How many blocks the draft has.
    pub fn len(&self) -> usize
        ensures { result ≡ length self.now.units }
    {
        self.blocks.len()
    }

    /// Whether it has none.
    pub fn is_empty(&self) -> bool
        ensures { result ≡ (length self.now.units == 0) }
    {
        self.blocks.is_empty()
    }

    /// Gives a block a copy of these bytes, in place of those that the draft had, if any.
    pub fn put(&mut self, alloc: Global, block: u32, bytes: &[u8]) -> Result<(), AllocError>
        requires within { block < self.old.header.total }
        requires size { length bytes.now ≡ self.old.header.block_size }
        ensures put { OnOk result (self.new ≡ with_block self.old block bytes.now) }
        ensures err { OnErr result (self.new ≡ self.old) }
    {
        let bytes = Vec::from_slice(alloc, bytes)?;
        self.put_vec(block, bytes)
    }

    /// Gives a block these bytes, as `put` does, without copying them.
    pub fn put_vec(&mut self, block: u32, bytes: Vec<u8>) -> Result<(), AllocError>
        requires within { block < self.old.header.total }
        requires size { length bytes.items ≡ self.old.header.block_size }
        ensures put { OnOk result (self.new ≡ with_block self.old block bytes.items) }
        ensures err { OnErr result (self.new ≡ self.old) }
    {
        self.blocks.reserve(1)?;
        self.blocks.put_reserved(UnitBytes {
            unit: block + 1,
            bytes,
        });
        Ok(())
    }

    /// Does nothing: what a draft has are bytes.
    pub fn hold_bytes(&self)
        ensures { HoldsBytes self.now }
    {
        self.blocks.hold_bytes();
        are_bytes(&self.header.master);
    }

    /// The draft's blocks as units of the file, in the order of their numbers.
    pub fn into_units(self) -> Vec<UnitBytes>
        ensures units { units_of result.items ≡ self.units }
        ensures draft { IsDraft self }
    {
        self.blocks.into_units()
    }
}

/// Does nothing: the bytes of a header are read as that header again.
fn reads_again(header: Header)
    ensures { fields_of (header_bytes header) ≡ header }
{}

/// Does nothing: each item of a slice of bytes is below 256.
fn are_bytes(bytes: &[u8])
    ensures { All (λ b. b < 256) bytes.now }
{}
