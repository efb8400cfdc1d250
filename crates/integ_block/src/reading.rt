ghost use Rattle.std.specs.Prelude.{◌≡◌, ◌≤◌, ◌∷◌, [], length};
ghost use Rattle.host_model.specs.Failures.{Rose};
ghost use Rattle.gds_law.specs.Block.{fault_at};
ghost use Rattle.gds_law.specs.BlockReading.{points, reading_of};
ghost use Rattle.gds_law.specs.Record.{is_above_bound, is_below_bound, is_directory, is_other_global, is_sound};
ghost use Rattle.gds_law.specs.Visit.{visit_of};
ghost use Rattle.gds_law.specs.Sink.{WasTold};

use crate::At;
use crate::compare::is_below;
use gds_block::u32_at;
use gds_header::Header;
use gds_law::{Fault, FaultKind, FaultSink, Role, SinkTrouble};

/// A block as it is read: the file's header, where the block stands, its level byte and its used count.
#[derive(Clone, Copy)]
pub(crate) struct BlockReading<'a> {
    pub(crate) header: &'a Header,
    pub(crate) at: &'a At,
    pub(crate) level: u8,
    pub(crate) used: u32,
    ghost short_keys: { header.now.key_max ≤ 255 },
}

impl<'a> BlockReading<'a> {
    ghost use Rattle.integ_block.specs.BlockReading.{reading};

    /// The reading of a block with these bytes.
    pub(crate) fn of(bytes: &[u8], at: &'a At, header: &'a Header) -> BlockReading<'a>
        requires head { 16 ≤ length bytes.now }
        requires short_keys { header.now.key_max ≤ 255 }
        ensures reading { reading result ≡ reading_of header.now (visit_of at.now.visit) bytes.now }
        ensures at { result.at.now ≡ at.now }
    {
        BlockReading {
            header,
            at,
            level: bytes[3],
            used: u32_at(bytes, 4),
        }
    }

    /// Tells that a kind stands at an offset.
    pub(crate) fn tell<F: FaultSink>(
        &self,
        offset: u32,
        kind: FaultKind,
        sink: &mut F,
    ) -> Result<(), SinkTrouble>
        ensures { let due = fault_at (reading self.now) self.now.at.now.path (offset, kind) ∷ [] in
            WasTold F.listed F.failures sink.old sink.new due result SinkTrouble.Failed }
    {
        sink.fault(&Fault {
            kind,
            block: self.at.visit.block,
            offset,
            level: self.level,
            path: self.at.path.copied(),
        })
    }

    /// Whether the block is one of the directory's.
    pub(crate) fn is_directory(&self) -> bool
        ensures { result ≡ is_directory (reading self.now).visit.role }
    {
        matches!(self.at.visit.role, Role::Directory)
    }

    /// Whether the block belongs to a global of another name.
    pub(crate) fn is_other_global(&self, name: &[u8]) -> bool
        ensures { result ≡ is_other_global (reading self.now).visit.role name.now }
    {
        match &self.at.visit.role {
            Role::Directory => false,
            Role::Global(own) => own.as_slice() != name,
        }
    }

    /// Whether a key isn't below the upper bound of the block.
    pub(crate) fn is_above_bound(&self, key: &[u8]) -> bool
        ensures { result ≡ is_above_bound (reading self.now).visit.high key.now }
    {
        match &self.at.visit.high {
            Some(bound) => !is_below(key, bound.as_slice()),
            None => false,
        }
    }

    /// Whether a key is below the lower bound of the block or, in an index block, equal to it.
    pub(crate) fn is_below_bound(&self, key: &[u8]) -> bool
        ensures { result ≡ is_below_bound self.now.level (reading self.now).visit.low key.now }
    {
        match &self.at.visit.low {
            Some(bound) => {
                is_below(key, bound.as_slice()) || self.level > 0 && key == bound.as_slice()
            }
            None => false,
        }
    }

    /// Whether what follows the keys of the block is a pointer. In the level-0 blocks of globals it is a value.
    pub(crate) fn points(&self) -> bool
        ensures { result ≡ points (reading self.now) }
    {
        self.level > 0 || self.is_directory()
    }

    /// Whether a pointer names a block that is no map.
    pub(crate) fn is_sound(&self, pointer: u32) -> bool
        ensures { result ≡ is_sound (reading self.now) pointer }
    {
        pointer > 0 && pointer < self.header.total && pointer % 512 != 0
    }
}
