ghost use Rattle.std.specs.Prelude.{◌≡◌, OnOk};
ghost use Rattle.gds_block.specs.Item.{Item};
ghost use Rattle.gds_find.specs.Fork.{LeafPlace};
ghost use Rattle.gds_pack.specs.Entry.{item};

use crate::record::FoundRecord;
use gds_pack::Entry;
use std::alloc::AllocError;

/// What takes the entry that a way down ends at.
pub(crate) trait Receiver {
    /// It has just taken an entry from a place in a level-0 block.
    ghost took: { Self → LeafPlace → Item → Type 0 };

    /// Takes the entry of a record of a level-0 block with these bytes, of which so many are used.
    fn take(&mut self, bytes: &[u8], used: usize, record: FoundRecord<'_>) -> Result<(), AllocError>
        ensures { OnOk result (took self.new
            (record { bytes = bytes.now; used = used; end = record.entry.end })
            (record { key = record.entry.key.items; rest = record.entry.rest.now })) };
}

impl Receiver for Entry {
    ghost took = { λ entry place e. item entry ≡ e };

    fn take(&mut self, _: &[u8], _: usize, record: FoundRecord<'_>) -> Result<(), AllocError> {
        fill(self, record)
    }
}

/// Fills an entry with that of a record.
pub(crate) fn fill(entry: &mut Entry, record: FoundRecord<'_>) -> Result<(), AllocError>
    ensures { OnOk result
        (item entry.new ≡ record { key = record.entry.key.items; rest = record.entry.rest.now }) }
{
    entry.key = record.key;
    entry.rest.clear();
    entry.rest.extend_from_slice(record.rest)
}
