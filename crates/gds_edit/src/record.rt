ghost use Rattle.std.specs.Prelude.{◌≡◌, ◌<◌, ◌≤◌, ◌+◌, ◌-◌, ◌^◌, ◌++◌, length, min, IfSome, IfNone};
ghost use Rattle.gds_block.specs.Fields.{u16_bytes, with_bytes};
ghost use Rattle.gds_edit.specs.Reading.{new_bytes};

use gds_block::{put_bytes, put_u16};

// What stands before the body of a record.
#[derive(Clone, Copy)]
pub(crate) struct RecordHead {
    pub size: usize,
    // How many leading bytes of its key the record leaves out.
    pub count: usize,
}

impl RecordHead {
    // How many bytes of the record belong to its key, where that has so many with those that are left out.
    pub(crate) fn key_part(self, key: usize) -> Option<usize>
        requires { 4 ≤ self.size }
        ensures part { IfSome result (λ n. (self.count + n ≡ key) × (4 + n ≤ self.size)) }
        ensures none { IfNone result (self.count ≤ key → 4 + (key - self.count) ≤ self.size → ⊥) }
    {
        let part = key.checked_sub(self.count)?;
        if part <= self.size - 4 {
            Some(part)
        } else {
            None
        }
    }

    // Puts it at an offset.
    pub(crate) fn put(self, out: &mut [u8], at: usize)
        requires fits { at + 4 ≤ length out.old }
        requires size { self.size < 2 ^ 16 }
        requires count { self.count < 2 ^ 16 }
        ensures { out.new ≡ with_bytes out.old at (u16_bytes self.size ++ u16_bytes self.count) }
    {
        put_u16(out, at, self.size as u16);
        put_u16(out, at + 2, self.count as u16);
    }
}

// A record that is put into a block.
#[derive(Clone, Copy)]
pub(crate) struct NewRecord<'a> {
    // How many leading bytes of its key it leaves out, and the others.
    pub count: usize,
    pub key: &'a [u8],
    pub rest: &'a [u8],
}

impl<'a> NewRecord<'a> {
    // Its size, at most 2^64 - 1.
    pub(crate) fn size(self) -> usize
        ensures { result ≡ min (4 + length self.entry.key.now + length self.entry.rest.now) (2 ^ 64 - 1) }
    {
        4_usize
            .saturating_add(self.key.len())
            .saturating_add(self.rest.len())
    }

    // Puts it at an offset.
    pub(crate) fn put(self, out: &mut [u8], at: usize)
        requires fits { at + (4 + length self.key.now + length self.rest.now) ≤ length out.old }
        requires short { length out.old ≤ 65024 }
        requires count { self.count < 2 ^ 16 }
        ensures { out.new ≡ with_bytes out.old at
            (new_bytes self.entry.count self.entry.key.now self.entry.rest.now) }
    {
        let size = 4 + self.key.len() + self.rest.len();
        let head = RecordHead {
            size,
            count: self.count,
        };
        head.put(out, at);
        put_bytes(out, at + 4, self.key);
        put_bytes(out, at + 4 + self.key.len(), self.rest);
    }
}
