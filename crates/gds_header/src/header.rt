ghost use Rattle.std.specs.Prelude.{◌≡◌, ◌≢◌, ℕ, ◌+◌, ◌<◌, ◌≤◌, List, ◌++◌, length, take, drop, IfOk, IfErr, Some};
ghost use Rattle.std.specs.Prelude.{None, option_map, nat_lt, if◌then◌else◌};
ghost use Rattle.gds_header.specs.Fields.{fields_of, file_length_of, header_bytes};
ghost use Rattle.std.specs.Int.{bit_at};
ghost use Rattle.gds_header.specs.Kinds.{kind_of, keeps_block_limits, keeps_record_limits, IsWithinLimits};
ghost use Rattle.gds_header.specs.Kinds.{EachFileEnds, unreadable, has_free};
ghost use Rattle.gds_header.specs.declared.kind.HeaderKind.TheVariants.{ShortFile};

use super::kind::HeaderFault;
use gds_block::{put_bytes, put_u32, put_u64, u32_at, u64_at};

/// How many bytes a file's header has.
pub const HEADER_LENGTH: usize = 8192;

const LABEL: [u8; 8] = *b"GDSPROF1";

/// Each block size is a multiple of this, and at most the greatest.
const BLOCK_SIZE_STEP: u32 = 512;

const GREATEST_BLOCK_SIZE: u32 = 65_024;

/// The fields of a file's header.
#[derive(Clone, Copy, Debug, PartialEq, Eq)]
pub struct Header {
    /// The bytes of a block.
    pub block_size: u32,
    /// How many blocks the file has, local bitmaps among them.
    pub total: u32,
    /// How many of them are free.
    pub free: u32,
    /// By how many blocks the file grows.
    pub extension: u32,
    /// How many blocks the file may have.
    pub limit: u32,
    /// The bytes of the longest key.
    pub key_max: u32,
    /// The bytes of the longest value.
    pub value_max: u32,
    /// The number of the next transaction.
    pub tn: u64,
    /// For each group of 512 blocks one bit, the lowest of a byte first: whether the group has a free block.
    pub master: [u8; 256],
}

impl Header {
    /// Reads the 8,192 bytes at the front of a file. The bytes that must be 0 may be anything, and so may
    /// the numbers that no limit is on: the count of free blocks and the transaction number.
    pub fn read(bytes: &[u8]) -> Result<Header, HeaderFault>
        requires { length bytes.now ≡ 8192 }
        ensures fields { IfOk result (λ h. h ≡ fields_of bytes.now) }
        ensures ok { IfOk result (λ h. unreadable bytes.now ≡ None) }
        ensures limits { IfOk result IsWithinLimits }
        ensures err { IfErr result (λ f. unreadable bytes.now ≡ Some (kind_of f)) }

        // What ends the reading of a file that begins with these bytes.
        ensures file_ok { IfOk result (λ h. EachFileEnds bytes.now (λ image.
            if nat_lt (length image) (file_length_of h) then Some ShortFile else None)) }
        ensures file_err { IfErr result (λ f. EachFileEnds bytes.now (λ _. Some (kind_of f))) }
    {
        let header = Header::fields(bytes);
        match header.fault(bytes) {
            Some(fault) => Err(fault),
            None => Ok(header),
        }
    }

    /// Writes the 8,192 bytes at the front of a file. Those of a header within the limits are read again.
    pub fn write(&self, out: &mut [u8])
        requires { length out.old ≡ 8192 }
        ensures bytes { out.new ≡ header_bytes self.now }
        ensures again { fields_of out.new ≡ self.now }
        ensures readable { IsWithinLimits self.now → unreadable out.new ≡ None }
    {
        out.fill(0);
        put_bytes(out, 0, &LABEL);
        put_u32(out, 8, self.block_size);
        put_u32(out, 12, self.total);
        put_u32(out, 16, self.free);
        put_u32(out, 20, self.extension);
        put_u32(out, 24, self.limit);
        put_u32(out, 28, self.key_max);
        put_u32(out, 32, self.value_max);
        put_u64(out, 40, self.tn);
        put_bytes(out, 4096, &self.master);
    }

    /// Whether the master map says that the group has a free block.
    pub fn group_has_free(&self, group: u32) -> bool
        requires { group < 2048 }
        ensures { result ≡ has_free self.now group }
    {
        self.master[group as usize / 8] >> (group % 8) & 1 == 1
    }

    /// Notes in the master map whether the group has a free block.
    pub fn mark_group(&mut self, group: u32, has: bool)
        requires { group < 2048 }
        ensures group { has_free self.new group ≡ has }
        ensures others { (g : ℕ) → g ≢ group → has_free self.new g ≡ has_free self.old g }
        ensures fields { self.new ≡ record self.old { master = self.new.master } }
    {
        let at = group as usize / 8;
        self.master[at] = with_bit(self.master[at], group % 8, has);
    }

    /// The bytes that a file with this header has.
    pub fn file_length(&self) -> u64
        ensures { result ≡ file_length_of self.now }
    {
        HEADER_LENGTH as u64 + u64::from(self.total) * u64::from(self.block_size)
    }

    fn fields(bytes: &[u8]) -> Header
        requires { length bytes.now ≡ 8192 }
        ensures { result ≡ fields_of bytes.now }
    {
        let mut master = [0; 256];
        master.copy_from_slice(&bytes[4096..4352]);
        Header {
            block_size: u32_at(bytes, 8),
            total: u32_at(bytes, 12),
            free: u32_at(bytes, 16),
            extension: u32_at(bytes, 20),
            limit: u32_at(bytes, 24),
            key_max: u32_at(bytes, 28),
            value_max: u32_at(bytes, 32),
            tn: u64_at(bytes, 40),
            master,
        }
    }

    #[tactic(auto, unfolding(crate::specs::Kinds::unreadable))]
    fn fault(&self, bytes: &[u8]) -> Option<HeaderFault>
        requires { self.now ≡ fields_of bytes.now }
        ensures { option_map kind_of result ≡ unreadable bytes.now }
    {
        if !bytes.starts_with(&LABEL) {
            Some(HeaderFault::NotDb)
        } else if self.block_size == 0 || self.block_size % BLOCK_SIZE_STEP != 0 {
            Some(HeaderFault::NotMultiple)
        } else if self.block_size > GREATEST_BLOCK_SIZE {
            Some(HeaderFault::TooLarge)
        } else if self.total == 0 {
            Some(HeaderFault::NoTotal)
        } else if !self.keeps_block_limits() || !self.keeps_record_limits() {
            Some(HeaderFault::Limit)
        } else {
            None
        }
    }

    fn keeps_block_limits(&self) -> bool
        ensures { result ≡ keeps_block_limits self.now }
    {
        (64..=1_048_576).contains(&self.limit)
            && (3..=self.limit).contains(&self.total)
            && (64..=65_535).contains(&self.extension)
    }

    fn keeps_record_limits(&self) -> bool
        ensures { result ≡ keeps_record_limits self.now }
    {
        (3..=255).contains(&self.key_max)
            && 16 + 3 * (8 + self.key_max) <= self.block_size
            && 20 + u64::from(self.key_max) + u64::from(self.value_max)
                <= u64::from(self.block_size)
    }
}

/// The byte with a bit set or cleared; bit 0 is the lowest.
fn with_bit(byte: u8, bit: u32, is_set: bool) -> u8
    requires { bit < 8 }
    ensures bit { bit_at result bit ≡ (if is_set then 1 else 0) }
    ensures others { (k : ℕ) → k < 8 → k ≢ bit → bit_at result k ≡ bit_at byte k }
{
    if is_set {
        byte | 1 << bit
    } else {
        byte & !(1 << bit)
    }
}
