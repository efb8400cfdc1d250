ghost use Rattle.std.specs.Prelude.{◌≡◌, ◌+◌, ◌<◌, ◌≤◌, ◌∷◌, All, Err, IfOk, List, OnErr, OnOk, length, nat_eq, ℕ};
ghost use Rattle.std.specs.List.{IsDistinct};
ghost use Rattle.gds_base.specs.Drafting.{Drafts, IsDraftFor};
ghost use Rattle.gds_base.specs.declared.error.BaseError.TheVariants.{Memory};
ghost use Rattle.gds_header.specs.Fields.{fields_of};
ghost use Rattle.gds_pack.specs.Entry.{items};
ghost use Rattle.gds_pack.specs.Packable.{ArePackable};
ghost use Rattle.gds_split.specs.Pieces.{own_entries, parting_key, pieces_above};
ghost use Rattle.gds_splice.specs.Parts.{FitInRuns, above_parts, pieces_of};
ghost use Rattle.gds_splice.specs.Writing.{HasMore, PutsPieces};

use crate::parts::{Part, Parts};
use crate::writing::put_entries;
use gds_base::{Base, BaseError};
use gds_draft::Draft;
use gds_pack::{Entry, Key};
use host_model::Host;
use m_key::key_from;
use std::alloc::{AllocError, Global};

/// Writes the entries of a block into blocks of these numbers, of which all but the last get so many. The parts say
/// which key parts each from the next: above level 0 that is the key of its last entry, which is the star there.
pub fn write_pieces<H: Host>(
    alloc: Global,
    base: &Base<H>,
    draft: &mut Draft,
    level: u8,
    mut entries: Vec<Entry>,
    lengths: &[usize],
    numbers: &[u32],
) -> Result<Parts, BaseError>
    requires draft { IsDraftFor base.now.header draft.old }
    requires fits { FitInRuns base.now.header.block_size lengths.now (items entries.items) }
    requires packable { ArePackable level (items entries.items) }
    requires count { length numbers.now ≡ length lengths.now + 1 }
    requires within { All (λ n. n < draft.old.header.total) numbers.now }

    ensures put { OnOk result (Drafts base.now draft.old draft.new (λ before after.
        0 < (fields_of before).tn → IsDistinct nat_eq numbers.now
        → PutsPieces before after level (pieces_of lengths.now numbers.now (items entries.items)))) }
    ensures parts { IfOk result (λ parts. (key : List ℕ)
        → pieces_above level (pieces_of lengths.now numbers.now (items entries.items)) key
        ≡ above_parts parts key) }
    ensures more { HasMore draft.old draft.new (length numbers.now) }
    ensures err { OnErr result (result ≡ Err Memory) }
{
    let number = numbers[0];
    let Some((length, lengths)) = lengths.split_first() else {
        put_entries(alloc, base, draft, number, level, &entries)?;
        return Ok(Parts {
            parted: Vec::new(alloc),
            last: number,
        });
    };
    let behind = entries.split_off(*length)?;
    let key = part_key(level, &mut entries, &behind);
    put_entries(alloc, base, draft, number, level, &entries)?;
    let mut parts = write_pieces(alloc, base, draft, level, behind, lengths, &numbers[1..])?;
    add_front(&mut parts, Part { key, block: number })?;
    Ok(parts)
}

// Takes from a run of entries the key that parts them from those behind.
fn part_key(level: u8, run: &mut Vec<Entry>, behind: &[Entry]) -> Key
    requires some { 0 < length run.old.items }
    requires more { 0 < length behind.now }
    ensures key { result.items ≡ parting_key level (items run.old.items) (items behind.now) }
    ensures own { items run.new.items ≡ own_entries level (items run.old.items) }
{
    if level == 0 {
        return key_from(behind[0].key.as_slice());
    }
    let last = run.len() - 1;
    let key = key_from(run[last].key.as_slice());
    run[last].key = Key::new();
    key
}

fn add_front(parts: &mut Parts, part: Part) -> Result<(), AllocError>
    ensures { OnOk result (parts.new ≡ record parts.old { parted = parts.new.parted }
        × (parts.new.parted.items ≡ part ∷ parts.old.parted.items)) }
{
    parts.parted.insert(0, part)?;
    Ok(())
}
