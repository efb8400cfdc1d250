ghost use Rattle.std.specs.Prelude.{◌≡◌, ◌<◌, ◌∷◌, ◌++◌, ℕ, true, [], List, IfOk, IsSomeAnd, None};
ghost use Rattle.std.specs.Range.Bound.{bound_map};
ghost use Rattle.gds_base.specs.Drafting.{IsDraftFor, WithDraft};
ghost use Rattle.gds_base.specs.Ending.{EndsReading};
ghost use Rattle.gds_block.specs.Item.{Item};
ghost use Rattle.gds_law.specs.Visit.{Visit};
ghost use Rattle.gds_pack.specs.Entry.{item};
ghost use Rattle.gds_pack.specs.Packed.{packed_size};
ghost use Rattle.gds_search.specs.PackedBlock.{IsPackedBlock};
ghost use Rattle.gds_units.specs.Reading.{OnlyRead};
ghost use Rattle.gds_find.specs.Fork.{BeginsWith};
ghost use Rattle.gds_find.specs.Next.{HasTreeFrom};
ghost use Rattle.gds_find.specs.Scan.{CursorGoesTo, GoesTo, HasTaken, IsCursorOf, IsScanOf, behind_key};
ghost use Rattle.gds_find.specs.Scan.{last_item, scanned_root};

use crate::next_entry::next_below;
use crate::receiver::{Receiver, fill};
use crate::record::{FoundRecord, record_at};
use gds_base::{Base, BaseError};
use gds_draft::Draft;
use gds_pack::{Entry, Key};
use host_model::Host;
use m_key::key_from;
use std::alloc::{AllocError, Global};
use std::ops::Bound;

/// A scan of the entries of a tree, the least first.
///
/// It keeps a copy of the leaf that the last entry stands in, so that one way down is made for each leaf.
#[derive(Drop)]
pub struct Scan {
    root: u32,
    cursor: Cursor,
}

// The last entry of a scan, and a copy of the leaf that it stands in.
#[derive(Drop)]
pub(crate) struct Cursor {
    // Whether there is a last entry.
    begun: bool,
    entry: Entry,
    leaf: Vec<u8>,
    // How many bytes of the leaf are used, and where in it the last entry's record ends.
    used: usize,
    end: usize,
}

impl Scan {
    /// A scan of the tree at a root, that has given nothing yet.
    pub fn new(alloc: Global, root: u32) -> Scan
        ensures root { scanned_root result ≡ root }
        ensures scan { (items : List Item) → IsScanOf items result [] }
    {
        Scan {
            root,
            cursor: Cursor {
                begun: false,
                entry: Entry {
                    key: Key::new(),
                    rest: Vec::new(alloc),
                },
                leaf: Vec::new(alloc),
                used: 0,
                end: 0,
            },
        }
    }

    /// The entry that the last call of `next` found.
    pub fn entry(&self) -> &Entry
        ensures { item result.now ≡ last_item self.now }
    {
        &self.cursor.entry
    }

    /// Finds the next entry of the tree, in the image with a draft. Answers false where all were given.
    ///
    /// Memory is taken for a copy of a leaf and for the entry, and kept for the next ones. `Changed` comes where no
    /// sound tree stands at the root of which the scan has given the first entries. What is left of the scan after an
    /// error isn't said.
    pub fn next<H: Host>(&mut self, base: &mut Base<H>, draft: &Draft) -> Result<bool, BaseError>
        requires { IsDraftFor base.old.header draft.now }
        ensures next { IfOk result (λ found. WithDraft base.old draft.now (λ file. (v : Visit)
            → (has : HasTreeFrom file v (scanned_root self.old) None Bound.Unbounded) (passed : List Item)
            → IsScanOf has.tree.items self.old passed → GoesTo has.tree.items passed self.new found)) }
        ensures root { scanned_root self.new ≡ scanned_root self.old }
        ensures read { OnlyRead H.told H.moment H.failures H.left_since base.old base.new }
        ensures ends { EndsReading (H.failures base.old.host) (H.failures base.new.host)
            (WithDraft base.old draft.now (λ file. (v : Visit)
            → (has : HasTreeFrom file v (scanned_root self.old) None Bound.Unbounded) (passed : List Item)
            → IsScanOf has.tree.items self.old passed → ⊥)) result }
    {
        if self.cursor.end < self.cursor.used {
            if self.cursor.step()? {
                return Ok(true);
            }
            return Err(BaseError::Changed {
                unit: self.root.saturating_add(1),
            });
        }
        next_leaf(base, draft, self.root, &mut self.cursor)
    }
}

// Goes on to the first entry of the next leaf. Answers false where there is none.
fn next_leaf<H: Host>(
    base: &mut Base<H>,
    draft: &Draft,
    root: u32,
    cursor: &mut Cursor,
) -> Result<bool, BaseError>
    requires { IsDraftFor base.old.header draft.now }
    ensures next { IfOk result (λ found. WithDraft base.old draft.now (λ file. (v : Visit)
        → (has : HasTreeFrom file v root None Bound.Unbounded) (passed : List Item)
        → IsCursorOf has.tree.items cursor.old passed → CursorGoesTo has.tree.items passed cursor.new found)) }
    ensures read { OnlyRead H.told H.moment H.failures H.left_since base.old base.new }
    ensures ends { EndsReading (H.failures base.old.host) (H.failures base.new.host)
        (WithDraft base.old draft.now (λ file. (v : Visit)
        → (has : HasTreeFrom file v root None Bound.Unbounded) (passed : List Item)
        → IsCursorOf has.tree.items cursor.old passed → ⊥)) result }
{
    base.hold_draft(draft);
    let key = key_from(cursor.entry.key.as_slice());
    let from = behind_key(cursor.begun, key.as_slice());
    next_below(base, draft, root, None, from, cursor)
}

impl Cursor {
    // Goes on to the next entry of the leaf, where that goes on. Answers false where it can't be read.
    fn step(&mut self) -> Result<bool, AllocError>
        ensures { self.old.end < self.old.used → IfOk result (λ found. (items passed : List Item)
            → IsCursorOf items self.old passed
            → (found ≡ true) × IsCursorOf items self.new (passed ++ item self.new.entry ∷ [])) }
    {
        let Some(end) = read_next(self.leaf.as_slice(), self.end, &mut self.entry)? else {
            return Ok(false);
        };
        self.end = end;
        Ok(true)
    }
}

impl Receiver for Cursor {
    ghost took = { HasTaken };

    fn take(
        &mut self,
        bytes: &[u8],
        used: usize,
        record: FoundRecord<'_>,
    ) -> Result<(), AllocError> {
        self.leaf.clear();
        self.leaf.extend_from_slice(bytes)?;
        self.begun = true;
        self.used = used;
        self.end = record.end;
        fill(&mut self.entry, record)
    }
}

// Fills an entry with the one of the record that begins at an offset of a leaf, and answers where that ends. The entry
// holds the one before it.
fn read_next(leaf: &[u8], start: usize, entry: &mut Entry) -> Result<Option<usize>, AllocError>
    ensures { IfOk result (λ end. (before behind : List Item) (own : Item)
        → IsPackedBlock leaf.now 0 (before ++ own ∷ behind) → packed_size before ≡ start
        → BeginsWith entry.old.key.items before (own ∷ behind)
        → IsSomeAnd end (λ end. (item entry.new ≡ own) × (end ≡ packed_size (before ++ own ∷ [])))) }
{
    let Some(record) = record_at(leaf, start, entry.key.as_slice()) else {
        return Ok(None);
    };
    let end = record.end;
    fill(entry, record)?;
    Ok(Some(end))
}

// The bound behind a key, or none where nothing has begun.
fn behind_key(begun: bool, key: &[u8]) -> Bound<&[u8]>
    ensures { bound_map (λ key. key.now) result ≡ behind_key begun key.now }
{
    if begun {
        Bound::Excluded(key)
    } else {
        Bound::Unbounded
    }
}
