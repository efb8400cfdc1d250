ghost use Rattle.std.specs.Prelude.{◌≡◌, ◌+◌, ◌≤◌, ◌↔◌, IsTrue, List, None, Option, false, ℕ, option_map};
ghost use Rattle.gds_remove.specs.Range.{BeginsBehind, BeginsBelow, EndsBelow, GoesOn, IsLeft, Range};
ghost use Rattle.gds_remove.specs.Range.{TakesPart, bytes_of, ends_left, ends_of, is_from, is_in, is_up_to};
ghost use Rattle.gds_remove.specs.Range.{left_of, range_of};

/// A range of keys: those from a least one on and below another one. Without the least one it begins at the first key,
/// without the other it ends at the last.
#[derive(Clone, Copy, Debug)]
pub(crate) struct KeyRange<'a> {
    pub(crate) low: Option<&'a [u8]>,
    pub(crate) high: Option<&'a [u8]>,
}

impl<'a> KeyRange<'a> {
    /// Whether all keys are in it.
    pub(crate) fn is_all(&self) -> bool
        ensures { IsTrue result ↔ (range_of self.now ≡ record { low = None; high = None }) }
    {
        self.low.is_none() && self.high.is_none()
    }

    /// Whether a key is in it.
    pub(crate) fn contains(&self, key: &[u8]) -> bool
        ensures { result ≡ is_in (range_of self.now) key.now }
    {
        is_from(self.low, key) && is_up_to(self.high, key)
    }
}

// Whether a key is from a least one on, if there is one.
fn is_from(low: Option<&[u8]>, key: &[u8]) -> bool
    ensures { result ≡ is_from (bytes_of low.entry) key.now }
{
    match low {
        Some(low) => !key.cmp(low).is_lt(),
        None => true,
    }
}

// Whether a key is below another one, if there is one.
fn is_up_to(high: Option<&[u8]>, key: &[u8]) -> bool
    ensures { result ≡ is_up_to (bytes_of high.entry) key.now }
{
    match high {
        Some(high) => key.cmp(high).is_lt(),
        None => true,
    }
}

/// What is left of a range on a way along the children of an index block, whose keys rise.
#[derive(Clone, Copy, Debug)]
pub(crate) struct RangeLeft<'a> {
    /// The range's own ends; the least key is gone once a child was reached that has it in its bounds.
    pub(crate) range: KeyRange<'a>,
    /// Whether a child was reached that has the range's end in its bounds.
    pub(crate) is_past: bool,
}

impl<'a> RangeLeft<'a> {
    /// The part of the range in the bounds of the next child, whose keys are below this one; the last child has no such
    /// key, but an empty one. `None` where no key in its bounds is in the range.
    pub(crate) fn next_part(&mut self, key: &[u8]) -> Option<KeyRange<'a>>
        ensures part { (range : Range) (from : Option (List ℕ)) → IsLeft range from (left_of self.old)
            → TakesPart range from key.now (left_of self.new) (option_map range_of result) }
        ensures ends { ends_left (left_of self.new) + ends_of (option_map range_of result)
            ≤ ends_left (left_of self.old) }
    {
        if self.is_past {
            return None;
        }
        if self.is_before(key) {
            return None;
        }
        let is_past = self.ends_below(key);
        let high = if is_past { self.range.high } else { None };
        let low = self.range.low.take();
        self.is_past = is_past;
        Some(KeyRange { low, high })
    }

    // Whether the range begins behind the child.
    fn is_before(&self, key: &[u8]) -> bool
        ensures before { IsTrue result → BeginsBehind (bytes_of self.now.range.low) key.now }
        ensures reached { result ≡ false → BeginsBelow (bytes_of self.now.range.low) key.now }
    {
        let Some(low) = self.range.low else {
            return false;
        };
        !key.is_empty() && key.cmp(low).is_le()
    }

    /// Whether it ends in the bounds of a child whose keys are below this one, or that isn't known.
    pub(crate) fn ends_below(&self, key: &[u8]) -> bool
        ensures ends { IsTrue result → EndsBelow (bytes_of self.now.range.high) key.now }
        ensures goes_on { result ≡ false → GoesOn (bytes_of self.now.range.high) key.now }
    {
        let Some(high) = self.range.high else {
            return false;
        };
        key.is_empty() || high.cmp(key).is_le()
    }
}
