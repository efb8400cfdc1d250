ghost use Rattle.std.specs.Prelude.{◌≡◌, ◌≤◌, ◌+◌, length, IfSome};
ghost use Rattle.integ_quick.specs.Record.{IsFront};

use gds_block::u16_at;

/// The record at the front of the bytes left of a level-0 block, and the bytes behind it.
#[derive(Clone, Copy)]
pub(crate) struct Front<'a> {
    pub(crate) count: usize,
    pub(crate) body: &'a [u8],
    pub(crate) rest: &'a [u8],
}

impl<'a> Front<'a> {
    /// The front of these bytes, where they begin with a well-sized record.
    pub(crate) fn of(left: &'a [u8]) -> Option<Front<'a>>
        ensures front { IfSome result (λ f. IsFront left.now f.count f.body.now f.rest.now) }
        ensures some { IfSome result (λ f. 1 ≤ length f.body.now) }
        ensures less { IfSome result (λ f. length f.rest.now + 4 + length f.body.now ≡ length left.now) }
    {
        if left.len() < 4 {
            return None;
        }
        let size = usize::from(u16_at(left, 0));
        if size < 5 || left.len() < size {
            return None;
        }
        let (record, rest) = left.split_at(size);
        Some(Front {
            count: usize::from(u16_at(left, 2)),
            body: &record[4..],
            rest,
        })
    }
}
