ghost use Rattle.std.specs.Prelude.{◌≡◌, ◌≤◌, [], ◌∷◌, length, IfOk};
ghost use Rattle.gds_block.specs.Item.{Item};
ghost use Rattle.gds_pack.specs.Entry.{item, items};

use gds_block::BlockView;
use gds_pack::{Entry, cut_to_fit, pack, packed_size, unpack};
use m_key::join_key;
use std::alloc::{AllocError, Global};
use std::test::Fail;

/// The block of `^A="x"` and `^A(1)="y"`, with bytes behind its used count.
const DATA: [u8; 36] = [
    0x01, 0x00, 0x00, 0x00, 0x21, 0x00, 0x00, 0x00, 0x02, 0x00, 0x00, 0x00, 0x00, 0x00, 0x00, 0x00,
    0x08, 0x00, 0x00, 0x00, 0x41, 0x00, 0x00, 0x78, 0x09, 0x00, 0x02, 0x00, 0xBF, 0x11, 0x00, 0x00,
    0x79, 0x00, 0x00, 0x00,
];

/// A block of level 1 with `^A` to block 3 and a star to block 4.
const INDEX: [u8; 35] = [
    0x01, 0x00, 0x00, 0x01, 0x23, 0x00, 0x00, 0x00, 0x01, 0x00, 0x00, 0x00, 0x00, 0x00, 0x00, 0x00,
    0x0B, 0x00, 0x00, 0x00, 0x41, 0x00, 0x00, 0x03, 0x00, 0x00, 0x00, 0x08, 0x00, 0x00, 0x00, 0x04,
    0x00, 0x00, 0x00,
];

fn entry(alloc: Global, key: &[u8], rest: &[u8]) -> Result<Entry, AllocError>
    requires { length key.now ≤ 255 }
    ensures { IfOk result (λ e. item e ≡ record { key = key.now; rest = rest.now }) }
{
    Ok(Entry {
        key: join_key(&[], key),
        rest: Vec::from_slice(alloc, rest)?,
    })
}

fn data(alloc: Global) -> Result<[Entry; 2], AllocError>
    ensures { IfOk result (λ list. items list
        ≡ record { key = 65 ∷ 0 ∷ 0 ∷ []; rest = 120 ∷ [] }
        ∷ record { key = 65 ∷ 0 ∷ 191 ∷ 17 ∷ 0 ∷ 0 ∷ []; rest = 121 ∷ [] } ∷ []) }
{
    let first = entry(alloc, &[0x41, 0, 0], &[0x78])?;
    let second = entry(alloc, &[0x41, 0, 0xBF, 0x11, 0, 0], &[0x79])?;
    Ok([first, second])
}

fn index(alloc: Global) -> Result<[Entry; 2], AllocError>
    ensures { IfOk result (λ list. items list
        ≡ record { key = 65 ∷ 0 ∷ 0 ∷ []; rest = 3 ∷ 0 ∷ 0 ∷ 0 ∷ [] }
        ∷ record { key = []; rest = 4 ∷ 0 ∷ 0 ∷ 0 ∷ [] } ∷ []) }
{
    let first = entry(alloc, &[0x41, 0, 0], &[3, 0, 0, 0])?;
    let star = entry(alloc, &[], &[4, 0, 0, 0])?;
    Ok([first, star])
}

#[test]
fn packs_and_unpacks_a_data_block(rt: HostRuntime) -> Result<(), Fail> {
    let list = data(rt.alloc())?;
    assert_eq!(rt; packed_size(&list), 33);
    let mut out = [0xEE; 36];
    pack(&list, 0, 2, &mut out);
    assert_eq!(rt; out, DATA);

    let block = BlockView::new(&DATA).ok_or("a block")?;
    let found = unpack(rt.alloc(), &block)?.ok_or("its entries")?;
    assert_eq!(rt; found.as_slice(), list.as_slice());
    Ok(())
}

#[test]
fn packs_and_unpacks_an_index_block(rt: HostRuntime) -> Result<(), Fail> {
    let list = index(rt.alloc())?;
    let mut out = [0xEE; 35];
    pack(&list, 1, 1, &mut out);
    assert_eq!(rt; out, INDEX);

    let block = BlockView::new(&INDEX).ok_or("a block")?;
    let found = unpack(rt.alloc(), &block)?.ok_or("its entries")?;
    assert_eq!(rt; found.as_slice(), list.as_slice());
    Ok(())
}

#[test]
fn cuts_where_no_more_fits(rt: HostRuntime) -> Result<(), Fail> {
    let list = data(rt.alloc())?;
    for limit in 27..36 {
        let places = cut_to_fit(&list, limit);
        let expected: &[usize] = if limit < 33 { &[1] } else { &[] };
        assert_eq!(rt; places.as_slice(), expected, "{limit}");
    }
    Ok(())
}
