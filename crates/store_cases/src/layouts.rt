// Write sets, coverage and ensemble changes.
use layout::fragments::Layout;
use layout::sizes::Sizes;
use ledgers::bookie_lists::BookieList;
use ledgers::ids::{BookieId, EntryId, Position};
use std::test::Fail;

#[test]
fn sizes_are_in_order(rt: HostRuntime) {
    assert!(rt; Sizes::new(3, 3, 2).is_some());
    assert!(rt; Sizes::new(1, 1, 1).is_some());
    assert!(rt; Sizes::new(3, 2, 3).is_none());
    assert!(rt; Sizes::new(2, 3, 1).is_none());
}

#[test]
fn write_sets_go_round(rt: HostRuntime) -> Result<(), Fail> {
    let Some(sizes) = Sizes::new(5, 3, 2) else {
        return Err(Fail::new("sizes"));
    };
    assert_eq!(rt; sizes.write_set(EntryId(4)).as_slice(), &[4, 0, 1][..]);
    Ok(())
}

#[test]
fn coverage_leaves_no_ack_quorum(rt: HostRuntime) -> Result<(), Fail> {
    let Some(sizes) = Sizes::new(5, 3, 2) else {
        return Err(Fail::new("sizes"));
    };
    assert!(rt; !sizes.covers(&[true, false, true, true, false]));
    assert!(rt; sizes.covers(&[true, true, false, true, true]));
    Ok(())
}

#[test]
fn changes_add_or_alter_a_fragment(rt: HostRuntime) -> Result<(), Fail> {
    let Some(sizes) = Sizes::new(3, 3, 2) else {
        return Err(Fail::new("sizes"));
    };
    let Some(bookies) = BookieList::new(&[0, 1, 2]) else {
        return Err(Fail::new("bookies"));
    };
    let from_two = Layout::first(sizes, &bookies).changed(EntryId(2), Position(1), BookieId(3));
    let added = from_two.changed(EntryId(5), Position(0), BookieId(4));
    assert_eq!(rt; added.last_fragment().first.0, 5);
    assert_eq!(rt; added.bookie_at(EntryId(4), Position(0)).0, 0);
    assert_eq!(rt; added.bookie_at(EntryId(5), Position(0)).0, 4);
    let altered = from_two.changed(EntryId(2), Position(0), BookieId(4));
    assert_eq!(rt; altered.last_fragment().first.0, 2);
    assert_eq!(rt; altered.bookie_at(EntryId(2), Position(0)).0, 4);
    assert_eq!(rt; altered.bookie_at(EntryId(1), Position(1)).0, 1);
    Ok(())
}
