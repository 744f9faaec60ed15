// A recovery takes a ledger over from its writer, in either store; and calls that are refused.
use chronicles::changes::Change;
use chronicles::chronicle::Chronicle;
use layout::fragments::Layout;
use layout::sizes::Sizes;
use ledgers::bookie_lists::BookieList;
use ledgers::ids::{Lac, LedgerId, Version};
use messages::faults::StoreFault;
use messages::metadata::LedgerState;
use std::process::Abort;
use std::test::Fail;
use stores::calls::Store;
use stores::table::Table;

fn some_layout() -> Option<Layout> {
    let sizes = Sizes::new(3, 3, 2)?;
    let bookies = BookieList::new(&[0, 1, 2])?;
    Some(Layout::first(sizes, &bookies))
}

fn some_change(layout: Layout) -> Change {
    Change {
        ledger: LedgerId(0),
        state: LedgerState::Open,
        layout,
        closing: Lac(0),
    }
}

// The version that was answered, or the number of the refusal: one number to compare, since no version here is as high as 30.
fn shown(answer: Result<Version, StoreFault>) -> u32 {
    match answer {
        Ok(version) => version.0,
        Err(fault) => u32::from(fault),
    }
}

// The version of a ledger, or the number of the refusal, as above.
fn version_of<S: Store>(store: &S, ledger: u32) -> u32 {
    match store.get(LedgerId(ledger)) {
        Ok(metadata) => metadata.version.0,
        Err(fault) => u32::from(fault),
    }
}

fn put<S: Store>(
    store: &mut S,
    ledger: u32,
    expected: u32,
    state: LedgerState,
    layout: &Layout,
) -> u32 {
    shown(store.put(LedgerId(ledger), Version(expected), state, layout, Lac(0)))
}

fn create<S: Store>(store: &mut S, ledger: u32, layout: &Layout) -> u32 {
    shown(store.create(LedgerId(ledger), layout))
}

// The recovery comes first, so the writer's put names an old version; numbers that name no ledger change nothing.
fn writer_is_overtaken<S: Store>(rt: &impl Abort, store: &mut S, layout: &Layout) {
    assert_eq!(rt; version_of(store, 1), 31);
    assert_eq!(rt; create(store, 1, layout), 1);
    assert_eq!(rt; create(store, 1, layout), 31);
    assert_eq!(rt; put(store, 1, 1, LedgerState::InRecovery, layout), 2);
    assert_eq!(rt; put(store, 1, 1, LedgerState::Open, layout), 32);
    assert_eq!(rt; create(store, 0, layout), 30);
    assert_eq!(rt; put(store, 17, 0, LedgerState::Open, layout), 30);
    assert_eq!(rt; put(store, 2, 0, LedgerState::Open, layout), 31);
    assert_eq!(rt; version_of(store, 1), 2);
}

#[test]
fn table_tells_the_writer(rt: HostRuntime) -> Result<(), Fail> {
    let Some(layout) = some_layout() else {
        return Err(Fail::new("layout"));
    };
    let mut table = Table::new();
    writer_is_overtaken(&rt, &mut table, &layout);
    Ok(())
}

#[test]
fn chronicle_tells_the_writer(rt: HostRuntime) -> Result<(), Fail> {
    let Some(layout) = some_layout() else {
        return Err(Fail::new("layout"));
    };
    let mut places = [some_change(layout); 2];
    let Ok(mut chronicle) = Chronicle::new(&mut places) else {
        return Err(Fail::new("two places are refused"));
    };
    writer_is_overtaken(&rt, &mut chronicle, &layout);
    assert_eq!(rt; chronicle.changes().len(), 2);
    assert_eq!(rt; create(&mut chronicle, 2, &layout), 33);
    assert_eq!(rt; put(&mut chronicle, 1, 1, LedgerState::Closed, &layout), 32);
    Ok(())
}

#[test]
fn places_too_many(rt: HostRuntime) -> Result<(), Fail> {
    let Some(layout) = some_layout() else {
        return Err(Fail::new("layout"));
    };
    let mut places = vec![in rt.alloc(); some_change(layout); 60001]?;
    match Chronicle::new(&mut places[..]) {
        Ok(_) => Err(Fail::new("they are taken")),
        Err(fault) => {
            assert_eq!(rt; u32::from(fault), 15);
            Ok(())
        },
    }
}
