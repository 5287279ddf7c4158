// The edges of both stores, by one script for any store.
use crate::{FlatStore, Gap, GapStore, TextStore};
use std::alloc::{AllocError, Global};
use std::process::Abort;
use std::test::Fail;

fn array(heap: Global, cells: usize) -> Result<Vec<u32>, AllocError> {
    vec![in heap; 7; cells]
}

// At a capacity of four: the empty store, what passes an end, a full store, a correction.
fn at_four<S: TextStore>(rt: &impl Abort, store: &mut S) {
    assert_eq!(rt; store.capacity(), 4);
    assert_eq!(rt; store.len(), 0);
    assert_eq!(rt; store.at(0), 0);
    assert!(rt; !store.replace(1, 0, &[65]));
    assert!(rt; !store.replace(0, 1, &[65]));
    assert!(rt; !store.replace(usize::MAX, usize::MAX, &[]));
    assert!(rt; !store.replace(0, usize::MAX, &[]));
    assert!(rt; !store.replace(0, 0, &[65, 66, 67, 68, 69]));
    assert_eq!(rt; store.len(), 0);
    assert!(rt; store.replace(0, 0, &[65, 66, 67, 68]));
    assert!(rt; !store.replace(2, 0, &[90]));
    assert!(rt; store.replace(2, 1, &[90]));
    assert!(rt; store.replace(0, 1, &[]));
    assert_eq!(rt;
        (store.at(0), store.at(1), store.at(2), store.at(3)),
        (66, 90, 68, 0)
    );
}

// Over an array with no cell.
fn at_nothing<S: TextStore>(rt: &impl Abort, store: &mut S) {
    assert!(rt; !store.replace(0, 0, &[65]));
    assert!(rt; store.replace(0, 0, &[]));
    assert_eq!(rt; (store.len(), store.capacity()), (0, 0));
}

// Over an array longer than a store may hold.
fn at_the_limit<S: TextStore>(rt: &impl Abort, store: &mut S, heap: Global) -> Result<(), Fail> {
    let full = array(heap, 4096)?;
    assert_eq!(rt; store.capacity(), 4096);
    assert!(rt; store.replace(0, 0, full.as_slice()));
    assert!(rt; !store.replace(4096, 0, &[1]));
    assert!(rt; store.replace(4095, 1, &[1]));
    assert_eq!(rt; store.at(4094), 7);
    assert_eq!(rt; store.at(4095), 1);
    assert_eq!(rt; store.at(4096), 0);
    assert_eq!(rt; store.len(), 4096);
    Ok(())
}

#[test]
fn flat_store(rt: HostRuntime) -> Result<(), Fail> {
    let mut store = FlatStore::new(array(rt.alloc(), 4)?);
    at_four(&rt, &mut store);
    let cells = store.into_cells();
    assert!(rt; cells.len() == 4);
    assert_eq!(rt; (cells[0], cells[1], cells[2]), (66, 90, 68));
    Ok(())
}

#[test]
fn gap_store(rt: HostRuntime) -> Result<(), Fail> {
    let mut store = GapStore::new(array(rt.alloc(), 4)?);
    at_four(&rt, &mut store);
    let gap = store.gap();
    assert_eq!(rt; gap, Gap { start: 0, end: 1 });
    let cells = store.into_cells();
    assert!(rt; cells.len() == 4);
    assert_eq!(rt; (cells[1], cells[2], cells[3]), (66, 90, 68));
    Ok(())
}

#[test]
fn limits(rt: HostRuntime) -> Result<(), Fail> {
    let heap = rt.alloc();
    at_nothing(&rt, &mut FlatStore::new(array(heap, 0)?));
    at_nothing(&rt, &mut GapStore::new(array(heap, 0)?));
    let mut flat = FlatStore::new(array(heap, 5000)?);
    at_the_limit(&rt, &mut flat, heap)?;
    let mut gap = GapStore::new(array(heap, 5000)?);
    at_the_limit(&rt, &mut gap, heap)?;
    assert_eq!(rt; gap.into_cells().len(), 5000);
    Ok(())
}
