// Tables on examples: every refusal, both ends of a range, and records out of order.
use crate::{Filling, Range, Refusal, Table};

fn range(first: u32, last: u32, value: u8) -> Range<u8> {
    Range { first, last, value }
}

#[test]
fn keeps_ranges_in_any_order(rt: HostRuntime) {
    let mut records = [range(9, 0, 9); 3];
    let mut filling = Filling::new(&mut records);
    let ranges = [range(30, 39, 3), range(1, 9, 1), range(29, 29, 2)];
    assert_eq!(rt; ranges.map(|range| filling.insert(range)), [Ok(()); 3]);
    let table = filling.table();
    assert_eq!(rt; table.covered(), 20);
    assert_eq!(rt;
        [0, 1, 9, 10, 29, 30, 39, 40].map(|c| table.lookup(c)),
        [
            None,
            Some(1),
            Some(1),
            None,
            Some(2),
            Some(3),
            Some(3),
            None
        ]
    );
}

#[test]
fn refuses_in_order(rt: HostRuntime) {
    let mut records = [range(0, 0, 0); 2];
    let mut filling = Filling::new(&mut records);
    let ranges = [
        range(20, 29, 2),
        range(29, 20, 1),
        range(10, 20, 1),
        range(29, 35, 1),
        range(10, 19, 1),
        range(0, u32::MAX, 1),
        range(30, u32::MAX, 3),
    ];
    assert_eq!(rt;
        ranges.map(|range| filling.insert(range)),
        [
            Ok(()),
            Err(Refusal::Backward),
            Err(Refusal::Shared),
            Err(Refusal::Shared),
            Ok(()),
            Err(Refusal::Shared),
            Err(Refusal::Full),
        ]
    );
    assert_eq!(rt; [filling.len(), filling.capacity()], [2, 2]);
}

#[test]
fn takes_the_records_in_order(rt: HostRuntime) {
    let records = [range(1, 2, 1), range(3, u32::MAX, 3), range(5, 6, 5)];
    let table = Table::new(&records);
    let copy = table;
    assert_eq!(rt; copy.covered(), u32::MAX as u64);
    assert_eq!(rt; table.len(), 2);
    assert_eq!(rt;
        [0, 1, 2, 3, 4, 5, 6, u32::MAX].map(|c| table.lookup(c)),
        [
            None,
            Some(1),
            Some(1),
            Some(3),
            Some(3),
            Some(3),
            Some(3),
            Some(3)
        ]
    );
}
