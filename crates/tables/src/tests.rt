// Two places: a third key is denied, and the first value of a key stays.

use crate::table::OrderedTable;

#[test]
fn pairs(rt: HostRuntime) {
    let mut rows = [(0u16, 0u16); 3];
    let mut order = [0u16; 2];
    let mut table = OrderedTable::new(&mut rows, &mut order);
    for (key, value, taken) in [(5, 0, true), (3, 1, true), (5, 2, true), (7, 3, false)] {
        assert_eq!(rt; table.insert_first(key, value).is_ok(), taken);
    }
    assert_eq!(rt; table.get(&5), Some(0));
}
