// That there is memory for slots: no contract can say it.
use super::*;

#[test]
fn lends_slots(rt: HostRuntime) {
    for (cards, size) in [(0, 16), (5, 16384), (8, 1048576), (9, 1048576)] {
        let keys = lend_slots(rt.alloc(), cards, 0u64);
        assert_eq!(rt; keys.len(), size, "keys for {cards} cards");
        let worths = lend_slots(rt.alloc(), cards, 0u8);
        assert_eq!(rt; worths.len(), size, "worths for {cards} cards");
    }
}
