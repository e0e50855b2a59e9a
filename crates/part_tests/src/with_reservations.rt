//! Tests of a reservation.

use crate::of_ddm_types::ItemId;
use crate::of_reservations::Reservation;

#[test]
fn cleared_where_covered(rt: HostRuntime) {
    let rows = [(7, 7, None), (7, 8, Some(ItemId(7))), (0, 0, None)];
    for (held, cleared, left) in rows {
        let mut reservation = Reservation::new();
        assert!(rt; !reservation.covers(ItemId(held)));
        reservation.set(ItemId(held));
        assert!(rt; reservation.covers(ItemId(held)));
        reservation.clear_on(ItemId(cleared));
        assert_eq!(rt; reservation.item(), left, "{cleared} after {held}");
        reservation.set(ItemId(9));
        assert_eq!(rt; reservation.item(), Some(ItemId(9)));
        reservation.clear();
        assert_eq!(rt; reservation.item(), None);
    }
}
