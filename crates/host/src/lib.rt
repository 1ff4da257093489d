//! Hosts: the instrument's side, which knows its profiles and consents to changes.
#![tactic(auto)]

ghost use Rattle.std.specs.Prelude.{◌≡◌};

pub mod finding;
pub mod fixed;
pub mod host;
mod rows;
pub mod table;

pub use finding::find_row;
pub use fixed::Fixed;
pub use host::Host;
pub use rows::{MOST_AT_ONE, MOST_ROWS, count_at};
pub use table::Table;

#[cfg(test)]
mod tests {
    use super::*;
    use message::{Pair, Refusal, Row};

    const PIANO: [u8; 5] = [0x7E, 1, 0, 0, 1];

    const ORGAN: [u8; 5] = [0x7E, 2, 0, 0, 1];

    fn row(address: u8, number: u8, on: bool) -> Row {
        Row::new(Pair::new(address, [number, 0, 0, 0, 0]), on)
    }

    #[test]
    fn switches(rt: HostRuntime) {
        let mut host = Table::empty();
        assert!(rt; !host.switch(Pair::new(0, PIANO), true), "unlisted");
        assert!(rt; host.plug(Pair::new(0, PIANO)));
        assert!(rt;
            host.may_go_on(Pair::new(0, PIANO)) && host.may_go_off(Pair::new(0, PIANO)),
            "listed"
        );
        assert!(rt;
            !host.may_go_on(Pair::new(1, PIANO)) && !host.may_go_off(Pair::new(0, ORGAN)),
            "not listed"
        );
        assert!(rt; !host.switch(Pair::new(0, PIANO), false), "off already");
        assert!(rt; host.switch(Pair::new(0, PIANO), true));
        assert!(rt; !host.switch(Pair::new(0, PIANO), true), "on already");
        assert!(rt; host.rows()[0].on);
        assert!(rt; host.switch(Pair::new(0, PIANO), false));
    }

    #[test]
    fn plugs_and_pulls(rt: HostRuntime) {
        let mut host = Table::empty();
        assert!(rt;
            host.plug(Pair::new(1, ORGAN))
                && host.plug(Pair::new(1, PIANO))
                && host.plug(Pair::new(0, ORGAN))
        );
        assert!(rt; !host.plug(Pair::new(1, PIANO)), "present");
        assert!(rt; !host.plug(Pair::new(0x10, PIANO)), "no address");
        assert!(rt;
            !host.plug(Pair::new(0, [0x80, 0, 0, 0, 0])),
            "no Profile ID"
        );
        assert_eq!(rt; host.rows()[0].address, 0);
        assert_eq!(rt; host.rows()[1].id, PIANO);
        assert!(rt; !host.rows()[1].on, "enters as off");
        assert!(rt; host.switch(Pair::new(1, PIANO), true));
        assert!(rt; !host.pull(Pair::new(1, PIANO)), "on");
        assert!(rt; host.pull(Pair::new(1, ORGAN)));
        assert!(rt; !host.pull(Pair::new(1, ORGAN)), "gone");
        assert_eq!(rt; host.rows().len(), 2);
    }

    #[test]
    fn limits_of_plugs(rt: HostRuntime) {
        let mut host = Table::empty();
        for number in 0..21u8 {
            assert!(rt; host.plug(Pair::new(0x7F, [number, 0, 0, 0, 0])));
        }
        assert!(rt; !host.plug(Pair::new(0x7F, PIANO)), "22 at one address");
        for number in 0..43u8 {
            assert!(rt; host.plug(Pair::new(number / 16, [number, 0, 0, 0, 0])));
        }
        assert_eq!(rt; host.rows().len(), 64);
        assert!(rt; !host.plug(Pair::new(5, PIANO)), "65 in all");
    }

    // As many rows at each address as may stand there, and one more than a listing has.
    fn many() -> [Row; 65] {
        let mut rows = [row(0, 0, false); 65];
        for (k, slot) in (0u8..).zip(rows.iter_mut()) {
            *slot = row(k / 21, k % 21, k % 2 == 0);
        }
        rows
    }

    #[test]
    fn limits_of_makings(rt: HostRuntime) {
        let mut rows = many();
        assert_eq!(rt;
            Table::from_rows(&rows).err(),
            Some(Refusal::NotRising),
            "65 in all"
        );
        assert_eq!(rt;
            Fixed::from_rows(&rows[0..64]).err(),
            None,
            "64 in all, 21 at one address"
        );
        rows[21] = row(0, 21, true);
        assert_eq!(rt;
            Fixed::from_rows(&rows[0..22]).err(),
            Some(Refusal::NotRising),
            "22 at one address"
        );
        assert_eq!(rt; Table::from_rows(&rows[0..21]).err(), None);
    }

    #[test]
    fn refused_makings(rt: HostRuntime) {
        let rows = [row(1, 2, true), row(1, 1, false), row(0x20, 0, true)];
        assert_eq!(rt;
            Table::from_rows(&rows).err(),
            Some(Refusal::FieldOutOfRange),
            "before the order"
        );
        assert_eq!(rt;
            Table::from_rows(&rows[0..2]).err(),
            Some(Refusal::NotRising),
            "falling"
        );
        assert_eq!(rt;
            Fixed::from_rows(&[rows[0], rows[0]]).err(),
            Some(Refusal::NotRising),
            "twice"
        );
        assert_eq!(rt;
            Fixed::from_rows(&[row(0, 0x80, false)]).err(),
            Some(Refusal::FieldOutOfRange)
        );
    }

    #[test]
    fn fixed_changes_nothing(rt: HostRuntime) {
        let rows = [row(0, 1, false), row(0, 2, true)];
        let mut host = Fixed::from_rows(&rows).expect(&rt, "two rows");
        assert!(rt; host.is_fixed() && !host.may_go_on(rows[0].pair()));
        assert!(rt; !host.switch(rows[0].pair(), true) && !host.switch(rows[1].pair(), false));
        assert!(rt; !host.plug(Pair::new(0, PIANO)) && !host.pull(rows[0].pair()));
        assert_eq!(rt; host.rows().len(), 2);
        assert!(rt; !host.rows()[0].on && host.rows()[1].on);
    }
}
