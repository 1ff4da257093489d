//! Cases of layers, over a desk with three profiles.
#![tactic(auto)]

ghost use Rattle.std.specs.Prelude.{◌≡◌};

pub mod desk;
pub mod law;

pub use desk::Desk;

#[cfg(test)]
mod tests {
    use super::*;
    use host::{Fixed, Host, Table};
    use layers::{Holding, Member, Members, Pair, Pairs, Sets};
    use message::{Refusal, Row};
    use std::process::Abort;

    const FIRST: [u8; 5] = [1, 0, 0, 0, 0];

    const SECOND: [u8; 5] = [2, 0, 0, 0, 0];

    const THIRD: [u8; 5] = [3, 0, 0, 0, 0];

    fn is_on<P: Host>(pile: &P, k: usize) -> bool {
        pile.rows().get(k).is_some_and(|row| row.on)
    }

    // The first and the second are in one set, and the first is on and held: whether the second goes on, and the first off.
    fn second_goes_on<P: Host>(rt: &impl Abort, pile: &mut P, goes: bool) {
        assert_eq!(rt; pile.may_go_on(Pair::new(0, SECOND)), goes);
        assert_eq!(rt; pile.puts_off(Pair::new(0, SECOND), FIRST), goes);
        assert_eq!(rt; pile.switch(Pair::new(0, SECOND), true), goes);
        assert_eq!(rt; is_on(pile, 0), !goes);
        assert_eq!(rt; is_on(pile, 1), goes);
        assert!(rt; !pile.may_go_on(Pair::new(0, FIRST)), "held");
        assert!(rt; !pile.may_go_off(Pair::new(0, FIRST)), "held");
        assert!(rt; !pile.switch(Pair::new(0, FIRST), goes), "held");
        assert!(rt; !pile.may_go_on(Pair::new(1, SECOND)), "not listed");
        assert!(rt;
            !pile.plug(Pair::new(1, SECOND)) && !pile.pull(Pair::new(0, THIRD)),
            "fixed"
        );
    }

    #[test]
    fn a_held_rival(rt: HostRuntime) {
        let pairs = Pairs::from_slice(&[Pair::new(0, FIRST)]).expect(&rt, "pairs");
        let members = Members::from_slice(&[
            Member { id: FIRST, set: 8 },
            Member { id: SECOND, set: 8 },
        ]).expect(&rt, "members");
        let mut refusing = Sets::over(
            Holding::over(Desk::with(true, false, false), pairs),
            members,
        );
        second_goes_on(&rt, &mut refusing, false);
        let mut allowing = Holding::over(
            Sets::over(Desk::with(true, false, false), members),
            pairs,
        );
        second_goes_on(&rt, &mut allowing, true);
    }

    fn rows() -> [Row; 3] {
        [
            Row::new(Pair::new(0, FIRST), true),
            Row::new(Pair::new(0, SECOND), false),
            Row::new(Pair::new(0, THIRD), false),
        ]
    }

    // The first and the second are in one set, and the third is held: what goes where rows can change, and where nothing does.
    fn play<P: Host>(rt: &impl Abort, pile: &mut P, changes: bool) {
        assert_eq!(rt; pile.switch(Pair::new(0, SECOND), true), changes);
        assert_eq!(rt; is_on(pile, 0), !changes, "the rival");
        assert_eq!(rt; is_on(pile, 1), changes);
        assert!(rt; !pile.switch(Pair::new(0, THIRD), true), "held");
        assert_eq!(rt; pile.is_fixed(), !changes);
        assert_eq!(rt; pile.plug(Pair::new(1, FIRST)), changes);
        assert_eq!(rt; pile.pull(Pair::new(0, FIRST)), changes);
        assert_eq!(rt; pile.rows().len(), 3);
    }

    #[test]
    fn piles_over_the_two_hosts(rt: HostRuntime) {
        let held = [Pair::new(0, THIRD)];
        let set = [Member { id: FIRST, set: 1 }, Member { id: SECOND, set: 1 }];
        let pairs = Pairs::from_slice(&held).expect(&rt, "pairs");
        let members = Members::from_slice(&set).expect(&rt, "members");
        let table = Table::from_rows(&rows()).expect(&rt, "table");
        play(
            &rt,
            &mut Sets::over(Holding::over(table, pairs), members),
            true,
        );
        let fixed = Fixed::from_rows(&rows()).expect(&rt, "fixed");
        play(
            &rt,
            &mut Holding::over(Sets::over(fixed, members), pairs),
            false,
        );
    }

    #[test]
    fn two_on_at_the_start(rt: HostRuntime) {
        let members = Members::from_slice(&[
            Member { id: FIRST, set: 1 },
            Member { id: SECOND, set: 1 },
            Member { id: THIRD, set: 1 },
        ])
        .expect(&rt, "members");
        let mut sets = Sets::over(Desk::with(true, true, false), members);
        assert!(rt; !sets.switch(Pair::new(0, SECOND), true), "on already");
        assert!(rt; !sets.switch(Pair::new(0, THIRD), false), "off already");
        assert!(rt; is_on(&sets, 0) && is_on(&sets, 1), "as they were");
        assert!(rt; sets.switch(Pair::new(0, THIRD), true));
        assert!(rt; !is_on(&sets, 0) && !is_on(&sets, 1) && is_on(&sets, 2));
    }

    #[test]
    fn rows_named_below(rt: HostRuntime) {
        let members = Members::from_slice(&[
            Member { id: FIRST, set: 1 },
            Member { id: SECOND, set: 1 },
        ]).expect(&rt, "members");
        let mut sets = Sets::over(Desk::with(false, true, true), members);
        assert!(rt; sets.puts_off(Pair::new(0, FIRST), SECOND), "a rival");
        assert!(rt; sets.puts_off(Pair::new(0, FIRST), THIRD), "named below");
        assert!(rt; !sets.puts_off(Pair::new(0, SECOND), THIRD), "in no set");
        assert!(rt; sets.switch(Pair::new(0, FIRST), true));
        assert!(rt; is_on(&sets, 0) && !is_on(&sets, 1) && !is_on(&sets, 2));
    }

    #[test]
    fn pairs_refused(rt: HostRuntime) {
        let falling = [Pair::new(1, FIRST), Pair::new(0, SECOND)];
        assert_eq!(rt; Pairs::from_slice(&falling).err(), Some(Refusal::NotRising));
        assert_eq!(rt; Pairs::from_slice(&falling[0..0]).err(), None, "none");
        let mut bad = falling;
        bad[1].address = 0x10;
        assert_eq!(rt;
            Pairs::from_slice(&bad).err(),
            Some(Refusal::FieldOutOfRange),
            "range before order"
        );
        bad[1] = Pair::new(0x7F, [1, 0, 0, 0, 0x80]);
        assert_eq!(rt;
            Pairs::from_slice(&bad).err(),
            Some(Refusal::FieldOutOfRange),
            "an ID byte"
        );
    }

    // Rising members, one too many.
    fn seventeen() -> [Member; 17] {
        let mut list = [Member { id: [0; 5], set: 8 }; 17];
        for (k, member) in (0u8..).zip(list.iter_mut()) {
            member.id[4] = k;
        }
        list
    }

    #[test]
    fn members_refused(rt: HostRuntime) {
        let mut list = seventeen();
        assert_eq!(rt; Members::from_slice(&list[0..16]).err(), None, "sixteen");
        assert_eq!(rt;
            Members::from_slice(&list).err(),
            Some(Refusal::NotRising),
            "seventeen"
        );
        list[16].set = 9;
        assert_eq!(rt;
            Members::from_slice(&list).err(),
            Some(Refusal::FieldOutOfRange),
            "set 9"
        );
        list[1].set = 0;
        assert_eq!(rt;
            Members::from_slice(&list[0..2]).err(),
            Some(Refusal::FieldOutOfRange),
            "set 0"
        );
        list[1] = list[0];
        assert_eq!(rt;
            Members::from_slice(&list[0..2]).err(),
            Some(Refusal::NotRising),
            "an ID twice"
        );
    }
}
