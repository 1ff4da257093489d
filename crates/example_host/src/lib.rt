//! A maker's own host, as an example of what one has to show.
#![tactic(auto)]

pub mod keyboard;

pub use keyboard::{Keyboard, Sound};

#[cfg(test)]
mod tests {
    use super::*;
    use crate::keyboard::{ORGAN, PIANO};
    use host::Host;
    use message::Pair;
    use std::process::Abort;

    // Knows no more of the keyboard than that it is a host.
    fn play<P: Host>(rt: &impl Abort, host: &mut P) {
        assert!(rt; host.switch(Pair::new(0, ORGAN), true));
        assert!(rt; !host.switch(Pair::new(0, ORGAN), true), "on already");
        assert!(rt;
            host.puts_off(Pair::new(0, PIANO), ORGAN) && !host.puts_off(Pair::new(0, PIANO), PIANO)
        );
        assert!(rt; host.switch(Pair::new(0, PIANO), true));
        assert!(rt;
            !host.switch(Pair::new(0, ORGAN), false),
            "put off by the piano"
        );
        assert!(rt; !host.switch(Pair::new(1, PIANO), true), "another channel");
        assert!(rt;
            !host.pull(Pair::new(0, ORGAN)) && !host.plug(Pair::new(1, ORGAN)),
            "fixed"
        );
        assert_eq!(rt; host.rows().len(), 2);
    }

    #[test]
    fn one_plays_at_a_time(rt: HostRuntime) {
        let mut keyboard = Keyboard::new(None);
        play(&rt, &mut keyboard);
        assert!(rt; keyboard.rows()[0].on && !keyboard.rows()[1].on);
    }
}
