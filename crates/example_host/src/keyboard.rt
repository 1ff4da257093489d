//! A keyboard with a piano and an organ on Channel 1, of which one plays at a time.
ghost use Rattle.std.specs.Prelude.{◌≡◌, true};
ghost use Rattle.example_host.specs.Keyboards.{sound_at, shown, one_at_a_time};
ghost use Rattle.example_host.specs.Lawfulness.{keyboard_lawful};

use host::Host;
use message::{Pair, Row};

/// A sound of the keyboard.
#[derive(Clone, Copy, PartialEq, Eq)]
pub enum Sound {
    Piano,
    Organ,
}

/// The Profile ID of the piano.
pub const PIANO: [u8; 5] = [0x7D, 0, 0, 1, 0];

/// The Profile ID of the organ.
pub const ORGAN: [u8; 5] = [0x7D, 0, 0, 2, 0];

/// The keyboard, with its rows at hand for whoever asks.
// Both what plays and the rows that show it: rows are lent, so they have to be somewhere, and a ghost field says that they agree.
#[derive(Drop)]
pub struct Keyboard {
    playing: Option<Sound>,
    rows: [Row; 2],
    ghost agree: { rows ≡ shown playing },
}

fn sound_at(pair: Pair) -> Option<Sound>
    ensures { result ≡ sound_at pair.address pair.id }
{
    match pair {
        Pair {
            address: 0,
            id: PIANO,
        } => Some(Sound::Piano),
        Pair {
            address: 0,
            id: ORGAN,
        } => Some(Sound::Organ),
        _ => None,
    }
}

impl Keyboard {
    /// A keyboard on which that sound plays, or none.
    pub fn new(playing: Option<Sound>) -> Keyboard
        ensures { result.playing ≡ playing }
    {
        let piano = Row {
            address: 0,
            id: PIANO,
            on: playing == Some(Sound::Piano),
        };
        let organ = Row {
            address: 0,
            id: ORGAN,
            on: playing == Some(Sound::Organ),
        };
        Keyboard {
            playing,
            rows: [piano, organ],
        }
    }
}

impl Host for Keyboard {
    ghost listing = { λ h. shown h.playing };

    ghost consents = { λ _. one_at_a_time };

    ghost fixed = { λ _. true };

    ghost lawful = { λ h. keyboard_lawful h.playing };

    ghost keeps = { λ _ _. Unit {0} };

    ghost keeps_itself = { λ _. tt };

    ghost keeps_on = { λ _ _ _ _ _. tt };

    fn rows(&self) -> &[Row] {
        &self.rows
    }

    fn may_go_on(&self, pair: Pair) -> bool {
        sound_at(pair).is_some()
    }

    fn may_go_off(&self, pair: Pair) -> bool {
        sound_at(pair).is_some()
    }

    fn puts_off(&self, pair: Pair, other: [u8; 5]) -> bool {
        sound_at(pair).is_some()
            && sound_at(Pair { id: other, ..pair }).is_some()
            && other != pair.id
    }

    fn is_fixed(&self) -> bool {
        true
    }

    fn switch(&mut self, pair: Pair, on: bool) -> bool {
        match sound_at(pair) {
            Some(sound) if (self.playing == Some(sound)) != on => {
                *self = Keyboard::new(on.then_some(sound));
                true
            }
            _ => false,
        }
    }

    fn plug(&mut self, _pair: Pair) -> bool {
        false
    }

    fn pull(&mut self, _pair: Pair) -> bool {
        false
    }
}
