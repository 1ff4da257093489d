//! A desk with three profiles at Channel 1, each free to be switched; the first one's on puts the third off.
ghost use Rattle.std.specs.Prelude.{◌≡◌, true, not, ◌&&◌, ◌||◌};
ghost use Rattle.host.specs.Rows.{row};
ghost use Rattle.layers_cases.specs.Desks.{desk, desk_lawful, free, is, known, numbered};

use host::Host;
use message::{Pair, Row};

/// The states of the three, and the rows that show them.
// Both, as rows are lent and have to be somewhere, and rows alone would not say that they are of these three. No list of
// states, as the first one's on moves the third.
#[derive(Drop)]
pub struct Desk {
    first: bool,
    second: bool,
    third: bool,
    rows: [Row; 3],
    ghost shown: { rows ≡ desk first second third },
}

// The ID of the profile with that number.
fn numbered(number: u8) -> [u8; 5]
    ensures { result ≡ numbered number }
{
    [number, 0, 0, 0, 0]
}

// Whether it is the profile with that number.
fn is_number(number: u8, pair: Pair) -> bool
    ensures { result ≡ is number pair.address pair.id }
{
    pair == Pair::new(0, numbered(number))
}

// Whether it is one of the three.
fn is_known(pair: Pair) -> bool
    ensures { result ≡ known pair.address pair.id }
{
    is_number(1, pair) || is_number(2, pair) || is_number(3, pair)
}

// The row of the profile with that number.
fn row(number: u8, on: bool) -> Row
    ensures { result ≡ row 0 (numbered number) on }
{
    Row::new(Pair::new(0, numbered(number)), on)
}

impl Desk {
    /// A desk with its profiles on or off.
    pub fn with(first: bool, second: bool, third: bool) -> Desk
        ensures { (result.first ≡ first) × (result.second ≡ second) × (result.third ≡ third) }
    {
        Desk {
            first,
            second,
            third,
            rows: [row(1, first), row(2, second), row(3, third)],
        }
    }
}

impl Host for Desk {
    ghost listing = { λ d. desk d.first d.second d.third };

    ghost consents = { λ _. free };

    ghost fixed = { λ _. true };

    ghost lawful = { λ d. desk_lawful d.first d.second d.third };

    ghost keeps = { λ _ _. Unit {0} };

    ghost keeps_itself = { λ _. tt };

    ghost keeps_on = { λ _ _ _ _ _. tt };

    fn rows(&self) -> &[Row] {
        &self.rows
    }

    fn may_go_on(&self, pair: Pair) -> bool {
        is_known(pair)
    }

    fn may_go_off(&self, pair: Pair) -> bool {
        is_known(pair)
    }

    fn puts_off(&self, pair: Pair, other: [u8; 5]) -> bool {
        is_number(1, pair) && other == numbered(3)
    }

    fn is_fixed(&self) -> bool {
        true
    }

    fn switch(&mut self, pair: Pair, on: bool) -> bool {
        if is_number(1, pair) {
            let was = self.first;
            // An on that moves the first puts the third off.
            *self = Desk::with(on, self.second, self.third && (was || !on));
            was != on
        } else if is_number(2, pair) {
            let was = self.second;
            *self = Desk::with(self.first, on, self.third);
            was != on
        } else if is_number(3, pair) {
            let was = self.third;
            *self = Desk::with(self.first, self.second, on);
            was != on
        } else {
            false
        }
    }

    fn plug(&mut self, _pair: Pair) -> bool {
        false
    }

    fn pull(&mut self, _pair: Pair) -> bool {
        false
    }
}
