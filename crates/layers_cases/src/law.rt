//! The law of sets where a program uses it.
ghost use Rattle.layers.specs.Calls.{SetsSwitched, StaysOne};

use host::Host;
use layers::{Pair, Sets};

/// Presses a row on or off. A set with at most one row on at an address stays so, whatever host stands below.
pub fn press<B: Host>(sets: &mut Sets<B>, pair: Pair, on: bool) -> bool
    ensures does { SetsSwitched B.listing B.consents B.fixed sets.old pair.address pair.id on sets.new result }
    ensures one { StaysOne B.listing sets.old sets.new }
{
    sets.switch(pair, on)
}
