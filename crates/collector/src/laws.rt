//! What holds of every stream of bytes: the contract of each function is a law about the number that it tells.
ghost use Rattle.std.specs.Prelude.{◌≡◌};
ghost use Rattle.collector.specs.Laws.{ComesOutWhole, TellsTheMessages, TellsWholeMessages, OpeningForgets, OpeningAnswers, RealTimeSkipped};

/// The longest message that comes out whole: one that nothing interrupts does, whatever came before it.
pub fn longest_message() -> usize
    ensures value { result ≡ 512 }
    ensures law { ComesOutWhole result }
{
    crate::LONGEST
}

/// The shortest message that is told: all that is told begins with F0h, ends with F7h and holds bytes below 80h between, and it is exactly
/// what stands in the stream.
pub fn shortest_message() -> usize
    ensures value { result ≡ 2 }
    ensures whole { TellsWholeMessages result }
    ensures exact { TellsTheMessages }
{
    2
}

/// The byte that opens a message: from there on, what is told does not depend on what came before.
pub fn opening_byte() -> u8
    ensures value { result ≡ 0xF0 }
    ensures messages { OpeningForgets result }
    ensures answers { OpeningAnswers result }
{
    0xF0
}

/// The first real-time byte: from this number on, bytes that come anywhere in a stream change no message.
pub fn first_real_time_byte() -> u8
    ensures value { result ≡ 0xF8 }
    ensures law { RealTimeSkipped result }
{
    0xF8
}
