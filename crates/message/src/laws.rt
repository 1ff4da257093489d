//! What reading and writing have to do with each other, each as the contract of a function.
ghost use Rattle.message.specs.Laws.{ReadsAsLaidOut, ReadsBack};

/// What is written reads back: the same fields, and the same contents.
pub fn written_reads_back() -> u8
    ensures { ReadsBack }
{
    0
}

/// Framed bytes are the layout of what they read as, and each part lies where the layout says.
pub fn read_is_laid_out() -> u8
    ensures { ReadsAsLaidOut }
{
    0
}
