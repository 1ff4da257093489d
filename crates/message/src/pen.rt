//! Writing part after part into what is left of a lent buffer.
ghost use Rattle.std.specs.Prelude.{◌≡◌};
ghost use Rattle.message.specs.Pens.{Puts, Room};
ghost use Rattle.message.specs.Writing.{room_for};

/// The most bytes that a message has.
pub const LONGEST: usize = 512;

/// A lent buffer, and the place where the next bytes go.
#[derive(Drop)]
pub struct Pen<'a> {
    pub out: &'a mut [u8],
    pub at: usize,
}

impl Pen<'_> {
    /// Whether a message of so many bytes goes into what is left.
    #[inline(always)]
    pub(crate) fn has_room(&self, bytes: usize) -> bool
        ensures { result ≡ room_for bytes self.now.out.now self.now.at }
    {
        let long = self.out.len();
        bytes <= LONGEST && bytes <= long && self.at <= long - bytes
    }

    /// Copies bytes to the place, which moves to where they end.
    #[inline(always)]
    pub(crate) fn put(&mut self, bytes: &[u8])
        requires { Room bytes.now self.old }
        ensures { Puts bytes.now self.old self.new }
    {
        let out = &mut *self.out;
        let end = self.at + bytes.len();
        out[self.at..end].copy_from_slice(bytes);
        self.at = end;
    }
}
