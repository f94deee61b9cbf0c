// Text laid into a lent room from a position on, as far as the room reaches. The position goes on past what does not fit, so
// that text laid into no room is counted.
// `write!` does not do: `fmt::Write` says what an `Ok` has written and never that it comes, but every answer is to be told.
ghost use Rattle.std.specs.Prelude.{◌≡◌, [], ◌∷◌, length};
ghost use Rattle.report.specs.Laying.{Ahead, filled, longest, shown, widest};
ghost use Rattle.report.specs.Writing.{Wrote};

use itoa::{Buffer, Integer};

#[derive(Drop)]
pub(crate) struct Text<'a> {
    pub room: &'a mut [u8],
    pub at: usize,
}

impl Text<'_> {
    pub fn put(&mut self, byte: u8)
        requires { Ahead self.old.at 1 }
        ensures { Wrote (byte ∷ []) 1 self.old self.new }
    {
        if self.at < self.room.len() {
            self.room[self.at] = byte;
        }
        self.at += 1;
    }

    // As it is.
    pub fn plain(&mut self, text: &[u8])
        requires { Ahead self.old.at (length text.now) }
        ensures { Wrote text.now (length text.now) self.old self.new }
    {
        for byte in text {
            self.put(*byte);
        }
    }

    // In decimal, with its sign where it is below zero.
    pub fn number<I: Integer>(&mut self, n: I)
        requires { Ahead self.old.at (length (I.text n)) }
        ensures { Wrote (I.text n) (length (I.text n)) self.old self.new }
    {
        let mut digits = Buffer::new();
        self.plain(digits.format(n).as_bytes());
    }

    // A byte of a form: the number that it stands for, or itself.
    fn part(&mut self, byte: u8, numbers: &[u64])
        requires { Ahead self.old.at (widest (length numbers.now) byte) }
        ensures { Wrote (shown numbers.now byte) (widest (length numbers.now) byte) self.old self.new }
    {
        // A digit's value; that of any other byte of a text is over 9.
        let value = byte.wrapping_sub(b'0') as usize;
        match numbers.get(value) {
            Some(n) => self.number(*n),
            None => self.put(byte),
        }
    }

    // A text in which each digit stands for the number at its place.
    pub fn form(&mut self, form: &[u8], numbers: &[u64])
        requires { Ahead self.old.at (longest (length numbers.now) form.now) }
        ensures { Wrote (filled numbers.now form.now) (longest (length numbers.now) form.now) self.old self.new }
    {
        for byte in form {
            self.part(*byte, numbers);
        }
    }
}
