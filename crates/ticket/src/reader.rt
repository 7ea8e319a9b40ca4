ghost use Rattle.std.specs.Prelude.{◌≡◌, length};
ghost use Rattle.ticket.specs.Pieces.{LiteralRead, KindRead, NumberRead, SeedRead, EndRead, NextRead, Begins, decimal_value, leading_value};
ghost use Rattle.ticket.specs.Texts.{kind_line};

use crate::job::Kind;
use strip::hex::digit;
use tree::seed::SEED_LENGTH;

/// Reads a text from the front, piece by piece. A word that is refused is left unread; of a number or a seed
/// that is refused, the front may have been read.
#[derive(Drop)]
pub(crate) struct Reader<'a> {
    left: &'a [u8],
}

/// A text goes wrong: so many bytes are left from the first one on that is wrong or missing.
#[derive(Clone, Copy)]
pub(crate) struct Wrong {
    pub(crate) left: usize,
}

impl<'a> Reader<'a> {
    pub(crate) fn new(text: &'a [u8]) -> Reader<'a>
        ensures { result.left.now ≡ text.entry.now }
    {
        Reader { left: text }
    }

    /// Reads a word.
    pub(crate) fn literal(&mut self, word: &[u8]) -> Result<(), Wrong>
        ensures { LiteralRead self.old.left.now word.now self.new.left.now result }
    {
        if let Some(rest) = self.left.strip_prefix(word) {
            self.left = rest;
            return Ok(());
        }
        let agreed = word
            .iter()
            .zip(self.left)
            .take_while(|(want, byte)| want == byte)
            .count();
        Err(Wrong {
            left: self.left.len() - agreed,
        })
    }

    /// Reads the name of a maker and the line's end.
    pub(crate) fn kind(&mut self) -> Result<Kind, Wrong>
        ensures { KindRead self.old.left.now self.new.left.now result }
    {
        let [first, ..] = self.left else {
            return Err(self.here());
        };
        let Some(kind) = named(*first) else {
            return Err(self.here());
        };
        self.literal(kind_line(kind))?;
        Ok(kind)
    }

    /// Reads a number of one or two digits, the first not 0, and the line's end.
    pub(crate) fn number(&mut self) -> Result<u32, Wrong>
        ensures { NumberRead self.old.left.now self.new.left.now result }
    {
        let first = self.next(leading)?;
        if self.literal(b"\n").is_ok() {
            return Ok(first);
        }
        let second = self.next(decimal)?;
        self.literal(b"\n")?;
        Ok(10 * first + second)
    }

    /// Reads a seed in hex.
    pub(crate) fn seed(&mut self, seed: &mut [u8; SEED_LENGTH]) -> Result<(), Wrong>
        ensures { SeedRead self.old.left.now self.new.left.now seed.new result }
    {
        for byte in seed.iter_mut() {
            let high = self.next(digit)?;
            let low = self.next(digit)?;
            *byte = 16 * high + low;
        }
        Ok(())
    }

    /// Nothing is left.
    pub(crate) fn end(&self) -> Result<(), Wrong>
        ensures { EndRead self.now.left.now result }
    {
        if self.left.is_empty() {
            Ok(())
        } else {
            Err(self.here())
        }
    }

    /// Reads the next byte, if it means something here.
    fn next<T, F: FnOnce(u8) -> Option<T>>(&mut self, meaning: F) -> Result<T, Wrong>
        requires { F.IsAlwaysCallable meaning }
        ensures { NextRead (F.post meaning) self.old.left.now self.new.left.now result }
    {
        let [byte, rest @ ..] = self.left else {
            return Err(self.here());
        };
        let Some(value) = meaning(*byte) else {
            return Err(self.here());
        };
        self.left = rest;
        Ok(value)
    }

    /// The text goes wrong with the next byte.
    fn here(&self) -> Wrong
        ensures { result.left ≡ length self.now.left.now }
    {
        Wrong {
            left: self.left.len(),
        }
    }
}

/// The maker whose name begins with a byte. A function, since a `match` on bytes gives a proof no fact to cite.
fn named(first: u8) -> Option<Kind>
    ensures { Begins first result }
{
    match first {
        b's' => Some(Kind::Sealed),
        b'd' => Some(Kind::Dummy),
        _ => None,
    }
}

/// The name of a maker and the line's end, as bytes: one word, so that a kind that is refused is left unread. Put
/// together from what `Kind` prints, it would be no plainer.
fn kind_line(kind: Kind) -> &'static [u8]
    ensures { result.now ≡ kind_line kind }
{
    match kind {
        Kind::Sealed => b"sealed\n",
        Kind::Dummy => b"dummy\n",
    }
}

/// The value of a decimal digit.
fn decimal(byte: u8) -> Option<u32>
    ensures { result ≡ decimal_value byte }
{
    char::from(byte).to_digit(10)
}

/// The value of a digit with which a number begins.
fn leading(byte: u8) -> Option<u32>
    ensures { result ≡ leading_value byte }
{
    if byte == b'0' { None } else { decimal(byte) }
}
