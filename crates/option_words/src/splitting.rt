// The words of a line of a batch, split from left to right.
ghost use Rattle.std.specs.Prelude.{◌≡◌, ◌⊎◌, Ok, Err, IfOk, IfErr, OnOk};
ghost use Rattle.account_model.specs.LineWords.{ends_in_return, kept, nothing_split, parts_words, split_line, with_unquoted, with_byte, with_byte_at, word_ended, words_split};

use account_model::{LinePlace, WordFault};
use acct_text::{Bytes, Word};
use std::alloc::{AllocError, Global};
use std::marker::Model;

// What makes the byte behind it one of a word.
const BACKSLASH: u8 = b'\\';

/// What is read of a line so far.
#[derive(Drop)]
struct Splitting {
    alloc: Global,
    words: Vec<Word>,
    /// The bytes of the word that has begun, and none between words.
    begun: Bytes,
    place: LinePlace,
}

impl Model for Splitting {
    ghost use Rattle.account_model.specs.LineWords.{Splitting as Split};

    ghost Value = { Split };

    ghost view = { λ splitting. record {
      words = splitting.words.items;
      begun = splitting.begun;
      place = splitting.place;
    } };
}

/// The words of a line of a batch, as sh(1) reads simple words without expansions; none where the line
/// is skipped, as it has nothing but blanks and a comment. The time is linear in its bytes.
///
/// The fault is `LineEnd` where the line ends in a carriage return, else `Unclosed` with the column of
/// a quote that isn't closed, and `Memory` for want of memory.
pub fn split_line(alloc: Global, line: &[u8]) -> Result<Vec<Word>, WordFault>
    ensures words { IfOk result (λ words. split_line line.now ≡ Ok words.items) }
    ensures fault { IfErr result (λ fault.
        (fault ≡ WordFault.Memory) ⊎ (split_line line.now ≡ Err fault)) }
{
    if ends_in_return(line) {
        return Err(WordFault::LineEnd);
    }
    let mut splitting = Splitting::new(alloc);
    'bytes: for (place, byte) in line.iter().enumerate() {
        splitting.take(place + 1, *byte)?;
    }
    splitting.into_words()
}

/// Whether the line ends in a carriage return, as lines of other systems do.
pub fn ends_in_return(line: &[u8]) -> bool
    ensures { result ≡ ends_in_return line.now }
{
    match line.split_last() {
        Some((last, _)) => *last == b'\r',
        None => false,
    }
}

// Whether the byte parts words, outside quotes.
fn parts_words(byte: u8) -> bool
    ensures { result ≡ parts_words byte }
{
    matches!(byte, b' ' | b'\t')
}

impl Splitting {
    // A reading of no bytes.
    fn new(alloc: Global) -> Self
        ensures { result ≡ nothing_split }
    {
        Splitting {
            alloc,
            words: Vec::new(alloc),
            begun: Bytes::new(alloc),
            place: LinePlace::Between,
        }
    }

    // Takes the byte of a column, counted from 1.
    fn take(&mut self, column: usize, byte: u8) -> Result<(), AllocError>
        ensures { OnOk result (self.new ≡ with_byte column byte self.old) }
    {
        match self.place {
            LinePlace::Between => self.take_between(column, byte),
            LinePlace::Within => self.take_unquoted(column, byte),
            LinePlace::Escaped => self.keep(&[byte], LinePlace::Within),
            LinePlace::Single(opened) => self.take_in_single(opened, byte),
            LinePlace::Double(opened) => self.take_in_double(opened, byte),
            LinePlace::DoubleEscaped(opened) => self.take_escaped(opened, byte),
            LinePlace::Comment => Ok(()),
        }
    }

    // Takes a byte between words.
    fn take_between(&mut self, column: usize, byte: u8) -> Result<(), AllocError>
        ensures { OnOk result (self.new ≡ with_byte_at LinePlace.Between column byte self.old) }
    {
        if parts_words(byte) {
            return Ok(());
        }
        if byte == b'#' {
            self.place = LinePlace::Comment;
            return Ok(());
        }
        self.take_unquoted(column, byte)
    }

    // Takes a byte of a word outside quotes.
    fn take_unquoted(&mut self, column: usize, byte: u8) -> Result<(), AllocError>
        ensures { OnOk result (self.new ≡ with_unquoted column byte self.old) }
    {
        if parts_words(byte) {
            return self.end_word();
        }
        match byte {
            BACKSLASH => self.place = LinePlace::Escaped,
            b'\'' => self.place = LinePlace::Single(column),
            b'"' => self.place = LinePlace::Double(column),
            _ => return self.keep(&[byte], LinePlace::Within),
        }
        Ok(())
    }

    // Takes a byte behind a `'`.
    fn take_in_single(&mut self, opened: usize, byte: u8) -> Result<(), AllocError>
        ensures { OnOk result
            (self.new ≡ with_byte_at (LinePlace.Single opened) 0 byte self.old) }
    {
        if byte == b'\'' {
            self.place = LinePlace::Within;
            return Ok(());
        }
        self.keep(&[byte], LinePlace::Single(opened))
    }

    // Takes a byte behind a `"`.
    fn take_in_double(&mut self, opened: usize, byte: u8) -> Result<(), AllocError>
        ensures { OnOk result
            (self.new ≡ with_byte_at (LinePlace.Double opened) 0 byte self.old) }
    {
        match byte {
            b'"' => self.place = LinePlace::Within,
            BACKSLASH => self.place = LinePlace::DoubleEscaped(opened),
            _ => return self.keep(&[byte], LinePlace::Double(opened)),
        }
        Ok(())
    }

    // Takes a byte behind a `\` between two `"`.
    fn take_escaped(&mut self, opened: usize, byte: u8) -> Result<(), AllocError>
        ensures { OnOk result
            (self.new ≡ with_byte_at (LinePlace.DoubleEscaped opened) 0 byte self.old) }
    {
        let place = LinePlace::Double(opened);
        if matches!(byte, b'"' | BACKSLASH) {
            return self.keep(&[byte], place);
        }
        self.keep(&[BACKSLASH, byte], place)
    }

    // Keeps bytes of the word that has begun, behind which the next one stands here.
    fn keep(&mut self, bytes: &[u8], place: LinePlace) -> Result<(), AllocError>
        ensures { OnOk result (self.new ≡ kept bytes.now place self.old) }
    {
        self.place = place;
        self.begun.push(bytes)
    }

    // Ends the word that has begun.
    fn end_word(&mut self) -> Result<(), AllocError>
        ensures { OnOk result (self.new ≡ word_ended self.old) }
    {
        let word = Word::of(self.alloc, self.begun.as_slice())?;
        self.words.push(word)?;
        self.begun = Bytes::new(self.alloc);
        self.place = LinePlace::Between;
        Ok(())
    }

    // The words of all bytes that were taken.
    fn into_words(mut self) -> Result<Vec<Word>, WordFault>
        ensures words { IfOk result (λ words. words_split self ≡ Ok words.items) }
        ensures fault { IfErr result (λ fault.
            (fault ≡ WordFault.Memory) ⊎ (words_split self ≡ Err fault)) }
    {
        match self.place {
            LinePlace::Between | LinePlace::Comment => (),
            LinePlace::Within => self.end_word()?,
            LinePlace::Escaped => {
                self.begun.push(&[BACKSLASH])?;
                self.end_word()?;
            }
            LinePlace::Single(opened)
            | LinePlace::Double(opened)
            | LinePlace::DoubleEscaped(opened) => return Err(WordFault::Unclosed(opened)),
        }
        Ok(self.words)
    }
}
