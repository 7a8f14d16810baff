// A text that is made of pieces, one behind the other, as the texts of refusals and problems are.
ghost use Rattle.std.specs.Prelude.{◌≡◌, ◌++◌, IfOk, OnOk};
ghost use Rattle.acct_text.specs.Texts.{piece_bytes, text_of};

use crate::{Bytes, push_decimal};
use std::alloc::{AllocError, Global};

/// A piece of a text.
#[derive(Clone, Copy)]
pub enum Piece<'a> {
    /// Bytes as they are.
    Text(&'a [u8]),
    /// A number in decimal, without leading zeros.
    Number(u64),
}

/// The text of two pieces.
pub fn pair(alloc: Global, first: &[u8], second: &[u8]) -> Result<Bytes, AllocError>
    ensures { IfOk result (λ text. text ≡ first.now ++ second.now) }
{
    Bytes::made_of(alloc, &[Piece::Text(first), Piece::Text(second)])
}

/// The text of three pieces.
pub fn triple(alloc: Global, first: &[u8], second: &[u8], third: &[u8]) -> Result<Bytes, AllocError>
    ensures { IfOk result (λ text. text ≡ first.now ++ second.now ++ third.now) }
{
    let pieces = [Piece::Text(first), Piece::Text(second), Piece::Text(third)];
    Bytes::made_of(alloc, &pieces)
}

impl Bytes {
    /// A list of the bytes of the pieces, one behind the other.
    pub fn made_of(alloc: Global, pieces: &[Piece<'_>]) -> Result<Self, AllocError>
        ensures { IfOk result (λ bytes. bytes ≡ text_of pieces.now) }
    {
        let mut bytes = Bytes::new(alloc);
        bytes.push_pieces(pieces)?;
        Ok(bytes)
    }

    /// Adds pieces at the end, one behind the other. At `AllocError` some of them may have been added.
    pub fn push_pieces(&mut self, pieces: &[Piece<'_>]) -> Result<(), AllocError>
        ensures { OnOk result (self.new ≡ self.old ++ text_of pieces.now) }
    {
        for piece in pieces {
            self.push_piece(*piece)?;
        }
        Ok(())
    }

    // Adds a piece at the end.
    fn push_piece(&mut self, piece: Piece<'_>) -> Result<(), AllocError>
        ensures { OnOk result (self.new ≡ self.old ++ piece_bytes piece.entry) }
    {
        match piece {
            Piece::Text(text) => self.push(text),
            Piece::Number(number) => push_decimal(self, number),
        }
    }
}
