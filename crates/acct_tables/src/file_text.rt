// The bytes of a file, lent or owned.
ghost use Rattle.std.specs.Prelude.{◌≡◌, IfOk};

use acct_text::Bytes;
use std::alloc::{AllocError, Global};
use std::marker::Model;

/// The bytes of a file, which are lent or owned. Contracts see the list of them.
#[derive(Drop)]
pub struct FileText<'a> {
    kept: KeptText<'a>,
}

/// Where they are kept.
#[derive(Drop)]
pub(crate) enum KeptText<'a> {
    /// Elsewhere.
    Lent(&'a [u8]),
    /// Here.
    Own(Bytes),
}

impl<'a> Model for FileText<'a> {
    ghost use Rattle.std.specs.Prelude.{ℕ, List};
    ghost use Rattle.acct_tables.specs.Texts.{bytes_kept};

    ghost Value = { List ℕ };

    ghost view = { λ text. bytes_kept text.kept };
}

impl<'a> FileText<'a> {
    /// Bytes that are kept elsewhere.
    pub fn lent(bytes: &'a [u8]) -> Self
        ensures { result ≡ bytes.now }
    {
        FileText {
            kept: KeptText::Lent(bytes),
        }
    }

    /// Bytes that are given away.
    pub fn own(bytes: Bytes) -> Self
        ensures { result ≡ bytes }
    {
        FileText {
            kept: KeptText::Own(bytes),
        }
    }

    /// The bytes as a slice.
    pub fn as_slice(&self) -> &[u8]
        ensures { result.now ≡ self.now }
    {
        match &self.kept {
            KeptText::Lent(bytes) => bytes,
            KeptText::Own(bytes) => bytes.as_slice(),
        }
    }

    /// The bytes, given away; those that are lent are copied.
    pub fn into_bytes(self, alloc: Global) -> Result<Bytes, AllocError>
        ensures { IfOk result (λ bytes. bytes ≡ self.entry) }
    {
        match self.kept {
            KeptText::Lent(bytes) => Bytes::of(alloc, bytes),
            KeptText::Own(bytes) => Ok(bytes),
        }
    }
}
