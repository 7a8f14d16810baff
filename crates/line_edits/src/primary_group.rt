// The primary group of users, by its GID and the text by which lines with it are found (passwd(5)).
ghost use Rattle.std.specs.Prelude.{◌≡◌, ℕ, decimal, IfOk};

use acct_text::{Bytes, push_decimal};
use std::alloc::{AllocError, Global};
use std::marker::Model;

/// The primary group of users. Contracts see its GID.
#[derive(Drop)]
pub struct PrimaryGroup {
    gid: u32,
    digits: Bytes,
}

impl Model for PrimaryGroup {
    ghost use Rattle.std.specs.Prelude.{◌≡◌, ℕ, decimal};

    ghost Value = { ℕ };

    ghost view = { λ group. group.gid };

    ghost invariant = { λ group. group.digits ≡ decimal group.gid };
}

impl PrimaryGroup {
    /// The group of the GID.
    pub fn of(alloc: Global, gid: u32) -> Result<Self, AllocError>
        ensures { IfOk result (λ group. group ≡ gid) }
    {
        let mut digits = Bytes::new(alloc);
        push_decimal(&mut digits, u64::from(gid))?;
        Ok(PrimaryGroup { gid, digits })
    }

    /// The GID.
    pub fn gid(&self) -> u32
        ensures { result ≡ self.now }
    {
        self.gid
    }

    /// The decimal text of the GID, which the line of each user of the group has.
    pub(crate) fn digits(&self) -> &[u8]
        ensures { result.now ≡ decimal self.now }
    {
        self.digits.as_slice()
    }
}
