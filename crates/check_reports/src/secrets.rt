// What opens the accounts of a table, by their names: password fields, and hashes (passwd(5), shadow(5),
// group(5), gshadow(5)).
ghost use Rattle.std.specs.Prelude.{◌≡◌, ◌++◌, ◌∷◌, [], ◌+◌, ◌^◌, ◌<◌, List, ℕ, option_map, IfOk, OnOk};
ghost use Rattle.std.specs.Option.{option_copied};
ghost use Rattle.acct_tables.specs.NameIndex.{TellsAtMost, told};
ghost use Rattle.check_reports.specs.Secrets.{HasSecrets, IsSecret, found_text};

use crate::sorting::ByPlace;
use account_model::{GroupRecord, GshadowRecord, PasswdRecord, ShadowRecord};
use acct_lines::{GroupLine, GshadowLine, PasswdLine, ShadowLine, TableRecord};
use std::alloc::{AllocError, Global};

/// A line of a record with a text that opens its account, read where it stands: the password field,
/// or the hash.
pub(crate) trait AccountLine<'a, R: TableRecord>: Copy {
    // the record that it shows
    ghost shown: { Self → R };

    // the text of a record
    ghost secret: { R → List ℕ };

    // the record with another text
    ghost with_secret: { List ℕ → R → R };

    /// The record that a line is; none where it is other text.
    fn account_in(line: &'a [u8]) -> Option<Self>
        ensures { option_map shown result ≡ R.format.read line.now };

    /// Its name.
    fn name(&self) -> &'a [u8]
        ensures { result.now ≡ R.format.name (shown self.now) };

    /// Its text.
    fn secret(&self) -> &'a [u8]
        ensures { result.now ≡ secret (shown self.now) };

    // the text is a field of the record
    ghost is_secret: { IsSecret secret with_secret };
}

impl<'a> AccountLine<'a, PasswdRecord> for PasswdLine<'a> {
    ghost use Rattle.std.specs.Prelude.{refl};
    ghost use Rattle.acct_lines.specs.Shown.{passwd_shown};

    ghost shown = { passwd_shown };

    ghost secret = { λ user. user.password };

    ghost with_secret = { λ text user. record user { password = text } };

    fn account_in(line: &'a [u8]) -> Option<Self> {
        PasswdLine::read(line).ok()
    }

    fn name(&self) -> &'a [u8] {
        self.name
    }

    fn secret(&self) -> &'a [u8] {
        self.password
    }

    ghost is_secret = { record { with = λ text r. refl; own = λ r. refl } };
}

impl<'a> AccountLine<'a, ShadowRecord> for ShadowLine<'a> {
    ghost use Rattle.std.specs.Prelude.{refl};
    ghost use Rattle.acct_lines.specs.Shown.{shadow_shown};

    ghost shown = { shadow_shown };

    ghost secret = { λ r. r.hash };

    ghost with_secret = { λ text r. record r { hash = text } };

    fn account_in(line: &'a [u8]) -> Option<Self> {
        ShadowLine::read(line).ok()
    }

    fn name(&self) -> &'a [u8] {
        self.name
    }

    fn secret(&self) -> &'a [u8] {
        self.hash
    }

    ghost is_secret = { record { with = λ text r. refl; own = λ r. refl } };
}

impl<'a> AccountLine<'a, GroupRecord> for GroupLine<'a> {
    ghost use Rattle.std.specs.Prelude.{refl};
    ghost use Rattle.acct_lines.specs.Shown.{group_shown};

    ghost shown = { group_shown };

    ghost secret = { λ group. group.password };

    ghost with_secret = { λ text group. record group { password = text } };

    fn account_in(line: &'a [u8]) -> Option<Self> {
        GroupLine::read(line).ok()
    }

    fn name(&self) -> &'a [u8] {
        self.name
    }

    fn secret(&self) -> &'a [u8] {
        self.password
    }

    ghost is_secret = { record { with = λ text r. refl; own = λ r. refl } };
}

impl<'a> AccountLine<'a, GshadowRecord> for GshadowLine<'a> {
    ghost use Rattle.std.specs.Prelude.{refl};
    ghost use Rattle.acct_lines.specs.Shown.{gshadow_shown};

    ghost shown = { gshadow_shown };

    ghost secret = { λ r. r.password };

    ghost with_secret = { λ text r. record r { password = text } };

    fn account_in(line: &'a [u8]) -> Option<Self> {
        GshadowLine::read(line).ok()
    }

    fn name(&self) -> &'a [u8] {
        self.name
    }

    fn secret(&self) -> &'a [u8] {
        self.password
    }

    ghost is_secret = { record { with = λ text r. refl; own = λ r. refl } };
}

/// The texts of records, and the names under which they stand.
#[derive(Drop)]
pub(crate) struct Secrets<'a> {
    /// The names, with the places of their records among the records.
    pub(crate) order: ByPlace<'a>,
    // the text of each record, in the order of records
    texts: Vec<&'a [u8]>,
}

impl<'a> Secrets<'a> {
    /// Those of no records.
    pub(crate) fn new<R: TableRecord, L: AccountLine<'a, R>>(alloc: Global) -> Self
        ensures { HasSecrets R.format L.secret [] result }
    {
        Secrets {
            order: ByPlace::new::<R>(alloc),
            texts: Vec::new(alloc),
        }
    }

    /// Adds a record behind the others.
    pub(crate) fn add<R: TableRecord, L: AccountLine<'a, R>>(
        &mut self,
        account: &L,
    ) -> Result<(), AllocError>
        requires behind { TellsAtMost self.old.order.count (told self.old.order.names) }
        requires room { self.old.order.count + 1 < 2 ^ 64 }
        ensures { OnOk result ((records : List R) → HasSecrets R.format L.secret records self.old
            → HasSecrets R.format L.secret (records ++ L.shown account.now ∷ []) self.new) }
    {
        self.order.add(account.name())?;
        self.texts.push(account.secret())?;
        Ok(())
    }

    /// The text of the first record of the name; none where no record has it. Where it is the name of
    /// the record at this place, counted from 0 over records with different names, it isn't hashed.
    pub(crate) fn get_near(&self, name: &[u8], place: usize) -> Option<&'a [u8]>
        ensures { option_copied result ≡ found_text self.now name.now }
    {
        self.texts.get(self.order.place_near(name, place)).copied()
    }
}
