// What pwconv and grpconv make of records (pwconv(8)): fields become `x`, and records of hashes
// take fields over, or go.
ghost use Rattle.std.specs.Prelude.{◌≡◌, ◌++◌, ℕ, List, [], ◌∷◌, not, Some, OnOk};
ghost use Rattle.account_model.specs.Records.{shadow_format};
ghost use Rattle.acct_lines.specs.Shown.{shadow_shown};

use crate::line_changes::LineChange;
use crate::printing::{PrintedLine, differs, push_end, push_field, push_text, push_three_days};
use crate::secrets::{AccountLine, Secrets};
use account_model::ShadowRecord;
use acct_lines::{ShadowLine, TableRecord};
use acct_tables::FileLine;
use acct_text::Bytes;
use std::alloc::{AllocError, Global};

/// Each field becomes `x`.
pub(crate) struct Hiding;

impl<'l, M: TableRecord, P: PrintedLine<'l, M>> LineChange<'l, M, P> for Hiding {
    ghost use Rattle.std.specs.Prelude.{[], ◌∷◌};
    ghost use Rattle.account_model.specs.Hashes.{elsewhere};

    ghost change = { λ _ m. P.with_secret elsewhere m ∷ [] };

    fn touches(&self, account: &P) -> bool {
        differs::<M, P>(account, b"x")
    }

    fn push(
        &self,
        alloc: Global,
        made: &mut Bytes,
        account: &P,
        line: &FileLine<'l>,
        _place: usize,
    ) -> Result<(), AllocError> {
        push_text::<M, P>(alloc, made, account, line, b"x")
    }
}

/// How a record of hashes takes a field over.
pub(crate) trait Taking<'a, H: TableRecord, L: AccountLine<'a, H>> {
    // the record that did
    ghost take: { Self → List ℕ → H → H };

    /// Whether the record becomes another one by this field.
    fn differs(&self, account: &L, field: &[u8]) -> bool
        ensures { result ≡ not (H.format.same (L.shown account.now)
            (take self.now field.now (L.shown account.now))) };

    /// Adds the canonical line of the record that took it over, without a newline.
    fn push_taken(
        &self,
        alloc: Global,
        made: &mut Bytes,
        account: &L,
        field: &[u8],
    ) -> Result<(), AllocError>
        ensures { OnOk result (made.new ≡ made.old
            ++ H.format.print (take self.now field.now (L.shown account.now))) };
}

/// The field alone is taken over, as for groups.
pub(crate) struct FieldTaking;

impl<'l, H: TableRecord, L: PrintedLine<'l, H>> Taking<'l, H, L> for FieldTaking {
    ghost take = { λ _ field r. L.with_secret field r };

    fn differs(&self, account: &L, field: &[u8]) -> bool {
        differs::<H, L>(account, field)
    }

    fn push_taken(
        &self,
        alloc: Global,
        made: &mut Bytes,
        account: &L,
        field: &[u8],
    ) -> Result<(), AllocError> {
        account.push_with(alloc, made, field)
    }
}

/// Passwords of users, which were changed on this day; a new record has this aging.
#[derive(Drop)]
pub(crate) struct UserTaking {
    pub(crate) day: u32,
    pub(crate) minimum: Option<u32>,
    pub(crate) maximum: Option<u32>,
    pub(crate) warning: Option<u32>,
}

impl<'l> Taking<'l, ShadowRecord, ShadowLine<'l>> for UserTaking {
    ghost use Rattle.std.specs.Prelude.{Some};

    ghost take = { λ taking field r. record r { hash = field; last_change = Some taking.day } };

    fn differs(&self, account: &ShadowLine<'l>, field: &[u8]) -> bool {
        user_differs(account, field, self.day)
    }

    fn push_taken(
        &self,
        _alloc: Global,
        made: &mut Bytes,
        user: &ShadowLine<'l>,
        field: &[u8],
    ) -> Result<(), AllocError> {
        made.push(user.name)?;
        push_field(made, field)?;
        push_three_days(made, Some(self.day), user.minimum, user.maximum)?;
        push_three_days(made, user.warning, user.inactive, user.expiration)?;
        push_field(made, user.rest)
    }
}

// Whether the user has another hash, or another last change.
#[tactic(auto, using(crate::proofs::GatherLemmas::shadow_differs))]
fn user_differs(user: &ShadowLine<'_>, field: &[u8], day: u32) -> bool
    ensures { result ≡ not (shadow_format.same (shadow_shown user.now)
        (record (shadow_shown user.now) { hash = field.now; last_change = Some day })) }
{
    user.hash != field || user.last_change != Some(day)
}

/// A record of hashes takes over the field of the name that is kept, where that isn't `x`; without
/// one it goes.
#[derive(Drop)]
pub(crate) struct Gathering<'m, 'a, T> {
    pub(crate) fields: &'m Secrets<'a>,
    pub(crate) taking: &'m T,
}

impl<'l, 'm, 'a, H: TableRecord, L: AccountLine<'l, H>, T: Taking<'l, H, L>> LineChange<'l, H, L>
    for Gathering<'m, 'a, T> {
    ghost use Rattle.check_reports.specs.Gathered.{gathered_by};

    ghost change = { λ gathering h.
        gathered_by H.format gathering.fields.now (T.take gathering.taking.now) h };

    fn touches(&self, account: &L) -> bool {
        match self.fields.get_near(account.name(), 0) {
            Some(field) => field != b"x".as_slice() && self.taking.differs(account, field),
            None => true,
        }
    }

    fn push(
        &self,
        alloc: Global,
        made: &mut Bytes,
        account: &L,
        line: &FileLine<'l>,
        place: usize,
    ) -> Result<(), AllocError> {
        let Some(field) = self.fields.get_near(account.name(), place) else {
            return Ok(());
        };
        if field == b"x".as_slice() || !self.taking.differs(account, field) {
            return line.push_to(made);
        }
        self.taking.push_taken(alloc, made, account, field)?;
        push_end(made, line)
    }
}
