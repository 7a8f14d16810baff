// What the tools do with records of shadow (shadow(5)).
ghost use Rattle.std.specs.Prelude.{◌≡◌, true, None, Some, OnOk, option_map, unwrap_or};
ghost use Rattle.account_model.specs.Records.{shadow_format};
ghost use Rattle.account_model.specs.declared.records.ShadowRecord.{ShadowRecord};
ghost use Rattle.acct_lines.specs.DaysValues.{days_held};
ghost use Rattle.line_edits.specs.ShadowChanges.{given_days, shadow_after, with_shadow_fields};

use crate::fields::set_given;
use crate::{Becoming, EditedRecord, HashChange};
use acct_lines::{DaysValue, ShadowLine, ShadowRecord, TableRecord};
use acct_text::Bytes;
use std::alloc::{AllocError, Global};

/// What is done with a record of shadow.
#[derive(Drop)]
pub enum ShadowAct {
    /// The hash becomes this one.
    SetHash(Bytes),
    /// The last change becomes this day, counted from 1970-01-01.
    SetLastChange(u32),
    /// The hash changes so.
    ChangeHash(HashChange),
    /// The fields become these, as far as they are given.
    SetFields(ShadowFields),
}

/// What becomes of a field of shadow that holds a day or a number of days, or is empty.
#[derive(Clone, Copy)]
pub enum DaysChange {
    /// It stays as it is.
    Stays,
    /// It becomes empty.
    Empties,
    /// It becomes this day, counted from 1970-01-01, or this number of days.
    Becomes(u32),
}

impl DaysChange {
    /// The change that a value asks for; none asks for nothing.
    pub fn of_value(value: Option<DaysValue>) -> Self
        ensures { given_days result ≡ option_map days_held value }
    {
        match value {
            Some(DaysValue::Days(days)) => DaysChange::Becomes(days),
            Some(DaysValue::Empty) => DaysChange::Empties,
            None => DaysChange::Stays,
        }
    }

    // What the field holds after the change.
    fn after(self, old: Option<u32>) -> Option<u32>
        ensures { result ≡ unwrap_or (given_days self) old }
    {
        match self {
            DaysChange::Stays => old,
            DaysChange::Empties => None,
            DaysChange::Becomes(days) => Some(days),
        }
    }
}

/// Fields of a record of shadow that a tool sets. A name that is none stays as it is.
#[derive(Drop)]
pub struct ShadowFields {
    /// The name of the user.
    pub name: Option<Bytes>,
    /// The day of the last change of the password, counted from 1970-01-01.
    pub last_change: DaysChange,
    /// The days that have to pass before the password may be changed again.
    pub minimum: DaysChange,
    /// The days after which the password has to be changed.
    pub maximum: DaysChange,
    /// The days before that end on which the user is warned.
    pub warning: DaysChange,
    /// The days after that end on which the password is still taken.
    pub inactive: DaysChange,
    /// The day on which the account expires, counted from 1970-01-01.
    pub expiration: DaysChange,
}

impl ShadowFields {
    /// No field, so that all of a record stay.
    pub fn none() -> Self
        ensures { result ≡ record {
          name = None;
          last_change = DaysChange.Stays;
          minimum = DaysChange.Stays;
          maximum = DaysChange.Stays;
          warning = DaysChange.Stays;
          inactive = DaysChange.Stays;
          expiration = DaysChange.Stays;
        } }
    {
        ShadowFields {
            name: None,
            last_change: DaysChange::Stays,
            minimum: DaysChange::Stays,
            maximum: DaysChange::Stays,
            warning: DaysChange::Stays,
            inactive: DaysChange::Stays,
            expiration: DaysChange::Stays,
        }
    }
}

/// What becomes of the records of shadow.
#[derive(Drop)]
pub enum ShadowChange {
    /// The act is done with the records of the name. Others stay.
    Named(Bytes, ShadowAct),
    /// The records of the name go.
    Remove(Bytes),
}

impl EditedRecord for ShadowRecord {
    ghost use Rattle.std.specs.Prelude.{refl};
    ghost use Rattle.line_edits.specs.ShadowChanges.{shadow_becomes};

    type Change = ShadowChange;

    ghost becomes = { shadow_becomes };

    fn becoming(
        mut self,
        alloc: Global,
        change: &ShadowChange,
    ) -> Result<Becoming<Self>, AllocError> {
        match change {
            ShadowChange::Named(name, act) if self.name() == name.as_slice() => {
                act_on(alloc, &mut self, act)?;
            }
            ShadowChange::Remove(name) if self.name() == name.as_slice() => return Ok(
                Becoming::Goes,
            ),
            _ => return Ok(Becoming::Stays),
        }
        Ok(Becoming::Changes(self))
    }

    fn are_same(one: &ShadowChange, other: &ShadowChange) -> bool {
        match (one, other) {
            (ShadowChange::Named(name, act), ShadowChange::Named(again, other)) => {
                name.as_slice() == again.as_slice() && are_same(act, other)
            }
            _ => false,
        }
    }

    fn only_name(change: &ShadowChange) -> Option<&[u8]> {
        match change {
            ShadowChange::Named(name, _) | ShadowChange::Remove(name) => Some(name.as_slice()),
        }
    }

    fn leaves_fields(change: &ShadowChange, line: &[u8]) -> bool {
        match change {
            ShadowChange::Named(_, act) => act_leaves(act, line),
            ShadowChange::Remove(_) => false,
        }
    }

    ghost no_blank = { refl };
}

// Whether the act surely leaves the user that the line is, if it is one.
fn act_leaves(act: &ShadowAct, line: &[u8]) -> bool
    ensures { result ≡ true → (user : ShadowRecord)
        → shadow_format.read line.now ≡ Some user → shadow_after act.now user ≡ user }
{
    let Ok(user) = ShadowLine::read(line) else {
        return false;
    };
    match act {
        ShadowAct::ChangeHash(change) => change.leaves(user.hash),
        ShadowAct::SetLastChange(day) => user.last_change == Some(*day),
        _ => false,
    }
}

// Whether both acts are surely the same.
fn are_same(one: &ShadowAct, other: &ShadowAct) -> bool
    ensures { result ≡ true → one.now ≡ other.now }
{
    match (one, other) {
        (ShadowAct::ChangeHash(change), ShadowAct::ChangeHash(again)) => change.is_same(again),
        (ShadowAct::SetLastChange(day), ShadowAct::SetLastChange(again)) => *day == *again,
        _ => false,
    }
}

// Does the act with the record. At `AllocError` it may have some of the days that are given.
fn act_on(alloc: Global, user: &mut ShadowRecord, act: &ShadowAct) -> Result<(), AllocError>
    ensures { OnOk result (user.new ≡ shadow_after act.now user.old) }
{
    match act {
        ShadowAct::SetHash(hash) => user.hash = hash.copy()?,
        ShadowAct::SetLastChange(day) => user.last_change = Some(*day),
        ShadowAct::ChangeHash(change) => user.hash = change.of(alloc, &user.hash)?,
        ShadowAct::SetFields(fields) => return set_fields(user, fields),
    }
    Ok(())
}

// Puts the fields that are given into the record. At `AllocError` it may have the days alone.
fn set_fields(user: &mut ShadowRecord, fields: &ShadowFields) -> Result<(), AllocError>
    ensures { OnOk result (user.new ≡ with_shadow_fields fields.now user.old) }
{
    user.last_change = fields.last_change.after(user.last_change);
    user.minimum = fields.minimum.after(user.minimum);
    user.maximum = fields.maximum.after(user.maximum);
    user.warning = fields.warning.after(user.warning);
    user.inactive = fields.inactive.after(user.inactive);
    user.expiration = fields.expiration.after(user.expiration);
    set_given(&mut user.name, &fields.name)
}
