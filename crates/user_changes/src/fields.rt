// The fields of passwd and shadow (usermod(8), `-c`, `-d`, `-e`, `-f`, `-g`, `-l`, `-p`, `-s` and
// `-u`; chfn(1), chsh(1)).
ghost use Rattle.std.specs.Prelude.{◌≡◌, [], ◌∷◌, codes, IfOk, OnOk, option_and_then, unwrap_or};
ghost use Rattle.account_model.specs.Edits.{each_where, edit_if};
ghost use Rattle.account_model.specs.Format.{is_named};
ghost use Rattle.account_model.specs.Records.{passwd_format, shadow_format};
ghost use Rattle.account_model.specs.Request.{operand, value_of};
ghost use Rattle.account_model.specs.Tables.{no_edits};
ghost use Rattle.account_model.specs.Usermod.{changed_shadow, changed_user, sets_passwd, sets_shadow};
ghost use Rattle.account_model.specs.Values.{days_value, expiration_value};
ghost use Rattle.line_edits.specs.ShadowChanges.{given_days};
ghost use Rattle.carried_tables.specs.Scripts.{HasAlso, seen_script};
ghost use Rattle.user_changes.specs.Fields.{day_of_change, user_fields, SetsShadow};

use crate::changes::new_name;
use crate::hash::sets_aging;
use acct_text::Bytes;
use command_values::{Asked, read_days, read_expiration};
use line_edits::{DaysChange, PasswdAct, ShadowAct, ShadowFields, UserFields};
use std::alloc::{AllocError, Global};
use table_edits::{Script, Tables, given_group};

/// Sets the fields of passwd, where an option gives one.
pub(crate) fn write_passwd(
    alloc: Global,
    script: &mut Script,
    asked: &Asked,
    tables: &Tables,
) -> Result<(), AllocError>
    ensures { OnOk result (HasAlso
        (record no_edits {
          passwd = edit_if (sets_passwd asked.now)
              (each_where (is_named passwd_format (operand asked.now))
              (changed_user asked.now tables.now));
        })
        script.old script.new) }
{
    if !sets_passwd(asked) {
        return Ok(());
    }
    let fields = user_fields(alloc, asked, tables)?;
    script.change_user(alloc, asked.operand(), PasswdAct::SetFields(fields))
}

/// Sets the fields of shadow, where an option gives one; `day` is that of a new password.
pub(crate) fn write_shadow(
    alloc: Global,
    script: &mut Script,
    asked: &Asked,
    day: u32,
) -> Result<(), AllocError>
    ensures { OnOk result (HasAlso
        (record no_edits {
          shadow = edit_if (sets_shadow asked.now)
              (each_where (is_named shadow_format (operand asked.now))
              (changed_shadow asked.now day));
        })
        script.old script.new) }
{
    if !sets_shadow(asked) {
        return Ok(());
    }
    let fields = shadow_fields(alloc, asked, day)?;
    script.change_shadow(alloc, asked.operand(), ShadowAct::SetFields(fields))
}

// Whether an option gives a field of passwd.
fn sets_passwd(asked: &Asked) -> bool
    ensures { result ≡ sets_passwd asked.now }
{
    asked.has(b'c')
        || asked.has(b'd')
        || asked.has(b's')
        || asked.has(b'u')
        || asked.has(b'g')
        || asked.has(b'l')
}

// Whether an option gives a field of shadow.
fn sets_shadow(asked: &Asked) -> bool
    ensures { result ≡ sets_shadow asked.now }
{
    sets_aging(asked) || asked.has(b'l') || asked.has(b'p')
}

// The fields of passwd that the options give.
fn user_fields(alloc: Global, asked: &Asked, tables: &Tables) -> Result<UserFields, AllocError>
    ensures { IfOk result (λ fields. fields ≡ user_fields asked.now tables.now) }
{
    Ok(UserFields {
        name: Some(Bytes::of(alloc, new_name(asked))?),
        uid: asked.id(b'u'),
        gid: given_group(alloc, asked, tables)?.map(|group| group.gid),
        comment: text_of(alloc, asked, b'c')?,
        home: text_of(alloc, asked, b'd')?,
        shell: text_of(alloc, asked, b's')?,
    })
}

// The fields of shadow that the options give.
fn shadow_fields(alloc: Global, asked: &Asked, day: u32) -> Result<ShadowFields, AllocError>
    ensures { IfOk result (SetsShadow asked.now day) }
{
    Ok(ShadowFields {
        name: Some(Bytes::of(alloc, new_name(asked))?),
        last_change: day_of_change(asked, day),
        inactive: inactive_days(asked),
        expiration: expiration_day(asked),
        ..ShadowFields::none()
    })
}

/// The script that sets these fields of the user's lines of passwd, as far as they are given.
pub(crate) fn change_fields(
    alloc: Global,
    asked: &Asked,
    comment: Option<Bytes>,
    shell: Option<Bytes>,
) -> Result<Script, AllocError>
    ensures { IfOk result (λ script. seen_script script ≡ record no_edits {
      passwd = each_where (is_named passwd_format (operand asked.now)) (λ user. record user {
        comment = unwrap_or comment user.comment;
        shell = unwrap_or shell user.shell;
      }) ∷ [];
    }) }
{
    let fields = UserFields {
        name: None,
        uid: None,
        gid: None,
        comment,
        home: None,
        shell,
    };
    let mut script = Script::new(alloc);
    script.change_user(alloc, asked.operand(), PasswdAct::SetFields(fields))?;
    Ok(script)
}

/// The text that an option gives.
pub(crate) fn text_of(alloc: Global, asked: &Asked, letter: u8) -> Result<Option<Bytes>, AllocError>
    ensures { IfOk result (λ text. text ≡ value_of (letter ∷ []) asked.now) }
{
    match asked.value(letter) {
        Some(text) => Ok(Some(Bytes::of(alloc, text)?)),
        None => Ok(None),
    }
}

// The day of the last change, which a new password sets.
fn day_of_change(asked: &Asked, day: u32) -> DaysChange
    ensures { result ≡ day_of_change asked.now day }
{
    if asked.has(b'p') {
        DaysChange::Becomes(day)
    } else {
        DaysChange::Stays
    }
}

// The days of `-f`; `-1` empties the field.
fn inactive_days(asked: &Asked) -> DaysChange
    ensures { given_days result ≡ option_and_then days_value (value_of (codes "f") asked.now) }
{
    match asked.value(b'f') {
        Some(text) => DaysChange::of_value(read_days(text)),
        None => DaysChange::Stays,
    }
}

// The day of `-e`; no text and `-1` empty the field.
fn expiration_day(asked: &Asked) -> DaysChange
    ensures { given_days result ≡ option_and_then expiration_value (value_of (codes "e") asked.now) }
{
    match asked.value(b'e') {
        Some(text) => DaysChange::of_value(read_expiration(text)),
        None => DaysChange::Stays,
    }
}
