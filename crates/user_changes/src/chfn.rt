// chfn LOGIN (chfn(1)): changes the parts of a user's comment.
ghost use Rattle.std.specs.Prelude.{◌≡◌, IfOk};
ghost use Rattle.account_model.specs.Chfn.{chfn, chfn_refusals, chfn_script};
ghost use Rattle.account_model.specs.Text.{first_some};
ghost use Rattle.account_model.specs.Users.{comment_of};
ghost use Rattle.table_edits.specs.Acting.{ActsBy};
ghost use Rattle.carried_tables.specs.Scripts.{seen_script};
ghost use Rattle.table_edits.specs.Stopping.{StopsBy};

use crate::comment::new_comment;
use crate::fields::change_fields;
use acct_text::Bytes;
use command_values::{Asked, Form, ToolFault};
use std::alloc::{AllocError, Global};
use table_edits::{Script, Tables};

/// The script that changes the comment of the user: the parts that the options give in place of its
/// own.
///
/// `BadValue` refuses a value of an option, and `NoUser` a user that isn't there.
pub fn chfn(alloc: Global, asked: &Asked, tables: &Tables) -> Result<Script, ToolFault>
    ensures { ActsBy (chfn asked.now tables.now) result }
{
    check_chfn(alloc, asked, tables)?;
    Ok(changed_comment(alloc, asked, tables)?)
}

// Tests the refusals in their order.
fn check_chfn(alloc: Global, asked: &Asked, tables: &Tables) -> Result<(), ToolFault>
    ensures { StopsBy (first_some (chfn_refusals asked.now tables.now)) result }
{
    asked.check_value(alloc, b'f', Form::Part)?;
    asked.check_value(alloc, b'r', Form::Part)?;
    asked.check_value(alloc, b'w', Form::Part)?;
    asked.check_value(alloc, b'h', Form::Part)?;
    asked.check_value(alloc, b'o', Form::Field)?;
    tables.check_user(alloc, asked.operand())
}

// The edit of a user that can be changed so.
fn changed_comment(alloc: Global, asked: &Asked, tables: &Tables) -> Result<Script, AllocError>
    ensures { IfOk result (λ script. seen_script script ≡ chfn_script asked.now tables.now) }
{
    let old = comment_of(alloc, tables, asked.operand())?;
    let comment = new_comment(alloc, asked, old.as_slice())?;
    change_fields(alloc, asked, Some(comment), None)
}

// The comment of the user; empty where there is no such user.
fn comment_of(alloc: Global, tables: &Tables, user: &[u8]) -> Result<Bytes, AllocError>
    ensures { IfOk result (λ comment. comment ≡ comment_of user.now tables.now) }
{
    match tables.user_named(alloc, user)? {
        Some(record) => Ok(record.comment),
        None => Ok(Bytes::new(alloc)),
    }
}
