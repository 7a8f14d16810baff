// chsh LOGIN (chsh(1)): changes a user's shell.
ghost use Rattle.account_model.specs.Chsh.{chsh};
ghost use Rattle.table_edits.specs.Acting.{ActsBy};

use crate::fields::{change_fields, text_of};
use command_values::{Asked, Form, ToolFault};
use std::alloc::Global;
use table_edits::{Script, Tables};

/// The script that changes the shell of the user to that of `-s`.
///
/// `BadValue` refuses the shell, and `NoUser` a user that isn't there.
pub fn chsh(alloc: Global, asked: &Asked, tables: &Tables) -> Result<Script, ToolFault>
    ensures { ActsBy (chsh asked.now tables.now) result }
{
    asked.check_value(alloc, b's', Form::Shell)?;
    tables.check_user(alloc, asked.operand())?;
    let shell = text_of(alloc, asked, b's')?;
    Ok(change_fields(alloc, asked, None, shell)?)
}
