// What a tool answers: the one place that goes from the tool to its code.
ghost use Rattle.std.specs.Prelude.{◌≡◌, ◌≤◌, [], length};
ghost use Rattle.acct_text.specs.Limits.{last_day, table_limit};
ghost use Rattle.login_defs.specs.Held.{IsHeld};
ghost use Rattle.suite_tools.specs.Carrying.{AnswersUnder};

use account_model::HashesOf::{Groups, Users};
use account_model::Tool;
use acct_text::Files;
use aging_commands::chage::{chage, chage_output};
use aging_commands::chpasswd::set_hashes;
use aging_commands::passwd::{passwd, passwd_output};
use check_reports::conversion::{grpunconv, pwunconv};
use check_reports::getsubids::getsubids;
use check_reports::grpck::grpck;
use check_reports::pwck::pwck;
use check_reports::pwconv::{grpconv, pwconv};
use command_values::Asked;
use group_commands::gpasswd::gpasswd;
use group_commands::groupadd::groupadd;
use group_commands::groupdel::groupdel;
use group_commands::groupmems::{groupmems, groupmems_output};
use group_commands::groupmod::groupmod;
use login_defs::Defs;
use std::alloc::Global;
use table_edits::{Script, Tables};
use tool_answers::{Decision, Output, ToolFault};
use user_changes::chfn::chfn;
use user_changes::chsh::chsh;
use user_changes::usermod;
use user_creation::{useradd, useradd_output};
use user_removal::{userdel, userdel_output};

/// What a tool answers that doesn't refuse.
#[derive(Drop)]
pub(crate) enum Answered {
    /// It makes the edits of this script, and prints this.
    Edits(Script, Output),
    /// It looks through whole tables, and decides this on them.
    Decides(Decision),
    /// A batch: its lines answer, one after another.
    Lines,
}

/// What the tool answers by its words, the input, the settings and the day, in days since 1970-01-01: on
/// these tables, or on these files where it looks through them.
///
/// At `Refused` it refuses, for its first cause; one that looks through whole tables decides that too.
pub(crate) fn answer_of(
    alloc: Global,
    asked: &Asked,
    input: &[u8],
    files: &Files,
    tables: &Tables,
    defs: &Defs,
    day: u32,
) -> Result<Answered, ToolFault>
    requires small { length input.now ≤ table_limit }
    requires held { IsHeld defs.now }
    requires in_time { day ≤ last_day }
    ensures { AnswersUnder defs.now day asked.now input.now files.now tables.now result }
{
    match asked.tool() {
        Tool::Useradd => {
            let script = useradd(alloc, asked, tables, defs, day)?;
            let output = useradd_output(alloc, asked, tables, &script)?;
            Ok(Answered::Edits(script, output))
        }
        Tool::Userdel => {
            let script = userdel(alloc, asked, tables, defs)?;
            Ok(Answered::Edits(script, userdel_output(alloc, asked, tables, defs)?))
        }
        Tool::Groupmems => {
            let script = groupmems(alloc, asked, tables)?;
            Ok(Answered::Edits(script, groupmems_output(alloc, asked, tables)?))
        }
        Tool::Chage => {
            let script = chage(alloc, asked, tables)?;
            Ok(Answered::Edits(script, chage_output(alloc, asked, tables)?))
        }
        Tool::Passwd => {
            let script = passwd(alloc, asked, tables)?;
            Ok(Answered::Edits(script, passwd_output(alloc, asked, tables)?))
        }
        Tool::Usermod => Ok(quietly(alloc, usermod(alloc, asked, tables, day)?)),
        Tool::Chfn => Ok(quietly(alloc, chfn(alloc, asked, tables)?)),
        Tool::Chsh => Ok(quietly(alloc, chsh(alloc, asked, tables)?)),
        Tool::Groupadd => Ok(quietly(alloc, groupadd(alloc, asked, tables, defs)?)),
        Tool::Groupmod => Ok(quietly(alloc, groupmod(alloc, asked, tables)?)),
        Tool::Groupdel => Ok(quietly(alloc, groupdel(alloc, asked, tables)?)),
        Tool::Gpasswd => Ok(quietly(alloc, gpasswd(alloc, asked, tables)?)),
        Tool::Chpasswd => Ok(quietly(alloc, set_hashes(alloc, Users, input, tables, day)?)),
        Tool::Chgpasswd => Ok(quietly(alloc, set_hashes(alloc, Groups, input, tables, day)?)),
        Tool::Pwck => Ok(Answered::Decides(pwck(alloc, asked, files, day)?)),
        Tool::Grpck => Ok(Answered::Decides(grpck(alloc, asked, files)?)),
        Tool::Pwconv => Ok(Answered::Decides(pwconv(alloc, asked.tool(), files, defs, day)?)),
        Tool::Pwunconv => Ok(Answered::Decides(pwunconv(alloc, asked.tool(), files)?)),
        Tool::Grpconv => Ok(Answered::Decides(grpconv(alloc, asked.tool(), files)?)),
        Tool::Grpunconv => Ok(Answered::Decides(grpunconv(alloc, asked.tool(), files)?)),
        Tool::Getsubids => Ok(Answered::Decides(getsubids(alloc, asked, files)?)),
        Tool::Batch => Ok(Answered::Lines),
    }
}

// What a tool answers that prints nothing beside its script.
fn quietly(alloc: Global, script: Script) -> Answered
    ensures { result ≡ Answered.Edits script (record { status = 0; out = []; err = [] }) }
{
    Answered::Edits(script, Output::silent(alloc))
}
