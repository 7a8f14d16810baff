// pwck (pwck(8)): reports the problems of passwd and shadow (`-r`), or sorts them (`-s`).
ghost use Rattle.std.specs.Prelude.{◌≡◌, IfOk};
ghost use Rattle.account_model.specs.Pwck.{is_after, pwck, pwck_report};
ghost use Rattle.check_reports.specs.Decided.{DecidesBy};

use crate::decision::sort_tables;
use crate::hashes::HashLines;
use crate::known::{HashChecks, NamedFile, UserChecks};
use crate::problem::Problem;
use crate::problems::Problems;
use crate::report::{Checks, NameRead, Report};
use crate::sorting::ById;
use account_model::{GroupRecord, PasswdRecord, ShadowRecord};
use acct_lines::{PasswdLine, is_valid_name};
use acct_tables::{NameIndex, listed_ids, text_of};
use acct_text::{Files, Tab};
use command_values::Asked;
use id_choice::UsedIds;
use std::alloc::{AllocError, Global};
use tool_answers::Decision;

/// Sorts passwd and shadow with `-s`, and else reports their problems, on the day in days since
/// 1970-01-01.
#[tactic(auto, using(crate::proofs::DecisionLemmas::users_sorted))]
pub fn pwck(alloc: Global, asked: &Asked, files: &Files, today: u32) -> Result<Decision, AllocError>
    ensures { IfOk result
        (DecidesBy asked.now.tool (pwck asked.now files.now today) files.now) }
{
    if asked.has(b's') {
        let (main, hashes) = (Tab::Passwd, Tab::Shadow);
        return sort_tables::<PasswdRecord, ShadowRecord, ById>(alloc, files, main, hashes, &ById);
    }
    report_users(alloc, asked, files, today)
}

// Reports the problems of passwd and shadow, in the order of lines. Notices are left out with
// `-q`, and count for the status all the same.
fn report_users(
    alloc: Global,
    asked: &Asked,
    files: &Files,
    today: u32,
) -> Result<Decision, AllocError>
    ensures { IfOk result
        (DecidesBy asked.now.tool (pwck_report asked.now files.now today) files.now) }
{
    let mut report = Report::new(alloc, asked.has(b'q'));
    let mut users = NamedFile::unread::<PasswdRecord>(alloc, &files.passwd);
    let mut names = NameIndex::new(alloc);
    let lines = HashLines::of(alloc, &files.shadow, &mut names)?;
    let mut hashes = NamedFile::with::<ShadowRecord>(&files.shadow, names);
    let gids = UsedIds::of(
        alloc,
        listed_ids::<GroupRecord>(alloc, text_of(&files.group))?,
    )?;
    let known = UserChecks {
        hashes: &hashes,
        groups: &files.group,
        gids: &gids,
    };
    report.push_table(alloc, &known, &mut users, Tab::Passwd)?;
    let known = HashChecks {
        users: &users,
        lines: &lines,
        today,
    };
    report.push_table(alloc, &known, &mut hashes, Tab::Shadow)?;
    Ok(report.told(alloc))
}

impl<'h, 'g, 'a> Checks<PasswdRecord> for UserChecks<'h, 'g, 'a> {
    ghost use Rattle.std.proofs.Common.{append_assoc, rules};
    ghost use Rattle.account_model.specs.Pwck.{user_problems};
    ghost use Rattle.check_reports.specs.Seen.{beside_users};

    ghost problems = { λ known. user_problems (beside_users known) };

    fn note<'t>(&self, found: &mut Problems<'t>, place: usize, text: &'t [u8]) -> NameRead<'t> {
        let user = PasswdLine::read(text)?;
        let name = user.name;
        found.note_if(!is_valid_name(name), Problem::InvalidUserName(name))?;
        let lacks_group = !self.has_gid(user.gid);
        found.note_if(lacks_group, Problem::NoPrimaryGroup(name, user.gid))?;
        let has_hashes = self.hashes.file.is_some();
        let lacks_entry = has_hashes && !self.hashes.has_near::<ShadowRecord>(name, place);
        found.note_if(lacks_entry, Problem::NoShadowEntry(name))?;
        let keeps_password = has_hashes && user.password != b"x".as_slice();
        found.note_if(keeps_password, Problem::PasswordNotInShadow(name))?;
        Ok(name)
    }

    ghost tells_repeated = { Prim.search (rules, append_assoc) };
}

impl<'n, 'l, 'a> Checks<ShadowRecord> for HashChecks<'n, 'l, 'a> {
    ghost use Rattle.std.proofs.Common.{append_assoc, rules};
    ghost use Rattle.account_model.specs.Pwck.{shadow_problems};
    ghost use Rattle.check_reports.specs.Seen.{users_seen};

    ghost problems = { λ known. shadow_problems (users_seen known.users.now) known.today };

    fn note<'t>(&self, found: &mut Problems<'t>, place: usize, text: &'t [u8]) -> NameRead<'t> {
        let hash = self.lines.read(text, place)?;
        let name = hash.name;
        let lacks_entry = !self.users.has_near::<PasswdRecord>(name, place);
        found.note_if(lacks_entry, Problem::NoPasswdEntry(name))?;
        let is_future = is_after(self.today, hash.last_change);
        found.note_if(is_future, Problem::ChangeInFuture(name))?;
        Ok(name)
    }

    ghost tells_repeated = { Prim.search (rules, append_assoc) };
}

// Whether a day lies after today, both in days since 1970-01-01.
fn is_after(today: u32, day: Option<u32>) -> bool
    ensures { result ≡ is_after today day }
{
    match day {
        Some(day) => day > today,
        None => false,
    }
}
