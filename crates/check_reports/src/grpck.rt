// grpck (grpck(8)): reports the problems of group and gshadow (`-r`), or sorts them (`-s`).
ghost use Rattle.std.specs.Prelude.{◌≡◌, ◌++◌, [], ◌∷◌, IfOk, OnOk};
ghost use Rattle.account_model.specs.Records.{passwd_format, read_names};
ghost use Rattle.account_model.specs.Text.{nonempty};
ghost use Rattle.account_model.specs.Grpck.{grpck, grpck_report};
ghost use Rattle.check_reports.specs.Decided.{DecidesBy};
ghost use Rattle.check_reports.specs.Known.{IsWhole};
ghost use Rattle.check_reports.specs.Seen.{unknown_problems, users_seen};

use crate::decision::sort_tables;
use crate::known::{GroupChecks, GroupHashChecks, NamedFile};
use crate::problem::{Listing, Problem};
use crate::problems::Problems;
use crate::report::{Checks, NameRead, Report};
use crate::sorting::ById;
use account_model::{GroupRecord, GshadowRecord, PasswdRecord};
use acct_lines::{GroupLine, GshadowLine, is_valid_name};
use acct_text::{Files, Tab, cut_once};
use command_values::Asked;
use std::alloc::{AllocError, Global};
use tool_answers::Decision;

/// Sorts group and gshadow with `-s`, and else reports their problems.
#[tactic(auto, using(crate::proofs::DecisionLemmas::groups_sorted))]
pub fn grpck(alloc: Global, asked: &Asked, files: &Files) -> Result<Decision, AllocError>
    ensures { IfOk result (DecidesBy asked.now.tool (grpck asked.now files.now) files.now) }
{
    if asked.has(b's') {
        let (main, hashes) = (Tab::Group, Tab::Gshadow);
        return sort_tables::<GroupRecord, GshadowRecord, ById>(alloc, files, main, hashes, &ById);
    }
    report_groups(alloc, asked, files)
}

// Reports the problems of group and gshadow, in the order of lines.
fn report_groups(alloc: Global, asked: &Asked, files: &Files) -> Result<Decision, AllocError>
    ensures { IfOk result (DecidesBy asked.now.tool (grpck_report files.now) files.now) }
{
    let users = &NamedFile::of::<PasswdRecord>(alloc, &files.passwd)?;
    let mut hashes = NamedFile::of::<GshadowRecord>(alloc, &files.gshadow)?;
    let mut groups = NamedFile::unread::<GroupRecord>(alloc, &files.group);
    let mut report = Report::new(alloc, false);
    let known = GroupChecks {
        users,
        hashes: &hashes,
    };
    report.push_table(alloc, &known, &mut groups, Tab::Group)?;
    let known = GroupHashChecks {
        users,
        groups: &groups,
    };
    report.push_table(alloc, &known, &mut hashes, Tab::Gshadow)?;
    Ok(report.told(alloc))
}

impl<'u, 'n, 'a> Checks<GroupRecord> for GroupChecks<'u, 'n, 'a> {
    ghost use Rattle.std.proofs.Common.{append_assoc, rules};
    ghost use Rattle.account_model.specs.Grpck.{group_problems};
    ghost use Rattle.check_reports.specs.Seen.{beside_groups};

    ghost problems = { λ known. group_problems (beside_groups known) };

    fn note<'t>(&self, found: &mut Problems<'t>, place: usize, text: &'t [u8]) -> NameRead<'t> {
        let group = GroupLine::read(text)?;
        let name = group.name;
        let hashes = self.hashes;
        let lacks_entry = hashes.file.is_some() && !hashes.has_near::<GshadowRecord>(name, place);
        found.note_if(!is_valid_name(name), Problem::InvalidGroupName(name))?;
        note_unknown(found, self.users, name, Listing::Member, group.members)?;
        found.note_if(lacks_entry, Problem::NoGshadowEntry(name))?;
        Ok(name)
    }

    ghost tells_repeated = { Prim.search (rules, append_assoc) };
}

impl<'u, 'n, 'a> Checks<GshadowRecord> for GroupHashChecks<'u, 'n, 'a> {
    ghost use Rattle.std.proofs.Common.{append_assoc, rules};
    ghost use Rattle.account_model.specs.Grpck.{gshadow_problems};
    ghost use Rattle.check_reports.specs.Seen.{beside_group_hashes};

    ghost problems = { λ known. gshadow_problems (beside_group_hashes known) };

    fn note<'t>(&self, found: &mut Problems<'t>, place: usize, text: &'t [u8]) -> NameRead<'t> {
        let group = GshadowLine::read(text)?;
        let name = group.name;
        let lacks_entry = !self.groups.has_near::<GroupRecord>(name, place);
        found.note_if(lacks_entry, Problem::NoGroupEntry(name))?;
        let users = self.users;
        note_unknown(
            found,
            users,
            name,
            Listing::Administrator,
            group.administrators,
        )?;
        note_unknown(found, users, name, Listing::Member, group.members)?;
        Ok(name)
    }

    ghost tells_repeated = { Prim.search (rules, append_assoc) };
}

// Adds a problem for each user in the group's list who isn't in passwd. The users have commas
// between them.
fn note_unknown<'t>(
    problems: &mut Problems<'t>,
    known: &NamedFile<'_>,
    group: &'t [u8],
    listing: Listing,
    users: &'t [u8],
) -> Result<(), AllocError>
    requires { IsWhole passwd_format known.now }
    ensures { OnOk result (problems.new ≡ problems.old
        ++ unknown_problems listing group.now (users_seen known.now) (read_names users.now)) }
{
    let mut rest = users;
    'users: while let Some(cut) = cut_once(b',', rest) {
        note_user(problems, known, group, listing, cut.before)?;
        rest = cut.behind;
    }
    note_user(problems, known, group, listing, rest)
}

// Adds a problem for the user in the group's list where passwd lacks it. Nothing between two
// commas is no user.
fn note_user<'t>(
    problems: &mut Problems<'t>,
    known: &NamedFile<'_>,
    group: &'t [u8],
    listing: Listing,
    user: &'t [u8],
) -> Result<(), AllocError>
    requires { IsWhole passwd_format known.now }
    ensures { OnOk result (problems.new ≡ problems.old
        ++ unknown_problems listing group.now (users_seen known.now) (nonempty (user.now ∷ []))) }
{
    let is_unknown = !user.is_empty() && !known.has::<PasswdRecord>(user);
    problems.note_if(is_unknown, listing.problem(group, user))
}
