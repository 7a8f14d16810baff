// What checks look up in the tables, found without a search of them (pwck(8), grpck(8), `-r`).
ghost use Rattle.std.specs.Prelude.{◌≡◌, ◌+◌, ◌^◌, ◌<◌, [], false, map, IfOk, OnOk};
ghost use Rattle.std.specs.Option.{option_copied};
ghost use Rattle.account_model.specs.Format.{has_named};
ghost use Rattle.account_model.specs.Records.{group_format, gshadow_format, passwd_format, shadow_format};
ghost use Rattle.account_model.specs.Tables.{table_records, table_lines};
ghost use Rattle.acct_tables.specs.NameIndex.{TellsOf, TellsAtMost, line_names, told};
ghost use Rattle.id_choice.specs.Used.{AreThoseOf};
ghost use Rattle.check_reports.specs.Known.{HasNoted, IsWhole, NotesLine, has_gid};

use crate::hashes::HashLines;
use acct_lines::TableRecord;
use acct_tables::{NameIndex, text_of};
use acct_text::Bytes;
use id_choice::UsedIds;
use std::alloc::{AllocError, Global};

/// The file of a table, which may be absent, with the names of its records.
pub(crate) struct NamedFile<'a> {
    pub(crate) file: &'a Option<Bytes>,
    pub(crate) names: NameIndex<'a>,
    // whether the names of all records are there, or of those alone whose lines were checked
    is_whole: bool,
}

// One call, so that who holds several files has one way through each.
impl<'a> Drop for NamedFile<'a> {
    fn drop(self) {
        let NamedFile {
            file: _,
            names: _,
            is_whole: _,
        } = self;
    }
}

impl<'a> NamedFile<'a> {
    /// The file without names: they are noted as its lines are checked.
    pub(crate) fn unread<R: TableRecord>(alloc: Global, file: &'a Option<Bytes>) -> Self
        ensures of_file { result.file.now ≡ file.now }
        ensures noted { HasNoted R.format [] result }
    {
        NamedFile {
            file,
            names: NameIndex::new(alloc),
            is_whole: false,
        }
    }

    /// The file with the names of all its records.
    pub(crate) fn of<R: TableRecord>(
        alloc: Global,
        file: &'a Option<Bytes>,
    ) -> Result<Self, AllocError>
        ensures of_file { IfOk result (λ named. named.file.now ≡ file.now) }
        ensures whole { IfOk result (IsWhole R.format) }
        ensures noted { IfOk result (HasNoted R.format []) }
    {
        let names = NameIndex::of::<R>(alloc, text_of(file))?;
        Ok(NamedFile::with::<R>(file, names))
    }

    /// The file with these names of all its records.
    pub(crate) fn with<R: TableRecord>(file: &'a Option<Bytes>, names: NameIndex<'a>) -> Self
        requires { TellsOf (line_names R.format (table_lines file.now)) (told names) }
        ensures of_file { result.file.now ≡ file.now }
        ensures whole { IsWhole R.format result }
        ensures noted { HasNoted R.format [] result }
    {
        NamedFile {
            file,
            names,
            is_whole: true,
        }
    }

    /// Notes the line at this place, counted from 0, behind those that are noted: its name where it
    /// is a record. Where all names are there, nothing changes.
    pub(crate) fn note(&mut self, name: Option<&'a [u8]>, place: usize) -> Result<(), AllocError>
        requires behind { self.old.is_whole ≡ false → TellsAtMost place (told self.old.names) }
        requires room { place + 1 < 2 ^ 64 }
        ensures { OnOk result (NotesLine (option_copied name.entry) place self.old self.new) }
    {
        match name {
            Some(name) if !self.is_whole => self.names.add(name, place),
            _ => Ok(()),
        }
    }

    /// Whether a record has the name.
    #[tactic(auto, using(crate::proofs::KnownLemmas::has_told))]
    pub(crate) fn has<R: TableRecord>(&self, name: &[u8]) -> bool
        requires { IsWhole R.format self.now }
        ensures { result ≡ has_named R.format name.now (table_records R.format self.now.file.now) }
    {
        self.names.has(name)
    }

    /// Whether a record has the name, which is found soonest at this place, counted from 0: mostly
    /// a table and that of its hashes have their lines in one order.
    #[tactic(auto, using(crate::proofs::KnownLemmas::has_told))]
    pub(crate) fn has_near<R: TableRecord>(&self, name: &[u8], place: usize) -> bool
        requires { IsWhole R.format self.now }
        ensures { result ≡ has_named R.format name.now (table_records R.format self.now.file.now) }
    {
        self.names.has_near(name, place)
    }
}

/// What the check of passwd knows of other tables (pwck(8)).
#[derive(Drop)]
pub(crate) struct UserChecks<'h, 'g, 'a> {
    pub(crate) hashes: &'h NamedFile<'a>,
    pub(crate) groups: &'a Option<Bytes>,
    pub(crate) gids: &'g UsedIds,
    ghost of_hashes: { IsWhole shadow_format hashes.now },
    ghost of_gids: { AreThoseOf gids.now
        (map (λ group. group.gid) (table_records group_format groups.now)) },
}

impl<'h, 'g, 'a> UserChecks<'h, 'g, 'a> {
    /// Whether a group has the GID.
    #[tactic(auto, using(crate::proofs::KnownLemmas::gid_used))]
    pub(crate) fn has_gid(&self, gid: u32) -> bool
        ensures { result ≡ has_gid (table_records group_format self.now.groups.now) gid }
    {
        self.gids.holds(gid)
    }
}

/// What the check of shadow knows (pwck(8)).
#[derive(Drop)]
pub(crate) struct HashChecks<'n, 'l, 'a> {
    pub(crate) users: &'n NamedFile<'a>,
    pub(crate) lines: &'l HashLines<'a>,
    /// Today, in days since 1970-01-01.
    pub(crate) today: u32,
    ghost of_users: { IsWhole passwd_format users.now },
}

/// What the check of group knows of other tables (grpck(8)).
#[derive(Drop)]
pub(crate) struct GroupChecks<'u, 'n, 'a> {
    pub(crate) users: &'u NamedFile<'a>,
    pub(crate) hashes: &'n NamedFile<'a>,
    ghost of_users: { IsWhole passwd_format users.now },
    ghost of_hashes: { IsWhole gshadow_format hashes.now },
}

/// What the check of gshadow knows (grpck(8)).
#[derive(Drop)]
pub(crate) struct GroupHashChecks<'u, 'n, 'a> {
    pub(crate) users: &'u NamedFile<'a>,
    pub(crate) groups: &'n NamedFile<'a>,
    ghost of_users: { IsWhole passwd_format users.now },
    ghost of_groups: { IsWhole group_format groups.now },
}
