// pwunconv and grpunconv (pwconv(8)): the hashes of users move from shadow to passwd, and those of groups
// from gshadow to group.
ghost use Rattle.std.specs.Prelude.{◌≡◌, ◌∷◌, [], IfOk, None, is_some, option_map};
ghost use Rattle.account_model.specs.Action.{changes, multiple_entries};
ghost use Rattle.account_model.specs.Conversion.{emptied, grpunconv, pwunconv, shown};
ghost use Rattle.account_model.specs.Edits.{Become, first_multiple};
ghost use Rattle.account_model.specs.Tables.{Script, files_after, table_after, table_records};
ghost use Rattle.acct_text.specs.ChangedTables.{changed_among, changed_tables};
ghost use Rattle.acct_text.specs.Files.{table_of};
ghost use Rattle.account_model.specs.declared.tool.Tool.{Tool};
ghost use Rattle.acct_text.specs.declared.files.Files.{Files};
ghost use Rattle.check_reports.specs.Converted.{Converts, IsPairOf, accounts_of, pair_multiple};
ghost use Rattle.check_reports.specs.Decided.{DecidesBy};
ghost use Rattle.check_reports.specs.Sorted.{IsOrderOf};

use crate::decision::{changed, push_sorted};
use crate::line_changes::{LineChange, first_met, walk};
use crate::printing::{PrintedLine, differs, push_text};
use crate::secrets::{AccountLine, Secrets};
use crate::sorting::ByPlace;
use account_model::{GroupRecord, GshadowRecord, PasswdRecord, Refusal, ShadowRecord, Tool};
use acct_lines::{GroupLine, GshadowLine, PasswdLine, ShadowLine, TableRecord};
use acct_tables::FileLine;
use acct_text::{Bytes, Files, NewTables, Tab};
use std::alloc::{AllocError, Global};
use tool_answers::{Decision, refuse};

/// Moves the hashes of shadow to passwd, and empties shadow.
pub fn pwunconv(alloc: Global, tool: Tool, files: &Files) -> Result<Decision, AllocError>
    ensures { IfOk result (DecidesBy tool (pwunconv files.now) files.now) }
{
    if files.shadow.is_none() {
        return refuse(alloc, tool, Refusal::NoShadow);
    }
    let pair = Pair {
        main: &files.passwd,
        hashes: &files.shadow,
        main_tab: Tab::Passwd,
        hashes_tab: Tab::Shadow,
    };
    shown::<PasswdRecord, PasswdLine, ShadowRecord, ShadowLine>(alloc, tool, &pair)
}

/// Moves the hashes of gshadow to group, and empties gshadow.
pub fn grpunconv(alloc: Global, tool: Tool, files: &Files) -> Result<Decision, AllocError>
    ensures { IfOk result (DecidesBy tool (grpunconv files.now) files.now) }
{
    if files.gshadow.is_none() {
        return refuse(alloc, tool, Refusal::NoGshadow);
    }
    let pair = Pair {
        main: &files.group,
        hashes: &files.gshadow,
        main_tab: Tab::Group,
        hashes_tab: Tab::Gshadow,
    };
    shown::<GroupRecord, GroupLine, GshadowRecord, GshadowLine>(alloc, tool, &pair)
}

/// A table and that of its hashes, with their names.
#[derive(Drop)]
pub(crate) struct Pair<'f> {
    pub(crate) main: &'f Option<Bytes>,
    pub(crate) hashes: &'f Option<Bytes>,
    pub(crate) main_tab: Tab,
    pub(crate) hashes_tab: Tab,
}

// Each record of the main table gets its hash as field, and all records of hashes go.
fn shown<'f, M: TableRecord, P: PrintedLine<'f, M>, H: TableRecord, L: AccountLine<'f, H>>(
    alloc: Global,
    tool: Tool,
    pair: &Pair<'f>,
) -> Result<Decision, AllocError>
    ensures { IfOk result (λ decision. (files : Files) (script : Script)
        → Converts M.format H.format
        (shown (accounts_of M.format H.format P.secret P.with_secret L.secret)
        (table_records H.format pair.now.hashes.now)) emptied pair.now script files
        → DecidesBy tool (changes [] script) files decision) }
{
    let hashes = walk::<H, L, Emptying>(alloc, pair.hashes, &Emptying)?;
    let showing = Showing {
        hashes: &hashes.secrets,
    };
    let main = walk::<M, P, Showing>(alloc, pair.main, &showing)?;
    let met = multiple::<M, P, H, L, Showing, Emptying>(
        alloc,
        pair,
        &main.secrets.order,
        &showing,
        &hashes.secrets.order,
        &Emptying,
    )?;
    if let Some(refusal) = met {
        return refuse(alloc, tool, refusal);
    }
    let new_main = file_with(pair.main, main.into_text());
    let new_hashes = file_with(pair.hashes, hashes.into_text());
    decided(alloc, pair, new_main, new_hashes)
}

/// The first name that the changes touch and of which its table has several.
pub(crate) fn multiple<
    'f,
    M: TableRecord,
    P: AccountLine<'f, M>,
    H: TableRecord,
    L: AccountLine<'f, H>,
    C: LineChange<'f, M, P>,
    D: LineChange<'f, H, L>,
>(
    alloc: Global,
    pair: &Pair<'f>,
    main_order: &ByPlace<'_>,
    main_change: &C,
    order: &ByPlace<'_>,
    change: &D,
) -> Result<Option<Refusal>, AllocError>
    requires main { IsOrderOf M.format (table_records M.format pair.now.main.now) main_order.now }
    requires hashes { IsOrderOf H.format (table_records H.format pair.now.hashes.now) order.now }
    ensures { IfOk result (λ refusal. refusal ≡ pair_multiple M.format H.format
        (Become (C.change main_change.now) ∷ []) (Become (D.change change.now) ∷ []) pair.now) }
{
    if let Some(name) = first_in_file::<M, P, C>(alloc, pair.main, main_order, main_change)? {
        return Ok(Some(Refusal::Multiple(pair.main_tab, name)));
    }
    match first_in_file::<H, L, D>(alloc, pair.hashes, order, change)? {
        Some(name) => Ok(Some(Refusal::Multiple(pair.hashes_tab, name))),
        None => Ok(None),
    }
}

// The name of the first record of a file that is touched and whose name has several.
fn first_in_file<'f, R: TableRecord, L: AccountLine<'f, R>, C: LineChange<'f, R, L>>(
    alloc: Global,
    file: &'f Option<Bytes>,
    order: &ByPlace<'_>,
    change: &C,
) -> Result<Option<Bytes>, AllocError>
    requires { IsOrderOf R.format (table_records R.format file.now) order.now }
    ensures { IfOk result (λ name. name ≡ first_multiple R.format
        (Become (C.change change.now) ∷ []) (table_records R.format file.now)) }
{
    match file {
        Some(text) => first_met::<R, L, C>(alloc, text.as_slice(), order, change),
        None => Ok(None),
    }
}

/// The new bytes of a file; an absent one stays absent.
pub(crate) fn file_with(file: &Option<Bytes>, text: Bytes) -> Option<Bytes>
    ensures { result ≡ option_map (λ _. text) file.now }
{
    match file {
        Some(_) => Some(text),
        None => None,
    }
}

/// The decision by the new bytes of both tables.
pub(crate) fn decided(
    alloc: Global,
    pair: &Pair<'_>,
    main: Option<Bytes>,
    hashes: Option<Bytes>,
) -> Result<Decision, AllocError>
    requires main { is_some main ≡ is_some pair.now.main.now }
    requires hashes { is_some hashes ≡ is_some pair.now.hashes.now }
    ensures { IfOk result (λ decision. (tool : Tool) (script : Script) (files : Files)
        → IsPairOf files pair.now → multiple_entries script files ≡ None
        → table_of (files_after script files) pair.now.main_tab ≡ main
        → table_of (files_after script files) pair.now.hashes_tab ≡ hashes
        → changed_among (pair.now.main_tab ∷ pair.now.hashes_tab ∷ []) (table_of files)
        (table_of (files_after script files))
        ≡ changed_tables (table_of files) (table_of (files_after script files))
        → DecidesBy tool (changes [] script) files decision) }
{
    let mut tables = NewTables::none(alloc);
    push_sorted(&mut tables, pair.main_tab, pair.main.as_ref(), main)?;
    push_sorted(&mut tables, pair.hashes_tab, pair.hashes.as_ref(), hashes)?;
    Ok(changed(alloc, tables))
}

/// Each record gets the text of another table under its name, where that has one.
#[derive(Drop)]
pub(crate) struct Showing<'h, 'a> {
    hashes: &'h Secrets<'a>,
}

impl<'l, 'h, 'a, M: TableRecord, P: PrintedLine<'l, M>> LineChange<'l, M, P> for Showing<'h, 'a> {
    ghost use Rattle.std.specs.Prelude.{[], ◌∷◌};
    ghost use Rattle.check_reports.specs.Secrets.{shown_by};

    ghost change = { λ showing m. shown_by M.format P.with_secret showing.hashes.now m ∷ [] };

    fn touches(&self, account: &P) -> bool {
        match self.hashes.get_near(account.name(), 0) {
            Some(hash) => differs::<M, P>(account, hash),
            None => false,
        }
    }

    fn push(
        &self,
        alloc: Global,
        made: &mut Bytes,
        account: &P,
        line: &FileLine<'l>,
        place: usize,
    ) -> Result<(), AllocError> {
        match self.hashes.get_near(account.name(), place) {
            Some(hash) => push_text::<M, P>(alloc, made, account, line, hash),
            None => line.push_to(made),
        }
    }
}

/// All records go.
pub(crate) struct Emptying;

impl<'l, H: TableRecord, L: AccountLine<'l, H>> LineChange<'l, H, L> for Emptying {
    ghost use Rattle.std.specs.Prelude.{true, [], ◌∷◌, if◌then◌else◌};

    ghost change = { λ _ h. if true then [] else h ∷ [] };

    fn touches(&self, _account: &L) -> bool {
        true
    }

    fn push(
        &self,
        _alloc: Global,
        _made: &mut Bytes,
        _account: &L,
        _line: &FileLine<'l>,
        _place: usize,
    ) -> Result<(), AllocError> {
        Ok(())
    }
}
