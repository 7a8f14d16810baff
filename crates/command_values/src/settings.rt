// The settings of a command: those of login.defs(5), and the `-K` words behind them (useradd(8),
// groupadd(8)).
ghost use Rattle.std.specs.Prelude.{◌≡◌, not, IfOk, OnOk};
ghost use Rattle.std.specs.Bool.{OnTrue};
ghost use Rattle.account_model.specs.Settings.{is_setting_word, word_setting};
ghost use Rattle.account_model.specs.NewAccount.{settings_for};
ghost use Rattle.account_model.specs.Refusals.{refuse_if, bad_key};
ghost use Rattle.tool_answers.specs.Refusing.{RefusesBy};
ghost use Rattle.command_values.specs.Chosen.{AddsSettings, GivesId};
ghost use Rattle.login_defs.specs.Held.{AddsSetting};

use crate::asked::value_at;
use crate::{Asked, ToolFault};
use account_model::{IdSort, Kind, Refusal};
use acct_text::{Bytes, cut_once};
use id_choice::UsedIds;
use login_defs::Defs;
use std::alloc::Global;

impl Asked<'_> {
    /// The settings, and those of the `-K` words behind them.
    ///
    /// `BadKey` refuses the first word that isn't KEY=VALUE with a key of login.defs(5) and a value
    /// that it allows. `Memory` comes only where there is no room for that refusal.
    pub fn settings(&self, alloc: Global, defs: &Defs) -> Result<Defs, ToolFault>
        ensures refused { RefusesBy (bad_key self.now) result }
        ensures settings { IfOk result (AddsSettings (settings_for self.now) defs.now) }
    {
        let mut settings = *defs;
        for option in self.options() {
            if let Some(word) = value_at(option, b'K') {
                put_word(alloc, &mut settings, word)?;
            }
        }
        Ok(settings)
    }
}

// Puts the setting of a word behind the others, and refuses a word that is no setting.
fn put_word(alloc: Global, settings: &mut Defs, word: &[u8]) -> Result<(), ToolFault>
    ensures refused { RefusesBy
        (refuse_if (not (is_setting_word word.now)) (Refusal.BadKey word.now)) result }
    ensures put { OnOk result (AddsSetting settings.old settings.new (word_setting word.now)) }
{
    if set_word(settings, word) {
        return Ok(());
    }
    Err(ToolFault::Refused(Refusal::BadKey(Bytes::of(alloc, word)?)))
}

// Puts the setting of a word behind the others; false where the word is no setting.
fn set_word(settings: &mut Defs, word: &[u8]) -> bool
    ensures told { result ≡ is_setting_word word.now }
    ensures set { OnTrue result (AddsSetting settings.old settings.new (word_setting word.now)) }
{
    match cut_once(b'=', word) {
        Some(cut) => settings.with(cut.before, cut.behind).is_ok(),
        None => false,
    }
}

/// An ID that isn't used, chosen from the range of its sort and kind; none where there is no free
/// one (useradd(8), groupadd(8)).
pub fn free_id(sort: IdSort, kind: Kind, settings: &Defs, used: &UsedIds) -> Option<u32>
    ensures { GivesId sort kind settings.now used.now result }
{
    used.choose(settings.range(sort, kind), kind, None)
}
