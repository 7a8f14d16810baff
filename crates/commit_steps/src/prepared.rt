// A change that is ready to be committed: all that its steps write is there, and written in pieces.
ghost use Rattle.std.specs.Prelude.{◌≡◌, length, Some, IfOk, IsSome};
ghost use Rattle.acct_text.specs.Contents.{IsChange};
ghost use Rattle.acct_text.specs.Files.{table_of};
ghost use Rattle.intent_file.specs.Intent.{ReadsIntent, intent_text};
ghost use Rattle.intent_file.specs.Pieces.{intent_pieces};
ghost use Rattle.commit_steps.specs.States.{MakesChange, change_by, changed, intended, intent_piece, old_files};

use crate::reading::Loaded;
use acct_outside::Token;
use acct_text::{Bytes, NewTables, Tab};
use intent_file::{Intent, NewTable};
use std::alloc::{AllocError, Global};
use std::marker::Model;

/// The inputs, and the intent with the tables that differ and their new bytes. Its text isn't made, as
/// its pieces are parts of these; nor are the new files held: they are the old ones with these tables
/// in their place.
#[derive(Drop)]
pub(crate) struct Prepared {
    loaded: Loaded,
    intent: Intent,
}

impl Model for Prepared {
    ghost use Rattle.std.specs.Prelude.{◌≡◌};
    ghost use Rattle.acct_text.specs.Contents.{IsChange};
    ghost use Rattle.intent_file.specs.Intent.{ReadsIntent, intent_text};
    ghost use Rattle.commit_steps.specs.States.{Change, change_by, intended, new_files, old_files};

    ghost Value = { Change };

    ghost view = { λ prepared. change_by prepared.intent.tables prepared.loaded };

    ghost invariant = { λ prepared.
        let change : Change = change_by prepared.intent.tables prepared.loaded in
        IsChange (old_files change) (new_files change)
        × (prepared.intent ≡ intended change)
        × ReadsIntent (intent_text prepared.intent) prepared.intent };
}

impl Prepared {
    /// The change of what was read by these tables. The error says that memory ran out.
    pub(crate) fn new(alloc: Global, loaded: Loaded, new: NewTables) -> Result<Self, AllocError>
        requires { MakesChange new loaded.files }
        ensures { IfOk result (λ prepared. prepared ≡ change_by new loaded) }
    {
        let intent = Intent::of(alloc, loaded.keeper().number(), new.into_vec())?;
        Ok(Prepared { loaded, intent })
    }

    /// The token of its session.
    pub(crate) fn token(&self) -> &Token
        ensures { result.now ≡ self.now.inputs.keeper.token }
    {
        self.loaded.keeper().token()
    }

    /// The tables that differ, with their new bytes. The same tables are absent in both files.
    pub(crate) fn tables(&self) -> &[NewTable]
        ensures value { result.now ≡ changed self.now }
        ensures change { IsChange (table_of self.now.inputs.files) (table_of self.now.new) }
    {
        self.intent.tables()
    }

    /// How many pieces the text of the intent has.
    pub(crate) fn intent_pieces(&self) -> usize
        ensures { result ≡ length (intent_pieces (intended self.now)) }
    {
        self.intent.piece_count()
    }

    /// The piece of the intent's text at the place, from 0, and nothing past its end.
    pub(crate) fn intent_piece(&self, place: usize) -> &[u8]
        ensures value { result.now ≡ intent_piece place self.now }
        ensures reads { ReadsIntent (intent_text (intended self.now)) (intended self.now) }
    {
        match self.intent.piece(place) {
            Some(piece) => piece,
            None => &[],
        }
    }

    /// The bytes that the table had.
    pub(crate) fn old(&self, table: Tab) -> &Bytes
        requires { IsSome (old_files self.now table) }
        ensures { old_files self.now table ≡ Some result.now }
    {
        match self.loaded.files().table(table) {
            Some(bytes) => bytes,
            None => unreachable!(),
        }
    }

    /// The keeper again.
    pub(crate) fn into_loaded(self) -> Loaded
        ensures { result ≡ self.inputs }
    {
        self.loaded
    }
}
