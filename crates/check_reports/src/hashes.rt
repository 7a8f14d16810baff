// The lines of shadow as pwck looks at them. Those that are kept are read once (shadow(5), pwck(8),
// `-r`).
ghost use Rattle.std.specs.Prelude.{◌≡◌, [], Some, option_map, IfOk, IfSome, MatchResult};
ghost use Rattle.account_model.specs.Faults.{shadow_fault};
ghost use Rattle.account_model.specs.Records.{shadow_format};
ghost use Rattle.acct_tables.specs.NameIndex.{TellsOf, line_names, told};
ghost use Rattle.account_model.specs.Tables.{table_lines};
ghost use Rattle.check_reports.specs.Hashes.{hash_in, seen_hash};

use acct_lines::{LineFault, ShadowLine, first_field};
use acct_tables::{Lines, NameIndex, text_of};
use acct_text::Bytes;
use std::alloc::{AllocError, Global};

// The greatest number of lines that are kept, which take some 25 MB: a file of 16 MiB may be all
// empty lines, of which each takes 48 bytes here. Those behind are read when they are asked for.
const MOST_LINES: usize = 300_000;

/// What pwck looks at in a record of shadow.
#[derive(Clone, Copy, Drop)]
pub(crate) struct Hash<'t> {
    /// The name of the user.
    pub(crate) name: &'t [u8],
    /// The day of the last change of the password, in days since 1970-01-01.
    pub(crate) last_change: Option<u32>,
}

impl<'t> Hash<'t> {
    // What the line has. The fault is its first.
    fn read(text: &'t [u8]) -> Result<Self, LineFault>
        ensures { MatchResult result (λ hash. hash_in text.now ≡ Some (seen_hash hash))
            (λ first. shadow_fault text.now ≡ Some first) }
    {
        let line = ShadowLine::read(text)?;
        let (name, last_change) = (line.name, line.last_change);
        Ok(Hash { name, last_change })
    }
}

// A line that was read.
#[derive(Drop)]
struct HashLine<'a> {
    text: &'a [u8],
    // what its record has; none at other text
    hash: Option<Hash<'a>>,
    ghost of_text: { hash_in text.now ≡ option_map seen_hash hash },
}

impl<'a> HashLine<'a> {
    // Reads a line.
    fn of(text: &'a [u8]) -> Self
        ensures { result.text.now ≡ text.now }
    {
        HashLine {
            text,
            hash: Hash::read(text).ok(),
        }
    }
}

/// The lines of a file from the first on, each of them read; `MOST_LINES` at most.
#[derive(Drop)]
pub(crate) struct HashLines<'a> {
    lines: Vec<HashLine<'a>>,
}

impl<'a> HashLines<'a> {
    /// Reads the lines of a file, which may be absent, and notes the names of its records.
    pub(crate) fn of(
        alloc: Global,
        file: &'a Option<Bytes>,
        names: &mut NameIndex<'a>,
    ) -> Result<Self, AllocError>
        requires { TellsOf [] (told names.old) }
        ensures { IfOk result (λ _. TellsOf (line_names shadow_format (table_lines file.now))
            (told names.new)) }
    {
        let mut lines = Vec::new(alloc);
        let mut place = 0usize;
        let mut left = Lines::of(text_of(file));
        'lines: while let Some(line) = left.take() {
            let read = HashLine::of(line.text);
            if let Some(hash) = read.hash {
                names.add(hash.name, place)?;
            }
            if place < MOST_LINES {
                lines.push(read)?;
            }
            place += 1;
        }
        Ok(HashLines { lines })
    }

    /// What the line with this text has. It isn't read again where it is kept at this place,
    /// counted from 0. The fault is the first of the line.
    pub(crate) fn read<'t>(&self, text: &'t [u8], place: usize) -> Result<Hash<'t>, LineFault>
        ensures { MatchResult result (λ hash. hash_in text.now ≡ Some (seen_hash hash))
            (λ first. shadow_fault text.now ≡ Some first) }
    {
        match self.kept(text, place) {
            Some(hash) => Ok(hash),
            None => Hash::read(text),
        }
    }

    // What the line with this text was found to have, if it is kept at this place.
    fn kept<'t>(&self, text: &'t [u8], place: usize) -> Option<Hash<'t>>
        ensures { IfSome result (λ hash. hash_in text.now ≡ Some (seen_hash hash)) }
    {
        let last_change = match self.lines.get(place) {
            Some(line) if line.text == text => line.hash?.last_change,
            _ => return None,
        };
        let name = first_field(text);
        Some(Hash { name, last_change })
    }
}
