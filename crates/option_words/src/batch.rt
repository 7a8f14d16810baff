// The lines of a batch, one after another: those that have words, and what they ask for.
ghost use Rattle.std.specs.Prelude.{◌≡◌, ◌≢◌, ◌∷◌, ◌+◌, ◌<◌, ◌≤◌, ℕ, [], length, true, IfOk, IfSome, MatchOption};
ghost use Rattle.acct_text.specs.Limits.{table_limit};
ghost use Rattle.account_model.specs.BatchLines.{batch_lines, first_faulty, line_asking, line_with};
ghost use Rattle.account_model.specs.LineWords.{split_line};
ghost use Rattle.account_model.specs.Words.{is_for_lines, request_as};
ghost use Rattle.account_model.specs.declared.words_of.WordsOf.{WordsOf};
ghost use Rattle.std.specs.List.{cons_option};
ghost use Rattle.option_words.specs.Batch.{IsForLines, lines_from, requests_of};

use crate::{Parsed, read_line_words, split_line};
use account_model::WordFault;
use acct_text::{Bytes, Sides, Word, cut_once};
use std::alloc::{AllocError, Global};
use std::marker::Model;

/// A line of a batch that isn't skipped and asks for nothing.
#[derive(Drop)]
pub struct FaultyLine {
    /// Its number among all lines of the input, from 1.
    pub number: u32,
    /// Its words; none where the fault is one of the line, `LineEnd` or `Unclosed`.
    pub words: Vec<Word>,
    /// Its first fault. It isn't `Memory`.
    pub fault: WordFault,
}

impl Model for FaultyLine {
    ghost use Rattle.account_model.specs.BatchLines.{FaultyLine as Faulty};

    ghost Value = { Faulty };

    ghost view = { λ faulty. record {
      number = faulty.number;
      words = faulty.words.items;
      fault = faulty.fault;
    } };
}

/// What a line of a batch asks for.
#[derive(Drop)]
pub struct LineRequest {
    /// Its number among all lines of the input, from 1.
    pub number: u32,
    /// What its words ask for, with an empty prefix.
    pub parsed: Parsed,
}

impl Model for LineRequest {
    ghost use Rattle.account_model.specs.BatchLines.{LineRequest as Asked};
    ghost use Rattle.option_words.specs.Parsed.{request_in};

    ghost Value = { Asked };

    ghost view = { λ line. record { number = line.number; request = request_in line.parsed } };
}

/// A line of a batch that isn't skipped: what it asks for, or that it asks for nothing.
pub type BatchLine = Result<LineRequest, FaultyLine>;

/// The lines of a batch that aren't skipped, of which each call takes the next. Only the words of
/// that one are kept, and all calls together take time linear in the bytes of the lines.
#[derive(Drop)]
pub struct BatchLines<'a> {
    alloc: Global,
    /// The bytes from the next line on.
    rest: &'a [u8],
    /// The number of the next line, from 1.
    number: u32,
}

impl<'a> Model for BatchLines<'a> {
    ghost use Rattle.std.specs.Prelude.{List, length, ◌≤◌, ◌+◌};
    ghost use Rattle.acct_text.specs.Limits.{table_limit};
    ghost use Rattle.account_model.specs.BatchLines.{BatchLine as Line};
    ghost use Rattle.option_words.specs.Batch.{lines_from};

    ghost Value = { List Line };

    ghost view = { λ lines. lines_from lines.number lines.rest.now };

    ghost invariant = { λ lines. lines.number + length lines.rest.now ≤ table_limit + 1 };
}

impl<'a> BatchLines<'a> {
    /// The lines of an input of at most 16,777,216 bytes.
    pub fn of(alloc: Global, input: &'a [u8]) -> Self
        requires { length input.now ≤ table_limit }
        ensures { result ≡ batch_lines input.now }
    {
        BatchLines {
            alloc,
            rest: input,
            number: 1,
        }
    }

    /// The next line that isn't skipped, and none behind the last.
    pub fn next_line(&mut self) -> Result<Option<BatchLine>, AllocError>
        ensures next { IfOk result (λ next.
            MatchOption next (self.old ≡ []) (λ line. self.old ≡ line ∷ self.new)) }
        ensures for_lines { IfOk result (λ next. IfSome next IsForLines) }
    {
        'lines: while !self.rest.is_empty() {
            let line = first_line(self.rest);
            let number = self.number;
            self.rest = line.behind;
            self.number += 1;
            if let Some(read) = read_line(self.alloc, number, line.before)? {
                return Ok(Some(read));
            }
        }
        Ok(None)
    }

    /// What the next line asks for, of those that ask for something, and none behind the last. A line
    /// asks a tool that changes tables.
    pub fn next_request(&mut self) -> Result<Option<LineRequest>, AllocError>
        ensures next { IfOk result (λ next. MatchOption next (requests_of self.old ≡ [])
            (λ line. requests_of self.old ≡ line ∷ requests_of self.new)) }
        ensures for_lines { IfOk result (λ next.
            IfSome next (λ line. is_for_lines line.request.tool ≡ true)) }
    {
        'lines: while let Some(line) = self.next_line()? {
            if let Ok(request) = line {
                return Ok(Some(request));
            }
        }
        Ok(None)
    }
}

/// The first line of the input, which has at most 16,777,216 bytes, that isn't skipped and asks for
/// nothing; none where each of them asks for something.
pub fn first_faulty(alloc: Global, input: &Bytes) -> Result<Option<FaultyLine>, AllocError>
    requires { length input.now ≤ table_limit }
    ensures { IfOk result (λ found. found ≡ first_faulty input.now) }
{
    let mut lines = BatchLines::of(alloc, input.as_slice());
    'lines: while let Some(line) = lines.next_line()? {
        if let Err(faulty) = line {
            return Ok(Some(faulty));
        }
    }
    Ok(None)
}

// The line of this number and text, where it isn't skipped.
fn read_line(alloc: Global, number: u32, line: &[u8]) -> Result<Option<BatchLine>, AllocError>
    ensures { IfOk result (λ read. read ≡ line_with number (split_line line.now)) }
{
    match split_line(alloc, line) {
        Ok(words) => {
            if words.is_empty() {
                return Ok(None);
            }
            Ok(Some(line_asking(alloc, number, words)?))
        }
        Err(fault) => {
            let fault = told(fault)?;
            let words = Vec::new(alloc);
            Ok(Some(Err(FaultyLine {
                number,
                words,
                fault,
            })))
        }
    }
}

// The line of this number and these words.
fn line_asking(alloc: Global, number: u32, words: Vec<Word>) -> Result<BatchLine, AllocError>
    ensures { IfOk result (λ line. line ≡ line_asking number words.items
        (request_as WordsOf.Line words.items)) }
{
    match read_line_words(alloc, words.as_slice()) {
        Ok(parsed) => Ok(Ok(LineRequest { number, parsed })),
        Err(fault) => {
            let fault = told(fault)?;
            Ok(Err(FaultyLine {
                number,
                words,
                fault,
            }))
        }
    }
}

// The fault, where it is one of the line or its words; the error says that it was want of memory.
fn told(fault: WordFault) -> Result<WordFault, AllocError>
    ensures { IfOk result (λ found. (found ≡ fault) × (fault ≢ WordFault.Memory)) }
{
    match fault {
        WordFault::Memory => Err(AllocError),
        _ => Ok(fault),
    }
}

// The first line of a text, without its newline, and what stands behind that.
fn first_line(text: &[u8]) -> Sides<'_>
    requires { 0 < length text.now }
    ensures line { (number : ℕ) → lines_from number text.now
        ≡ cons_option (line_with number (split_line result.before.now))
        (lines_from (number + 1) result.behind.now) }
    ensures shorter { length result.behind.now < length text.now }
{
    match cut_once(b'\n', text) {
        Some(cut) => cut,
        None => Sides {
            before: text,
            behind: b"",
        },
    }
}
