//! What the tokens of a text have said so far.

ghost use Rattle.std.specs.Prelude.{◌≡◌, ◌≢◌, ◌<◌, ◌∷◌, ◌^◌, suc, [], List, length, IfOk, OnOk};
ghost use Rattle.opb_text.specs.Words.{Text};
ghost use Rattle.opb_text.specs.Tokens as texts;
ghost use Rattle.opb_text.specs.Tokens.{End, Negated, Plain, tokens_on};
ghost use Rattle.opb_text.specs.Statements.{last_number, open_row, row_kinds};
ghost use Rattle.opb_text.specs.Reading.{going_on};
ghost use Rattle.opb_tokens.specs.Texts.{text_token};
ghost use Rattle.opb_reader.specs.Shapes.{IsReady};
ghost use Rattle.opb_reader.specs.Holding.{HoldColumns, HoldRows, Holds, IsSilent};
ghost use Rattle.opb_reader.specs.Reading.{HasEnded, HasHeard, TookLine, TookToken};

use crate::faults::least_fault;
use crate::places::behind;
use crate::rows::Rows;
use fractions::whole::Whole;
use mps_profile::row_kinds::RowKind;
use opb_columns::Columns;
use opb_text::{OpbFaultKind, Place};
use opb_tokens::{Token, first_word, is_comment, read_token};
use std::alloc::{AllocError, Global};

/// How far a text has come, and what its tokens have said.
#[derive(Drop)]
pub struct Reader {
    /// Where the next token stands.
    pub place: Place,
    /// Whether the last token is a literal.
    pub after_literal: bool,
    /// The number that the last token is, and 0 where it is none.
    pub number: Whole,
    /// What was said of rows.
    pub rows: Rows,
    /// What was said of columns.
    pub columns: Columns,
}

impl Reader {
    /// Before the first token.
    ///
    /// # Errors
    /// Where there is no memory.
    pub fn new(alloc: Global) -> Result<Reader, AllocError>
        ensures { IfOk result (λ reader. Holds [] reader) }
    {
        Ok(Reader {
            place: Place::Start,
            after_literal: false,
            number: Whole::natural(0),
            rows: Rows::new(alloc)?,
            columns: Columns::new(alloc),
        })
    }

    /// Takes a literal that is a column, with the number of its term.
    fn take_plain(&mut self, alloc: Global, name: &[u8]) -> Result<(), AllocError>
        ensures { (tokens : List texts.Token) → HoldRows tokens self.old.rows → HoldColumns tokens self.old.columns → self.old.number ≡ last_number tokens
            → OnOk result (HoldRows (Plain name.now ∷ tokens) self.new.rows × HoldColumns (Plain name.now ∷ tokens) self.new.columns) }
    {
        self.columns.take(alloc, name, self.number)?;
        Ok(())
    }

    /// Takes a literal that is 1 less a column, with the number of its term.
    fn take_negated(&mut self, alloc: Global, name: &[u8]) -> Result<(), AllocError>
        ensures { (tokens : List texts.Token) → HoldRows tokens self.old.rows → HoldColumns tokens self.old.columns → self.old.number ≡ last_number tokens
            → OnOk result (HoldRows (Negated name.now ∷ tokens) self.new.rows × HoldColumns (Negated name.now ∷ tokens) self.new.columns) }
    {
        self.rows.take_negated(self.number)?;
        self.columns.take(alloc, name, self.number.negated())?;
        Ok(())
    }

    /// Ends `min:`. It is false where a step of a sum is past the range.
    fn end_costs(&mut self) -> bool
        ensures { (tokens : List texts.Token) → HoldRows tokens self.old.rows → HoldColumns tokens self.old.columns → open_row tokens ≡ 0 → IsSilent tokens
            → HasEnded tokens result self.new.rows self.new.columns }
    {
        if !self.columns.sums_fit() {
            return false;
        }
        if !self.rows.end_costs() {
            return false;
        }
        self.columns.end_costs();
        true
    }

    /// Ends a constraint. It is false where a step of a sum, or of what is left of its right side, is past the range.
    fn end_constraint(&mut self, alloc: Global) -> Result<bool, AllocError>
        ensures { (tokens : List texts.Token) → HoldRows tokens self.old.rows → HoldColumns tokens self.old.columns → self.old.number ≡ last_number tokens
            → open_row tokens ≢ 0 → length (row_kinds tokens) ≡ suc (open_row tokens) → length tokens < 2 ^ 32
            → IfOk result (λ heard. HasEnded tokens heard self.new.rows self.new.columns) }
    {
        let id = self.rows.next_id();
        if !self.columns.sums_fit() {
            return Ok(false);
        }
        if !self.rows.end_constraint(alloc, self.number)? {
            return Ok(false);
        }
        self.columns.end_row(alloc, id)?;
        Ok(true)
    }

    /// Ends the statement that is open. It is false where a step of its sums is past the range.
    fn end(&mut self, alloc: Global) -> Result<bool, AllocError>
        ensures { (tokens : List texts.Token) → HoldRows tokens self.old.rows → HoldColumns tokens self.old.columns → self.old.number ≡ last_number tokens
            → IsReady End (open_row tokens) (length (row_kinds tokens)) (IsSilent tokens) → length tokens < 2 ^ 32
            → IfOk result (λ heard. HasEnded tokens heard self.new.rows self.new.columns) }
    {
        if self.rows.current == 0 {
            Ok(self.end_costs())
        } else {
            self.end_constraint(alloc)
        }
    }

    /// Hears what a token says of rows and columns. It is false where a statement ends that has a sum past the range.
    fn hear(&mut self, alloc: Global, token: &Token<'_>) -> Result<bool, AllocError>
        ensures { (tokens : List texts.Token) → HoldRows tokens self.old.rows → HoldColumns tokens self.old.columns → self.old.number ≡ last_number tokens
            → IsReady (text_token token.now) (open_row tokens) (length (row_kinds tokens)) (IsSilent tokens) → length tokens < 2 ^ 32
            → IfOk result (λ heard. HasHeard tokens (text_token token.now) heard self.new.rows self.new.columns) }
    {
        match token {
            Token::Minimum => self.rows.begin_costs(),
            Token::AtLeast => self.rows.take_relation(RowKind::AtLeast)?,
            Token::Equal => self.rows.take_relation(RowKind::Equal)?,
            Token::Plain(name) => self.take_plain(alloc, name)?,
            Token::Negated(name) => self.take_negated(alloc, name)?,
            Token::End => return self.end(alloc),
            Token::Number(_) | Token::Past | Token::Odd => {}
        }
        Ok(true)
    }

    /// Takes a token, or tells its fault.
    fn take(&mut self, alloc: Global, token: &Token<'_>) -> Result<Option<OpbFaultKind>, AllocError>
        ensures { (tokens : List texts.Token) → Holds tokens self.old → length tokens < 2 ^ 32 → TookToken tokens (text_token token.now) result self.new }
    {
        if let Some(kind) = token.fault(self.after_literal) {
            return Ok(Some(kind));
        }
        let Some(next) = behind(self.place, token) else {
            return Ok(Some(OpbFaultKind::BadStatement));
        };
        if !self.hear(alloc, token)? {
            return Ok(Some(OpbFaultKind::NumberPast));
        }
        self.place = next;
        self.after_literal = token.is_literal();
        self.number = token.number();
        Ok(None)
    }

    /// Takes the tokens of a line, or tells its fault with the lowest number.
    ///
    /// # Errors
    /// Where there is no memory.
    pub fn line(&mut self, alloc: Global, line: &[u8]) -> Result<Option<OpbFaultKind>, AllocError>
        ensures { (before : List texts.Token) → Holds before self.old → length (going_on before (tokens_on line.now)) < 2 ^ 32 → TookLine before (tokens_on line.now) result self.new }
    {
        if is_comment(line) {
            return Ok(None);
        }
        let mut rest = line;
        while let Some((word, more)) = first_word(rest) {
            let token = read_token(word);
            if let Some(kind) = self.take(alloc, &token)? {
                return Ok(Some(least_fault(kind, token.is_literal(), more)));
            }
            rest = more;
        }
        Ok(None)
    }
}
