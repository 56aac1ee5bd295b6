//! Logical lines: indentation, brackets that are open, and line ends that end a line.

ghost use Rattle.std.specs.Prelude.{ℕ, false, IfErr, ◌==◌, ◌&&◌, not, nat_lt, ◌≡◌, ◌+◌, ◌*◌, ◌/◌, ◌++◌, List, [], ◌∷◌, length, string_bytes, Option, IfOk, OnOk, IfSome, None};
ghost use Rattle.py_tokens.specs.Token as meaning;
ghost use Rattle.py_tokens.specs.Lexeme as meaning_lexeme;
ghost use Rattle.py_tokens.specs.Lines as meaning_lines;
ghost use Rattle.py_tokens.specs.Tokens.{token, indented, indented_from, dedents, merged_outcome};
ghost use Rattle.py_tokens.specs.Characters.{Text};
ghost use Rattle.py_lexer.specs.PlainTokens.{plain_place, plain_kind, plain_token, plain_tokens, operator_text};
ghost use Rattle.py_lexer.specs.PlainLexemes.{plain_word, plain_fault, plain_lexeme};
ghost use Rattle.py_lexer.specs.Reading.{AreTokens, IsRefused, Extends};
ghost use Rattle.py_lexer.specs.Numbering.{numbers_of, number_behind, Numbers};
ghost use Rattle.py_lexer.specs.Ahead.{located, opened_by, back_to, is_text, is_bracket, Follows, Apart, Blanks, lines_from};
ghost use Rattle.py_lexer.specs.Wanted.{plain_widths, plain_sofar, IsSide, opening_text, closing_text, followed, ahead, Turned, IsApart};

use crate::lexeme::{Fault, Lexeme, Word};
use crate::refusal::LexRefusal;
use crate::token::{Operator, Token, TokenKind};
use shed_base::{Names, Place};
use sqlite_items::Items;
use std::alloc::{AllocError, Global};

/// The width of an indentation, with tabs that go on to the next multiple of eight, and with a tab as one.
#[derive(Clone, Copy, Debug)]
pub(crate) struct Widths {
    pub eights: u32,
    pub ones: u32,
}

/// How far a logical line has come.
#[derive(Clone, Copy, Debug)]
pub(crate) enum Progress {
    /// Blanks of these widths have come, and nothing else.
    Fresh(Widths),
    /// A comment or a joined line has come too: no further blank counts.
    Settled(Widths),
    /// A word has come.
    Begun,
}

#[derive(Clone, Copy, Debug)]
pub(crate) enum Bracket {
    Round,
    Square,
    Curly,
}

/// What an operator is to brackets.
#[derive(Clone, Copy, Debug)]
pub(crate) enum Side {
    Opening(Bracket),
    Closing(Bracket),
    Neither,
}

/// A bracket that is open.
#[derive(Clone, Copy, Debug)]
pub(crate) struct Open {
    pub place: Place,
    pub bracket: Bracket,
}

/// The tokens so far, and the open levels of indentation.
#[derive(Drop)]
pub(crate) struct Output {
    pub tokens: Vec<Token>,
    pub innermost: Widths,
    /// The other levels, the outermost first.
    pub outer: Vec<Widths>,
}

/// What the text has given so far.
#[derive(Drop)]
pub(crate) struct Lines {
    pub output: Output,
    /// Brackets that are open, the innermost last.
    pub pending: Vec<Open>,
    pub progress: Progress,
    /// The place of the last NEWLINE.
    pub last: Place,
}

/// `n + 1`, or an error where no `u32` can hold it.
fn next(n: u32) -> Result<u32, AllocError>
    ensures { IfOk result (λ r. r ≡ n + 1) }
{
    n.checked_add(1).ok_or(AllocError)
}

/// The next multiple of eight.
fn next_stop(n: u32) -> Result<u32, AllocError>
    ensures { IfOk result (λ r. r ≡ (n / 8 + 1) * 8) }
{
    let stops = next(n / 8)?;
    stops.checked_mul(8).ok_or(AllocError)
}

/// The place behind some characters.
pub(crate) fn place_behind(place: Place, passed: &[char]) -> Result<Place, AllocError>
    ensures { IfOk result (λ q. plain_place q ≡ meaning.place_after (plain_place place) passed.now) }
{
    let mut behind = place;
    let mut rest = passed;
    while let [first, others @ ..] = rest {
        behind = place_next(behind, *first)?;
        rest = others;
    }
    Ok(behind)
}

fn place_next(place: Place, c: char) -> Result<Place, AllocError>
    ensures { IfOk result (λ q. plain_place q ≡ meaning.next_place (plain_place place) c) }
{
    if c == '\n' {
        Ok(Place {
            module: place.module,
            line: next(place.line)?,
            column: 1,
        })
    } else {
        Ok(Place {
            module: place.module,
            line: place.line,
            column: next(place.column)?,
        })
    }
}

impl Widths {
    const NONE: Widths = Widths { eights: 0, ones: 0 };

    fn is_same(self, other: Widths) -> bool
        ensures { result ≡ ((self.eights == other.eights) && (self.ones == other.ones)) }
    {
        self.eights == other.eights && self.ones == other.ones
    }

    /// Neither width is the other's.
    fn is_other(self, other: Widths) -> bool
        ensures { result ≡ (not (self.eights == other.eights) && not (self.ones == other.ones)) }
    {
        self.eights != other.eights && self.ones != other.ones
    }

    fn is_narrower(self, other: Widths) -> bool
        ensures { result ≡ (nat_lt self.eights other.eights && nat_lt self.ones other.ones) }
    {
        self.eights < other.eights && self.ones < other.ones
    }

    fn wider(self, c: char) -> Result<Widths, AllocError>
        ensures { IfOk result (λ w. plain_widths w ≡ meaning_lines.wider (plain_widths self) c) }
    {
        let eights = if c == '\t' {
            next_stop(self.eights)?
        } else {
            next(self.eights)?
        };
        let ones = next(self.ones)?;
        Ok(Widths { eights, ones })
    }
}

fn side_of(operator: Operator) -> Side
    ensures { IsSide (operator_text operator) result }
{
    match operator {
        Operator::OpenParenthesis => Side::Opening(Bracket::Round),
        Operator::OpenBracket => Side::Opening(Bracket::Square),
        Operator::OpenBrace => Side::Opening(Bracket::Curly),
        Operator::CloseParenthesis => Side::Closing(Bracket::Round),
        Operator::CloseBracket => Side::Closing(Bracket::Square),
        Operator::CloseBrace => Side::Closing(Bracket::Curly),
        _ => Side::Neither,
    }
}

impl Output {
    fn new(alloc: Global) -> Output
        ensures tokens { result.tokens.items ≡ [] }
        ensures innermost { plain_widths result.innermost ≡ meaning_lines.no_width }
        ensures outer { result.outer.items ≡ [] }
    {
        Output {
            tokens: Vec::new(alloc),
            innermost: Widths::NONE,
            outer: Vec::new(alloc),
        }
    }

    fn push(&mut self, place: Place, kind: TokenKind) -> Result<(), AllocError>
        ensures tokens { OnOk result ((texts : List (List ℕ)) → plain_tokens texts self.new.tokens.items ≡ plain_tokens texts self.old.tokens.items ++ token (plain_place place) (plain_kind texts kind) ∷ []) }
        ensures innermost { self.new.innermost ≡ self.old.innermost }
        ensures outer { self.new.outer ≡ self.old.outer }
        ensures numbers { OnOk result (numbers_of self.new.tokens.items ≡ number_behind (numbers_of self.old.tokens.items) kind) }
    {
        self.tokens.push(Token { place, kind })?;
        Ok(())
    }

    /// A text, which is one with a text just before it.
    fn push_text(&mut self, place: Place, text: Items<u8>) -> Result<(), AllocError>
        ensures follows { OnOk result ((texts : List (List ℕ)) → Follows (plain_tokens texts self.old.tokens.items) (plain_tokens texts self.new.tokens.items) (token (plain_place place) (meaning.TText text))) }
        ensures innermost { self.new.innermost ≡ self.old.innermost }
        ensures outer { self.new.outer ≡ self.old.outer }
        ensures apart { OnOk result (IsApart self.old → IsApart self.new) }
        ensures numbers { OnOk result (numbers_of self.new.tokens.items ≡ numbers_of self.old.tokens.items) }
    {
        match self.tokens.pop() {
            Some(last) => self.push_behind(last, place, text),
            None => self.push(place, TokenKind::Text(text)),
        }
    }

    fn push_behind(&mut self, last: Token, place: Place, text: Items<u8>) -> Result<(), AllocError>
        ensures follows { OnOk result ((texts : List (List ℕ)) → Follows (plain_tokens texts self.old.tokens.items ++ plain_token texts last ∷ []) (plain_tokens texts self.new.tokens.items) (token (plain_place place) (meaning.TText text))) }
        ensures innermost { self.new.innermost ≡ self.old.innermost }
        ensures outer { self.new.outer ≡ self.old.outer }
        ensures apart { OnOk result (((texts : List (List ℕ)) → Apart (plain_tokens texts self.old.tokens.items ++ plain_token texts last ∷ [])) → IsApart self.new) }
        ensures numbers { OnOk result (numbers_of self.new.tokens.items ≡ number_behind (numbers_of self.old.tokens.items) last.kind) }
    {
        let Token {
            place: before,
            kind,
        } = last;
        match kind {
            TokenKind::Text(longer) => {
                let mut longer = longer;
                longer.append(text)?;
                self.push(before, TokenKind::Text(longer))
            }
            other => {
                self.push(before, other)?;
                self.push(place, TokenKind::Text(text))
            }
        }
    }

    /// Ends the levels that are wider than a line.
    fn dedent(&mut self, place: Place, widths: Widths) -> Result<Option<LexRefusal>, AllocError>
        ensures value { IfOk result (λ r. (texts : List (List ℕ)) (go : List meaning_lines.Widths → meaning.Outcome) → Turned r (followed texts self.new go) (followed texts self.old (λ levels. indented (back_to (plain_widths widths) levels) (plain_place place) (plain_widths widths) levels go))) }
        ensures apart { OnOk result (IsApart self.old → IsApart self.new) }
        ensures numbers { OnOk result (numbers_of self.new.tokens.items ≡ numbers_of self.old.tokens.items) }
    {
        while self.innermost.is_other(widths) {
            match self.outer.pop() {
                None => return Ok(Some(LexRefusal::BadIndent(place))),
                Some(level) => {
                    self.push(place, TokenKind::Dedent)?;
                    self.innermost = level;
                }
            }
        }
        if !self.innermost.is_same(widths) {
            return Ok(Some(LexRefusal::MixedTabs(place)));
        }
        Ok(None)
    }

    /// Begins or ends levels before the first word of a line.
    fn indent(&mut self, place: Place, widths: Widths) -> Result<Option<LexRefusal>, AllocError>
        ensures value { IfOk result (λ r. (texts : List (List ℕ)) (go : List meaning_lines.Widths → meaning.Outcome) → Turned r (followed texts self.new go) (followed texts self.old (λ levels. indented (indented_from (plain_widths widths) levels) (plain_place place) (plain_widths widths) levels go))) }
        ensures apart { OnOk result (IsApart self.old → IsApart self.new) }
        ensures numbers { OnOk result (numbers_of self.new.tokens.items ≡ numbers_of self.old.tokens.items) }
    {
        let top = self.innermost;
        if widths.is_same(top) {
            return Ok(None);
        }
        if top.is_narrower(widths) {
            self.push(place, TokenKind::Indent)?;
            self.outer.push(top)?;
            self.innermost = widths;
            return Ok(None);
        }
        if widths.is_narrower(top) {
            return self.dedent(place, widths);
        }
        Ok(Some(LexRefusal::MixedTabs(place)))
    }

    /// Begins or ends levels before a word, where it is the first of its line.
    fn open_line(
        &mut self,
        place: Place,
        progress: Progress,
    ) -> Result<Option<LexRefusal>, AllocError>
        ensures value { IfOk result (λ r. (texts : List (List ℕ)) (go : List meaning_lines.Widths → meaning.Outcome) → Turned r (followed texts self.new go) (followed texts self.old (λ levels. opened_by (plain_sofar progress) (plain_place place) levels go))) }
        ensures apart { OnOk result (IsApart self.old → IsApart self.new) }
        ensures numbers { OnOk result (numbers_of self.new.tokens.items ≡ numbers_of self.old.tokens.items) }
    {
        match progress {
            Progress::Fresh(widths) => self.indent(place, widths),
            Progress::Settled(widths) => self.indent(place, widths),
            Progress::Begun => Ok(None),
        }
    }

    /// The tokens, at the end of the text, where the last NEWLINE has a place.
    fn closed(mut self, last: Place) -> Result<Vec<Token>, AllocError>
        ensures tokens { IfOk result (λ ts. (texts : List (List ℕ)) → plain_tokens texts ts.items ≡ plain_tokens texts self.tokens.items ++ dedents (plain_place last) (length self.outer.items)) }
        ensures apart { IfOk result (λ ts. IsApart self → (texts : List (List ℕ)) → Apart (plain_tokens texts ts.items)) }
        ensures numbers { IfOk result (λ ts. numbers_of ts.items ≡ numbers_of self.tokens.items) }
    {
        self.close(last)?;
        Ok(self.tokens)
    }

    /// Ends all levels, at the end of the text.
    fn close(&mut self, last: Place) -> Result<(), AllocError>
        ensures tokens { OnOk result ((texts : List (List ℕ)) → plain_tokens texts self.new.tokens.items ≡ plain_tokens texts self.old.tokens.items ++ dedents (plain_place last) (length self.old.outer.items)) }
        ensures apart { OnOk result (IsApart self.old → IsApart self.new) }
        ensures numbers { OnOk result (numbers_of self.new.tokens.items ≡ numbers_of self.old.tokens.items) }
    {
        while let Some(_level) = self.outer.pop() {
            self.push(last, TokenKind::Dedent)?;
        }
        Ok(())
    }
}

/// Whether the second bracket closes the first.
fn is_closed_by(first: Bracket, second: Bracket) -> bool
    ensures { result ≡ meaning_lines.are_partners (opening_text first) (closing_text second) }
{
    match first {
        Bracket::Round => matches!(second, Bracket::Round),
        Bracket::Square => matches!(second, Bracket::Square),
        Bracket::Curly => matches!(second, Bracket::Curly),
    }
}

fn refusal_of(fault: Fault, place: Place) -> LexRefusal
    ensures { IsRefused (meaning.Refused (plain_fault fault) (plain_place place)) result }
{
    match fault {
        Fault::BadCharacter => LexRefusal::BadCharacter(place),
        Fault::UnclosedText => LexRefusal::UnclosedText(place),
        Fault::BadEscape => LexRefusal::BadEscape(place),
        Fault::WideNumber => LexRefusal::WideNumber(place),
        Fault::NonAsciiText => LexRefusal::NonAsciiText(place),
        Fault::NotNormal => LexRefusal::NotNormal(place),
        Fault::TooLong => LexRefusal::TooLong(place),
    }
}

impl Lines {
    pub fn new(alloc: Global, beginning: Place) -> Lines
        ensures value { (texts : List (List ℕ)) (end : meaning.Place) (items : List meaning_lines.Located) → ahead texts result end items ≡ merged_outcome (lines_from (Blanks meaning_lines.no_width) (meaning_lines.no_width ∷ []) (plain_place beginning) (meaning_lines.lines_of end (meaning_lines.bracketed [] items))) }
        ensures apart { IsApart result.output }
        ensures numbers { numbers_of result.output.tokens.items ≡ [] }
    {
        Lines {
            output: Output::new(alloc),
            pending: Vec::new(alloc),
            progress: Progress::Fresh(Widths::NONE),
            last: beginning,
        }
    }

    fn blank(&mut self, c: char) -> Result<(), AllocError>
        ensures value { OnOk result ((texts : List (List ℕ)) (end p : meaning.Place) (s : Text) (items : List meaning_lines.Located) → ahead texts self.old end (located p (meaning_lexeme.Blank c) s ∷ items) ≡ ahead texts self.new end items) }
        ensures output { self.new.output ≡ self.old.output }
    {
        match self.progress {
            Progress::Fresh(widths) => self.progress = Progress::Fresh(widths.wider(c)?),
            Progress::Settled(_) => {}
            Progress::Begun => {}
        }
        Ok(())
    }

    /// A comment, or a line end that is taken away.
    fn nothing(&mut self)
        ensures value { (texts : List (List ℕ)) (end p : meaning.Place) (s : Text) (items : List meaning_lines.Located) → ahead texts self.old end (located p meaning_lexeme.Nothing s ∷ items) ≡ ahead texts self.new end items }
        ensures output { self.new.output ≡ self.old.output }
    {
        match self.progress {
            Progress::Fresh(widths) => self.progress = Progress::Settled(widths),
            Progress::Settled(_) => {}
            Progress::Begun => {}
        }
    }

    fn line_end(&mut self, place: Place) -> Result<(), AllocError>
        ensures value { OnOk result ((texts : List (List ℕ)) (end : meaning.Place) (s : Text) (items : List meaning_lines.Located) → ahead texts self.old end (located (plain_place place) meaning_lexeme.LineEnd s ∷ items) ≡ ahead texts self.new end items) }
        ensures apart { OnOk result (IsApart self.old.output → IsApart self.new.output) }
        ensures numbers { OnOk result (numbers_of self.new.output.tokens.items ≡ numbers_of self.old.output.tokens.items) }
    {
        if self.pending.len() > 0 {
            return Ok(());
        }
        match self.progress {
            Progress::Fresh(_) => self.progress = Progress::Fresh(Widths::NONE),
            Progress::Settled(_) => self.progress = Progress::Fresh(Widths::NONE),
            Progress::Begun => {
                self.output.push(place, TokenKind::Newline)?;
                self.last = place;
                self.progress = Progress::Fresh(Widths::NONE);
            }
        }
        Ok(())
    }

    /// A word that is no bracket and no text.
    fn plain(&mut self, place: Place, kind: TokenKind) -> Result<Option<LexRefusal>, AllocError>
        requires { self.old.progress ≡ Progress.Begun }
        ensures value { IfOk result (λ r. (texts : List (List ℕ)) (end : meaning.Place) (s : Text) (items : List meaning_lines.Located) → is_bracket (plain_kind texts kind) ≡ false → Turned r (ahead texts self.new end items) (ahead texts self.old end (located (plain_place place) (meaning_lexeme.Word (plain_kind texts kind)) s ∷ items))) }
        ensures apart { OnOk result (((texts : List (List ℕ)) → is_text (plain_kind texts kind) ≡ false) → IsApart self.old.output → IsApart self.new.output) }
        ensures numbers { OnOk result (numbers_of self.new.output.tokens.items ≡ number_behind (numbers_of self.old.output.tokens.items) kind) }
    {
        self.output.push(place, kind)?;
        Ok(None)
    }

    fn text(&mut self, place: Place, text: Items<u8>) -> Result<Option<LexRefusal>, AllocError>
        requires { self.old.progress ≡ Progress.Begun }
        ensures value { IfOk result (λ r. (texts : List (List ℕ)) (end : meaning.Place) (s : Text) (items : List meaning_lines.Located) → Turned r (ahead texts self.new end items) (ahead texts self.old end (located (plain_place place) (meaning_lexeme.Word (meaning.TText text)) s ∷ items))) }
        ensures apart { OnOk result (IsApart self.old.output → IsApart self.new.output) }
        ensures numbers { OnOk result (numbers_of self.new.output.tokens.items ≡ numbers_of self.old.output.tokens.items) }
    {
        self.output.push_text(place, text)?;
        Ok(None)
    }

    fn opening(
        &mut self,
        place: Place,
        operator: Operator,
        bracket: Bracket,
    ) -> Result<Option<LexRefusal>, AllocError>
        requires begun { self.old.progress ≡ Progress.Begun }
        requires bracket { operator_text operator ≡ opening_text bracket }
        ensures value { IfOk result (λ r. (texts : List (List ℕ)) (end : meaning.Place) (s : Text) (items : List meaning_lines.Located) → Turned r (ahead texts self.new end items) (ahead texts self.old end (located (plain_place place) (meaning_lexeme.Word (meaning.TOperator (operator_text operator))) s ∷ items))) }
        ensures apart { OnOk result (IsApart self.old.output → IsApart self.new.output) }
        ensures numbers { OnOk result (numbers_of self.new.output.tokens.items ≡ numbers_of self.old.output.tokens.items) }
    {
        self.output.push(place, TokenKind::Operator(operator))?;
        self.pending.push(Open { place, bracket })?;
        Ok(None)
    }

    fn closing(
        &mut self,
        place: Place,
        operator: Operator,
        bracket: Bracket,
    ) -> Result<Option<LexRefusal>, AllocError>
        requires begun { self.old.progress ≡ Progress.Begun }
        requires bracket { operator_text operator ≡ closing_text bracket }
        ensures value { IfOk result (λ r. (texts : List (List ℕ)) (end : meaning.Place) (s : Text) (items : List meaning_lines.Located) → Turned r (ahead texts self.new end items) (ahead texts self.old end (located (plain_place place) (meaning_lexeme.Word (meaning.TOperator (operator_text operator))) s ∷ items))) }
        ensures apart { OnOk result (IsApart self.old.output → IsApart self.new.output) }
        ensures numbers { OnOk result (numbers_of self.new.output.tokens.items ≡ numbers_of self.old.output.tokens.items) }
    {
        match self.pending.pop() {
            None => Ok(Some(LexRefusal::UnclosedBracket(place))),
            Some(open) => {
                if !is_closed_by(open.bracket, bracket) {
                    return Ok(Some(LexRefusal::UnclosedBracket(place)));
                }
                self.output.push(place, TokenKind::Operator(operator))?;
                Ok(None)
            }
        }
    }

    fn operator(
        &mut self,
        place: Place,
        operator: Operator,
    ) -> Result<Option<LexRefusal>, AllocError>
        requires { self.old.progress ≡ Progress.Begun }
        ensures value { IfOk result (λ r. (texts : List (List ℕ)) (end : meaning.Place) (s : Text) (items : List meaning_lines.Located) → Turned r (ahead texts self.new end items) (ahead texts self.old end (located (plain_place place) (meaning_lexeme.Word (meaning.TOperator (operator_text operator))) s ∷ items))) }
        ensures apart { OnOk result (IsApart self.old.output → IsApart self.new.output) }
        ensures numbers { OnOk result (numbers_of self.new.output.tokens.items ≡ numbers_of self.old.output.tokens.items) }
    {
        match side_of(operator) {
            Side::Opening(bracket) => self.opening(place, operator, bracket),
            Side::Closing(bracket) => self.closing(place, operator, bracket),
            Side::Neither => self.plain(place, TokenKind::Operator(operator)),
        }
    }

    fn name(
        &mut self,
        place: Place,
        name: String,
        names: &mut Names,
    ) -> Result<Option<LexRefusal>, AllocError>
        requires { self.old.progress ≡ Progress.Begun }
        ensures value { IfOk result (λ r. (texts : List (List ℕ)) (end : meaning.Place) (s : Text) (items : List meaning_lines.Located) → Extends names.new texts → Turned r (ahead texts self.new end items) (ahead texts self.old end (located (plain_place place) (meaning_lexeme.Word (meaning.TName (string_bytes name))) s ∷ items))) }
        ensures apart { OnOk result (IsApart self.old.output → IsApart self.new.output) }
        ensures names { Extends names.old names.new }
        ensures numbered { OnOk result (Numbers names.old self.old.output names.new self.new.output) }
    {
        match names.intern(name.as_str()) {
            Ok(number) => self.plain(place, TokenKind::Name(number)),
            Err(_) => Err(AllocError),
        }
    }

    /// A word, where it is not the first of its line.
    fn further_word(
        &mut self,
        place: Place,
        word: Word,
        names: &mut Names,
    ) -> Result<Option<LexRefusal>, AllocError>
        requires { self.old.progress ≡ Progress.Begun }
        ensures value { IfOk result (λ r. (texts : List (List ℕ)) (end : meaning.Place) (s : Text) (items : List meaning_lines.Located) → Extends names.new texts → Turned r (ahead texts self.new end items) (ahead texts self.old end (located (plain_place place) (meaning_lexeme.Word (plain_word word)) s ∷ items))) }
        ensures apart { OnOk result (IsApart self.old.output → IsApart self.new.output) }
        ensures names { Extends names.old names.new }
        ensures numbered { OnOk result (Numbers names.old self.old.output names.new self.new.output) }
    {
        match word {
            Word::Name(name) => self.name(place, name, names),
            Word::Keyword(keyword) => self.plain(place, TokenKind::Keyword(keyword)),
            Word::Operator(operator) => self.operator(place, operator),
            Word::Number(value) => self.plain(place, TokenKind::Number(value)),
            Word::Text(text) => self.text(place, text),
            Word::Float => self.plain(place, TokenKind::Float),
            Word::Imaginary => self.plain(place, TokenKind::Imaginary),
            Word::Bytes => self.plain(place, TokenKind::Bytes),
            Word::Formatted => self.plain(place, TokenKind::Formatted),
        }
    }

    fn word(
        &mut self,
        place: Place,
        word: Word,
        names: &mut Names,
    ) -> Result<Option<LexRefusal>, AllocError>
        ensures value { IfOk result (λ r. (texts : List (List ℕ)) (end : meaning.Place) (s : Text) (items : List meaning_lines.Located) → Extends names.new texts → Turned r (ahead texts self.new end items) (ahead texts self.old end (located (plain_place place) (meaning_lexeme.Word (plain_word word)) s ∷ items))) }
        ensures apart { OnOk result (IsApart self.old.output → IsApart self.new.output) }
        ensures names { Extends names.old names.new }
        ensures numbered { OnOk result (Numbers names.old self.old.output names.new self.new.output) }
    {
        match self.output.open_line(place, self.progress)? {
            Some(refusal) => Ok(Some(refusal)),
            None => {
                self.progress = Progress::Begun;
                self.further_word(place, word, names)
            }
        }
    }

    /// Where no token can be formed, and so many characters stand before the wrong one.
    fn broken(
        &mut self,
        place: Place,
        fault: Fault,
        before: usize,
        rest: &[char],
    ) -> Result<LexRefusal, AllocError>
        ensures { IfOk result (λ refusal. (texts : List (List ℕ)) (end : meaning.Place) (items : List meaning_lines.Located) → IsRefused (ahead texts self.old end (located (plain_place place) (meaning_lexeme.Broken (plain_fault fault) before) rest.now ∷ items)) refusal) }
    {
        match self.output.open_line(place, self.progress)? {
            Some(refusal) => Ok(refusal),
            None => {
                if before > rest.len() {
                    return Err(AllocError);
                }
                let (front, _) = rest.split_at(before);
                let wrong = place_behind(place, front)?;
                Ok(refusal_of(fault, wrong))
            }
        }
    }

    /// Takes what stands at the front of a text.
    pub fn turn(
        &mut self,
        place: Place,
        lexeme: Lexeme,
        rest: &[char],
        names: &mut Names,
    ) -> Result<Option<LexRefusal>, AllocError>
        ensures value { IfOk result (λ r. (texts : List (List ℕ)) (end : meaning.Place) (items : List meaning_lines.Located) → Extends names.new texts → Turned r (ahead texts self.new end items) (ahead texts self.old end (located (plain_place place) (plain_lexeme lexeme) rest.now ∷ items))) }
        ensures apart { IfOk result (λ r. r ≡ None → IsApart self.old.output → IsApart self.new.output) }
        ensures names { Extends names.old names.new }
        ensures numbered { IfOk result (λ r. r ≡ None → Numbers names.old self.old.output names.new self.new.output) }
    {
        match lexeme {
            Lexeme::Blank(c) => {
                self.blank(c)?;
                Ok(None)
            }
            Lexeme::Nothing => {
                self.nothing();
                Ok(None)
            }
            Lexeme::LineEnd => {
                self.line_end(place)?;
                Ok(None)
            }
            Lexeme::Word(word) => self.word(place, word, names),
            Lexeme::Broken(fault, before) => Ok(Some(self.broken(place, fault, before, rest)?)),
        }
    }

    /// The tokens of the whole text, at its end.
    pub fn finish(mut self, end: Place) -> Result<Result<Vec<Token>, LexRefusal>, AllocError>
        ensures tokens { IfOk result (λ r. IfOk r (λ ts. IsApart self.output → (texts : List (List ℕ)) → AreTokens (ahead texts self (plain_place end) []) texts ts.items)) }
        ensures refused { IfOk result (λ r. IfErr r (λ refusal. (texts : List (List ℕ)) → IsRefused (ahead texts self (plain_place end) []) refusal)) }
        ensures numbers { IfOk result (λ r. IfOk r (λ ts. numbers_of ts.items ≡ numbers_of self.output.tokens.items)) }
    {
        match self.pending.pop() {
            Some(open) => {
                match self.output.open_line(open.place, self.progress)? {
                    Some(refusal) => Ok(Err(refusal)),
                    None => Ok(Err(LexRefusal::UnclosedBracket(open.place))),
                }
            }
            None => match self.progress {
                Progress::Fresh(_) => Ok(Ok(self.output.closed(self.last)?)),
                Progress::Settled(_) => Ok(Ok(self.output.closed(self.last)?)),
                Progress::Begun => {
                    self.output.push(end, TokenKind::Newline)?;
                    Ok(Ok(self.output.closed(end)?))
                }
            },
        }
    }
}
