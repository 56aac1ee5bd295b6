//! The run of the table: a loop over a stack of symbols, with one token of sight and no way back.

ghost use Rattle.std.specs.Prelude.{ℕ, ◌≡◌, [], ◌∷◌, ◌++◌, reverse, List, IfOk, OnOk};
ghost use Rattle.grammars.specs.Grammar.{Tok, Non};
ghost use Rattle.py_syntax.specs.Build.{Parts};
ghost use Rattle.py_syntax.specs.Laws.{start};
ghost use Rattle.py_syntax.specs.Table.{Symbol as PlainSymbol};
ghost use Rattle.py_table.specs.PlainTokens.{plain_tokens};
ghost use Rattle.py_table.specs.PlainSymbols.{plain_nonterminal, plain_symbols};
ghost use Rattle.py_table.specs.Steps.{stack_of, one_step, Became, Ended, Ends};

use crate::kinds::{kind_of, sight};
use crate::symbol::{Action, Nonterminal, Symbol};
use crate::table::row_at;
use crate::values::Values;
use py_lexer::token::Token;
use shed_base::Names;
use std::alloc::{AllocError, Global};

/// What a step has come to.
#[derive(Debug, Drop)]
pub enum Next<'a> {
    /// These tokens are left.
    Goes(&'a [Token]),
    /// No symbol and no token is left.
    Done,
    /// The first of the tokens that are left, or the end, fits nowhere.
    Stuck,
}

/// How a run has ended.
#[derive(Debug, Drop)]
pub enum Outcome<'a> {
    /// All was read.
    Done,
    /// The first of these tokens, or the end where there is none, fits nowhere.
    Stuck(&'a [Token]),
}

/// Puts the symbols of a row on the stack, the first on top.
#[tactic(auto, using(crate::proofs::SymbolStacks::stacks))]
fn push_row(symbols: &mut Vec<Symbol>, row: &[Symbol]) -> Result<(), AllocError>
    ensures { OnOk result (stack_of symbols.new.items ≡ plain_symbols row.now ++ stack_of symbols.old.items) }
{
    for i in (0..row.len()).rev() {
        symbols.push(row[i])?;
    }
    Ok(())
}

/// Reads a token of this kind.
fn read<'a, V: Values<'a>>(
    kind: u8,
    symbols: &[Symbol],
    values: &mut V,
    rest: &'a [Token],
    names: &Names,
) -> Result<Next<'a>, AllocError>
    ensures { IfOk result (λ next. (v : Parts) → V.stands names.now values.old v → Became names.now (V.stands names.now values.new) v symbols.now next (one_step (Tok kind ∷ stack_of symbols.now) v (plain_tokens names.now rest.now))) }
{
    let Some((token, more)) = rest.split_first() else {
        return Ok(Next::Stuck);
    };
    if kind_of(token, names) != kind {
        return Ok(Next::Stuck);
    }
    values.take(token)?;
    Ok(Next::Goes(more))
}

/// Puts a row in place of a nonterminal.
fn expand<'a, V: Values<'a>>(
    nonterminal: Nonterminal,
    symbols: &mut Vec<Symbol>,
    values: &V,
    rest: &'a [Token],
    names: &Names,
) -> Result<Next<'a>, AllocError>
    ensures { IfOk result (λ next. (v : Parts) → V.stands names.now values.now v → Became names.now (V.stands names.now values.now) v symbols.new.items next (one_step (Non (plain_nonterminal nonterminal) ∷ stack_of symbols.old.items) v (plain_tokens names.now rest.now))) }
{
    let Some(row) = row_at(nonterminal, sight(rest, names)) else {
        return Ok(Next::Stuck);
    };
    if !values.allows(row.guard)? {
        return Ok(Next::Stuck);
    }
    push_row(symbols, row.symbols)?;
    Ok(Next::Goes(rest))
}

/// With no symbol left, all must have been read.
fn finish<'a>(rest: &'a [Token]) -> Next<'a>
    ensures { (texts : List (List ℕ)) (v : Parts) → Ended result (one_step [] v (plain_tokens texts rest.now)) }
{
    match rest.first() {
        Some(_) => Next::Stuck,
        None => Next::Done,
    }
}

/// One step of the run over a stack of symbols, the last of which is on top. Fails where memory runs out.
#[tactic(auto, using(crate::proofs::SymbolStacks::stacks))]
pub fn step<'a, V: Values<'a>>(
    alloc: Global,
    symbols: &mut Vec<Symbol>,
    values: &mut V,
    rest: &'a [Token],
    names: &Names,
) -> Result<Next<'a>, AllocError>
    ensures { IfOk result (λ next. (v : Parts) → V.stands names.now values.old v → Became names.now (V.stands names.now values.new) v symbols.new.items next (one_step (stack_of symbols.old.items) v (plain_tokens names.now rest.now))) }
{
    match symbols.pop() {
        None => Ok(finish(rest)),
        Some(Symbol::Read(kind)) => read(kind, symbols, values, rest, names),
        Some(Symbol::Expand(nonterminal)) => expand(nonterminal, symbols, values, rest, names),
        Some(Symbol::Do(action)) => {
            values.act(alloc, action)?;
            Ok(Next::Goes(rest))
        }
    }
}

/// The run from the start over all these tokens.
pub fn run<'a, V: Values<'a>>(
    alloc: Global,
    values: &mut V,
    tokens: &'a [Token],
    names: &Names,
) -> Result<Outcome<'a>, AllocError>
    ensures { IfOk result (λ outcome. V.stands names.now values.old start → Ends names.now (plain_tokens names.now tokens.now) (V.stands names.now values.new) outcome) }
{
    let mut symbols = Vec::new(alloc);
    symbols.push(Symbol::Expand(Nonterminal::Module))?;
    symbols.push(Symbol::Do(Action::BeginBody))?;
    let mut rest = tokens;
    for _turn in 0..u64::MAX {
        match step(alloc, &mut symbols, values, rest, names)? {
            Next::Goes(more) => rest = more,
            Next::Done => return Ok(Outcome::Done),
            Next::Stuck => return Ok(Outcome::Stuck(rest)),
        }
    }
    Err(AllocError)
}
