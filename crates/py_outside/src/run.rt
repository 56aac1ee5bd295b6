//! The steps of a run over a stack of symbols, with one token of sight and no way back.

ghost use Rattle.std.specs.Prelude.{ℕ, ◌≡◌, List, [], ◌∷◌, ◌++◌, map, IfOk, OnOk};
ghost use Rattle.grammars.specs.Grammar.{Tok, Non, allows};
ghost use Rattle.py_constructs.specs.OneStep.{one_step};
ghost use Rattle.py_constructs.specs.Table.{Addition, widening_of, profile_symbol};
ghost use Rattle.py_constructs.specs.Values as values;
ghost use Rattle.py_table.specs.PlainTokens.{plain_tokens};
ghost use Rattle.py_table.specs.PlainSymbols as profile;
ghost use Rattle.py_outside.specs.PlainConstructs.{additions_of};
ghost use Rattle.py_outside.specs.PlainSymbols.{plain_name, plain_symbol, plain_symbols, plain_taken};
ghost use Rattle.py_outside.specs.PlainValues.{plain_value, plain_widening};
ghost use Rattle.py_outside.specs.Steps.{stack_of, Advanced, Became};
ghost use Rattle.py_outside.specs.declared.symbol.Symbol.{Symbol as SymbolKept};
ghost use Rattle.py_outside.specs.declared.value.Value.{Value as ValueKept};

use crate::added::widening_by;
use crate::construct::Construct;
use crate::symbol::{Action, Name, Symbol, Taken};
use crate::table::row_at;
use crate::targets::Widening;
use crate::value::Value;
use py_lexer::token::Token;
use py_table::kinds::{kind_of, sight};
use py_table::symbol as profile;
use shed_base::Names;
use std::alloc::AllocError;

/// What a step has come to.
#[derive(Debug, Drop)]
pub(crate) enum Next<'a> {
    Goes(&'a [Token]),
    Done,
    Stuck,
}

/// A symbol of the profile's table, here.
fn lifted(symbol: profile::Symbol) -> Symbol
    ensures { plain_symbol result ≡ profile_symbol (profile.plain_symbol symbol) }
{
    match symbol {
        profile::Symbol::Read(kind) => Symbol::Read(kind),
        profile::Symbol::Expand(nonterminal) => Symbol::Expand(Name::Profile(nonterminal)),
        profile::Symbol::Do(action) => Symbol::Do(Action::Own(action)),
    }
}

/// Puts the symbols of one of the profile's rows on the stack, the first on top.
#[tactic(auto, using(crate::proofs::SymbolStacks::stacks))]
fn push_profile(symbols: &mut Vec<Symbol>, row: &[profile::Symbol]) -> Result<(), AllocError>
    ensures { OnOk result (stack_of symbols.new.items ≡ map profile_symbol (profile.plain_symbols row.now) ++ stack_of symbols.old.items) }
{
    for i in (0..row.len()).rev() {
        symbols.push(lifted(row[i]))?;
    }
    Ok(())
}

/// Puts the symbols of another row on the stack, the first on top.
#[tactic(auto, using(crate::proofs::SymbolStacks::stacks))]
fn push_own(symbols: &mut Vec<Symbol>, row: &[Symbol]) -> Result<(), AllocError>
    ensures { OnOk result (stack_of symbols.new.items ≡ plain_symbols row.now ++ stack_of symbols.old.items) }
{
    for i in (0..row.len()).rev() {
        symbols.push(row[i])?;
    }
    Ok(())
}

/// Puts the symbols of a row on the stack, the first on top.
fn push_row(symbols: &mut Vec<Symbol>, row: Taken) -> Result<(), AllocError>
    ensures { (w : values.Widening) → OnOk result (stack_of symbols.new.items ≡ (plain_taken w row).symbols ++ stack_of symbols.old.items) }
{
    match row {
        Taken::Profile(row) => push_profile(symbols, row.symbols),
        Taken::Own(row) => push_own(symbols, row.symbols),
    }
}

/// What a construct lets be targets besides the profile's.
fn widening(construct: Option<Construct>) -> Widening
    ensures { plain_widening result ≡ widening_of (additions_of construct) }
{
    match construct {
        Some(construct) => widening_by(construct),
        None => Widening::Nothing,
    }
}

/// Whether a row's guard allows it.
pub(crate) fn allows_row(construct: Option<Construct>, value: &Value, row: Taken) -> bool
    ensures { result ≡ allows (plain_taken (widening_of (additions_of construct)) row).guard (plain_value value.now) }
{
    match row {
        Taken::Profile(_) => true,
        Taken::Own(row) => value.allows(widening(construct), row.guard),
    }
}

/// What has become of a symbol that was on top.
#[derive(Debug, Drop)]
pub(crate) enum Advance<'a> {
    Goes(&'a [Token]),
    Halts,
}

/// Reads a token of this kind.
fn read<'a>(
    construct: Option<Construct>,
    kind: u8,
    symbols: &[Symbol],
    value: &mut Value,
    rest: &'a [Token],
    names: &Names,
) -> Result<Advance<'a>, AllocError>
    ensures { IfOk result (λ next. Advanced names.now (stack_of symbols.now) (plain_value value.old) symbols.now value.new next (one_step (additions_of construct) (Tok kind ∷ stack_of symbols.now) (plain_value value.old) (plain_tokens names.now rest.now))) }
{
    let Some((token, more)) = rest.split_first() else {
        return Ok(Advance::Halts);
    };
    if kind_of(token, names) != kind {
        return Ok(Advance::Halts);
    }
    value.take(kind, token.place)?;
    Ok(Advance::Goes(more))
}

/// Puts a row in place of a name.
fn expand<'a>(
    construct: Option<Construct>,
    name: Name,
    symbols: &mut Vec<Symbol>,
    value: &Value,
    rest: &'a [Token],
    names: &Names,
) -> Result<Advance<'a>, AllocError>
    ensures { IfOk result (λ next. Advanced names.now (stack_of symbols.old.items) (plain_value value.now) symbols.new.items value.now next (one_step (additions_of construct) (Non (plain_name name) ∷ stack_of symbols.old.items) (plain_value value.now) (plain_tokens names.now rest.now))) }
{
    let Some(row) = row_at(construct, name, sight(rest, names)) else {
        return Ok(Advance::Halts);
    };
    if !allows_row(construct, value, row) {
        return Ok(Advance::Halts);
    }
    push_row(symbols, row)?;
    Ok(Advance::Goes(rest))
}

/// With no symbol left, all must have been read.
fn finish<'a>(rest: &'a [Token]) -> Next<'a>
    ensures { (texts : List (List ℕ)) (more : List Addition) (v : values.Value) (symbols : List SymbolKept) (w : ValueKept) → stack_of symbols ≡ [] → plain_value w ≡ v → Became texts [] v symbols w result (one_step more [] v (plain_tokens texts rest.now)) }
{
    match rest.first() {
        Some(_) => Next::Stuck,
        None => Next::Done,
    }
}

/// What becomes of the symbol that was on top.
fn over_top<'a>(
    construct: Option<Construct>,
    top: Symbol,
    symbols: &mut Vec<Symbol>,
    value: &mut Value,
    rest: &'a [Token],
    names: &Names,
) -> Result<Advance<'a>, AllocError>
    ensures { IfOk result (λ next. Advanced names.now (stack_of symbols.old.items) (plain_value value.old) symbols.new.items value.new next (one_step (additions_of construct) (plain_symbol top ∷ stack_of symbols.old.items) (plain_value value.old) (plain_tokens names.now rest.now))) }
{
    match top {
        Symbol::Read(kind) => read(construct, kind, symbols, value, rest, names),
        Symbol::Expand(name) => expand(construct, name, symbols, value, rest, names),
        Symbol::Do(action) => {
            value.act(action)?;
            Ok(Advance::Goes(rest))
        }
    }
}

/// One step of the run with a construct added, or with none. Where it goes no further, all is left as it was.
///
/// Fails where memory runs out.
#[tactic(auto, using(crate::proofs::SymbolStacks::stacks))]
pub(crate) fn step<'a>(
    construct: Option<Construct>,
    symbols: &mut Vec<Symbol>,
    value: &mut Value,
    rest: &'a [Token],
    names: &Names,
) -> Result<Next<'a>, AllocError>
    ensures { IfOk result (λ next. Became names.now (stack_of symbols.old.items) (plain_value value.old) symbols.new.items value.new next (one_step (additions_of construct) (stack_of symbols.old.items) (plain_value value.old) (plain_tokens names.now rest.now))) }
{
    let Some(top) = symbols.pop() else {
        return Ok(finish(rest));
    };
    match over_top(construct, top, symbols, value, rest, names)? {
        Advance::Goes(more) => Ok(Next::Goes(more)),
        Advance::Halts => {
            symbols.push(top)?;
            Ok(Next::Stuck)
        }
    }
}
