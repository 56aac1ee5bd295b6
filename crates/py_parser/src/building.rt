//! The second pass: it builds the tree of a module.

ghost use Rattle.std.specs.Prelude.{ℕ, ◌≡◌, List, [], ◌∷◌, IfOk, OnOk};
ghost use Rattle.std.specs.Option.{option_map, option_copied};
ghost use Rattle.grammars.specs.Grammar.{allows};
ghost use Rattle.py_syntax.specs.Build as build_parts;
ghost use Rattle.py_syntax.specs.Grammar.{IsModule};
ghost use Rattle.py_ast.specs.PlainExprs.{plain_expr};
ghost use Rattle.parser_parts.specs.PlainParts.{parts_of, last_expr};
ghost use Rattle.py_table.specs.PlainSymbols.{plain_guard};
ghost use Rattle.py_table.specs.PlainTokens.{plain_tokens};
ghost use Rattle.py_ast.specs.PlainTrees.{plain};

use parser_actions::act;
use parser_parts::{Part, pop_body, push};
use parser_targets::{are_targets, is_name, is_target};
use py_ast::{Expr, Module};
use py_lexer::token::Token;
use py_table::run::{Outcome, run};
use py_table::symbol::{Action, Guard};
use py_table::values::Values;
use shed_base::Names;
use std::alloc::{AllocError, Global};

/// A stack of parts, the last on top.
#[derive(Debug, Drop)]
pub(crate) struct Built<'a> {
    parts: Vec<Part<'a>>,
}

/// The expression that was built last.
#[tactic(auto, using(parser_parts::proofs::Stacks::stacks))]
fn last_built<'a>(parts: &'a [Part<'_>]) -> Option<&'a Expr>
    ensures { (texts : List (List ℕ)) → option_map plain_expr (option_copied result) ≡ last_expr (parts_of texts parts.now) }
{
    match parts.split_last() {
        Some((last, _)) => match last {
            Part::Expr(expr) => Some(expr),
            Part::Token(_) => None,
            Part::Sign(_, _) => None,
            Part::Loop(_, _, _, _) => None,
            Part::LoopTarget(_) => None,
            Part::Targets(_, _) => None,
            Part::Class(_) => None,
            Part::Stmt(_) => None,
            Part::Body(_) => None,
        },
        None => None,
    }
}

fn are_targets_last(parts: &[Part<'_>]) -> Result<bool, AllocError>
    ensures { IfOk result (λ holds. (texts : List (List ℕ)) → holds ≡ build_parts.are_targets_last (parts_of texts parts.now)) }
{
    match last_built(parts) {
        Some(expr) => are_targets(expr),
        None => Ok(false),
    }
}

fn is_target_last(parts: &[Part<'_>]) -> bool
    ensures { (texts : List (List ℕ)) → result ≡ build_parts.is_target_last (parts_of texts parts.now) }
{
    match last_built(parts) {
        Some(expr) => is_target(expr),
        None => false,
    }
}

fn is_name_last(parts: &[Part<'_>]) -> bool
    ensures { (texts : List (List ℕ)) → result ≡ build_parts.is_name_last (parts_of texts parts.now) }
{
    match last_built(parts) {
        Some(expr) => is_name(expr),
        None => false,
    }
}

impl<'a> Values<'a> for Built<'a> {
    ghost stands = { λ texts built v. parts_of texts built.parts.items ≡ v };

    #[tactic(auto, using(crate::proofs::PartsStand::stands))]
    fn take(&mut self, token: &'a Token) -> Result<(), AllocError> {
        push(&mut self.parts, Part::Token(token))
    }

    #[tactic(auto, using(crate::proofs::PartsStand::stands))]
    fn act(&mut self, alloc: Global, action: Action) -> Result<(), AllocError> {
        act(alloc, action, &mut self.parts)
    }

    #[tactic(auto, using(crate::proofs::PartsStand::stands))]
    fn allows(&self, guard: Guard) -> Result<bool, AllocError> {
        match guard {
            Guard::Always => Ok(true),
            Guard::AreTargetsLast => are_targets_last(&self.parts),
            Guard::IsTargetLast => Ok(is_target_last(&self.parts)),
            Guard::IsNameLast => Ok(is_name_last(&self.parts)),
        }
    }
}

/// The tree of these tokens; want of memory where they have none, which a pass before has found out.
pub(crate) fn build(alloc: Global, tokens: &[Token], names: &Names) -> Result<Module, AllocError>
    ensures { IfOk result (λ m. IsModule (plain m) (plain_tokens names.now tokens.now)) }
{
    let mut built = Built {
        parts: Vec::new(alloc),
    };
    match run(alloc, &mut built, tokens, names)? {
        Outcome::Done => {
            let body = pop_body(&mut built.parts)?;
            Ok(Module { body })
        }
        Outcome::Stuck(_) => Err(AllocError),
    }
}
