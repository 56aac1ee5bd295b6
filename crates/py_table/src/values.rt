//! What a pass keeps of the parts that the table's actions build.

ghost use Rattle.std.specs.Prelude.{ℕ, ◌≡◌, ◌∷◌, List, IfOk, OnOk};
ghost use Rattle.grammars.specs.Grammar.{allows};
ghost use Rattle.py_syntax.specs.Build.{PToken, Parts, act as act_on_parts};
ghost use Rattle.py_table.specs.PlainTokens.{plain_token};
ghost use Rattle.py_table.specs.PlainSymbols.{plain_action, plain_guard};

use crate::symbol::{Action, Guard};
use py_lexer::token::Token;
use std::alloc::{AllocError, Global};

/// A stack that stands for parts: for the parts themselves, or for less than them.
pub trait Values<'a> {
    /// Which parts it stands for, where names stand for these texts.
    ghost stands: { List (List ℕ) → Self → Parts → Type 0 };

    /// Puts a token on top.
    fn take(&mut self, token: &'a Token) -> Result<(), AllocError>
        ensures { OnOk result ((texts : List (List ℕ)) (v : Parts) → stands texts self.old v → stands texts self.new (PToken (plain_token texts token.now) ∷ v)) };

    /// Does what an action does.
    fn act(&mut self, alloc: Global, action: Action) -> Result<(), AllocError>
        ensures { OnOk result ((texts : List (List ℕ)) (v : Parts) → stands texts self.old v → stands texts self.new (act_on_parts (plain_action action) v)) };

    /// Whether a guard allows its row.
    fn allows(&self, guard: Guard) -> Result<bool, AllocError>
        ensures { IfOk result (λ holds. (texts : List (List ℕ)) (v : Parts) → stands texts self.now v → holds ≡ allows (plain_guard guard) v) };
}
