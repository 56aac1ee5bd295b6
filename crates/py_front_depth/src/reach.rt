//! The run of the table over a front alone, to where it stands before it is known what comes next.

ghost use Rattle.std.specs.Prelude.{ℕ, ◌≡◌, List, IfOk};
ghost use Rattle.py_table.specs.PlainTokens.{plain_tokens};
ghost use Rattle.py_table.specs.Steps.{stack_of};
ghost use Rattle.py_demands.specs.Readings.{acts_first};
ghost use Rattle.py_front_depth.specs.Reaching.{is_done, IsBehind};

use py_depth::nest::Nest;
use py_lexer::token::Token;
use py_table::run::{Next, step};
use py_table::symbol::{Action, Nonterminal, Symbol};
use shed_base::Names;
use std::alloc::{AllocError, Global};

/// Where the run stands behind a front: the symbols that are left, the next on top, and what is kept of the parts.
#[derive(Debug, Drop)]
pub(crate) struct Reached {
    pub(crate) symbols: Vec<Symbol>,
    pub(crate) nest: Nest,
}

/// Whether an action comes next.
#[tactic(auto, using(crate::proofs::Stacks::stacks))]
fn acts_next(symbols: &[Symbol]) -> bool
    ensures { result ≡ acts_first (stack_of symbols.now) }
{
    match symbols.split_last() {
        Some((Symbol::Do(_), _)) => true,
        Some(_) => false,
        None => false,
    }
}

/// Whether all is read and no action comes next.
fn is_behind(rest: &[Token], symbols: &[Symbol]) -> bool
    ensures { (texts : List (List ℕ)) → result ≡ is_done (plain_tokens texts rest.now) (stack_of symbols.now) }
{
    match rest.first() {
        Some(_) => false,
        None => !acts_next(symbols),
    }
}

/// Where the run stands behind these tokens, or nothing where no module begins with them. Fails where memory runs out.
pub(crate) fn reach(
    alloc: Global,
    front: &[Token],
    names: &Names,
) -> Result<Option<Reached>, AllocError>
    ensures { IfOk result (IsBehind (plain_tokens names.now front.now)) }
{
    let mut nest = Nest {
        entries: Vec::new(alloc),
        events: Vec::new(alloc),
    };
    let mut symbols = Vec::new(alloc);
    symbols.push(Symbol::Expand(Nonterminal::Module))?;
    symbols.push(Symbol::Do(Action::BeginBody))?;
    let mut rest = front;
    for _turn in 0..u64::MAX {
        if is_behind(rest, &symbols) {
            return Ok(Some(Reached { symbols, nest }));
        }
        match step(alloc, &mut symbols, &mut nest, rest, names)? {
            Next::Goes(more) => rest = more,
            Next::Done => return Ok(None),
            Next::Stuck => return Ok(None),
        }
    }
    Err(AllocError)
}
