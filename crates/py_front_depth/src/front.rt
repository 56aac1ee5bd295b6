//! The first place where a front of a module is nested too deep.

ghost use Rattle.std.specs.Prelude.{◌≡◌, true, IfOk};
ghost use Rattle.py_nesting.specs.TooDeep.{IsFirstInFront};
ghost use Rattle.py_nesting.specs.Ordered.{AreOrdered};
ghost use Rattle.py_table.specs.PlainTokens.{plain_tokens};
ghost use Rattle.py_depth.specs.PlainDemands.{plain_first};

use crate::demands::closing_demands;
use crate::depths::{first_in_both, note_all};
use crate::nodes::first_too_deep;
use crate::reach::reach;
use crate::readings::read_as_targets;
use py_depth::walk::Demand;
use py_lexer::token::Token;
use shed_base::{Names, Place};
use std::alloc::{AllocError, Global};

/// Whether the same is asked of all parts.
fn are_same(demands: &[Demand], others: &[Demand]) -> bool
    ensures { result ≡ true → demands.now ≡ others.now }
{
    demands == others
}

/// The first place of these tokens where a node has more than 100 others above it in each module that begins with them and has a node
/// there, if there is one; names among the tokens stand for the texts of `names`.
///
/// The tokens are in the order of a text. Where no module begins with them there is no such place. Fails where memory runs out.
pub fn find_depth_in_front(
    alloc: Global,
    front: &[Token],
    names: &Names,
) -> Result<Option<Place>, AllocError>
    ensures { IfOk result (λ first. AreOrdered (plain_tokens names.now front.now) → IsFirstInFront (plain_first first) (plain_tokens names.now front.now)) }
{
    let Some(reached) = reach(alloc, front, names)? else {
        return Ok(None);
    };
    let whole = closing_demands(alloc, &reached.symbols)?;
    let Some(targets) = read_as_targets(alloc, &reached.symbols, &reached.nest.entries)? else {
        let first = first_too_deep(alloc, &reached.nest, &whole)?;
        return Ok(first);
    };
    if are_same(&whole, &targets) {
        let first = first_too_deep(alloc, &reached.nest, &whole)?;
        return Ok(first);
    }
    let depths = note_all(alloc, &reached.nest, &whole)?;
    let others = note_all(alloc, &reached.nest, &targets)?;
    Ok(first_in_both(front, &depths, &others))
}
