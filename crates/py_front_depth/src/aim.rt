//! What is asked of the parts before symbols where what they end with is to be an item among targets.

ghost use Rattle.std.specs.Prelude.{◌≡◌, IfOk};
ghost use Rattle.py_demands.specs.Aims as aims;
ghost use Rattle.py_table.specs.PlainSymbols.{plain_action, plain_nonterminal};
ghost use Rattle.py_front_depth.specs.PlainAsks.{plain_aim, plain_way};
ghost use Rattle.py_front_depth.specs.PlainRoles.{plain_role};

use crate::ask::{Ask, asked_in, one_more};
use crate::role::Role;
use py_table::symbol::{Action, Nonterminal};
use std::alloc::AllocError;

/// What a part is to be.
#[derive(Clone, Copy, Debug)]
pub(crate) enum Aim {
    /// Whatever it turns out to be.
    Simply(Ask),
    /// What is assigned to, with at least so many nodes above it.
    Targets(u32),
    /// One of several targets, with at least so many above it.
    Target(u32),
    /// One of them, or it has one more above it.
    MayTarget(u32),
    /// It stands in no module.
    Never,
}

/// Whether an action leaves what may be one of several targets.
fn makes_target(action: Action) -> bool
    ensures { result ≡ aims.makes_target (plain_action action) }
{
    match action {
        Action::MakeLeaf | Action::MakeAttribute | Action::MakeSubscript => true,
        _ => false,
    }
}

/// What an action makes of what is asked of the part that it leaves.
pub(crate) fn made_by(action: Action, aim: Aim) -> Result<Aim, AllocError>
    ensures { IfOk result (λ a. plain_aim a ≡ aims.made_by (plain_action action) (plain_aim aim)) }
{
    let aim = match aim {
        Aim::Simply(ask) => Aim::Simply(ask),
        Aim::Targets(above) => Aim::Simply(Ask::OpenAtLeast(above)),
        Aim::Target(above) => {
            if makes_target(action) {
                Aim::Simply(Ask::AtLeast(above))
            } else {
                Aim::Never
            }
        }
        Aim::MayTarget(above) => {
            if makes_target(action) {
                Aim::Simply(Ask::AtLeast(above))
            } else {
                Aim::Simply(Ask::AtLeast(one_more(above)?))
            }
        }
        Aim::Never => Aim::Never,
    };
    Ok(aim)
}

/// What becomes of the last part that a nonterminal takes.
#[derive(Clone, Copy, Debug)]
pub(crate) enum Way {
    /// It stays, or goes into what is no target.
    Keeps,
    /// It stays, or stands below a node.
    Extends,
    /// A target may be made.
    Makes,
    /// No target is made.
    Differs,
}

/// What becomes of the last part that a nonterminal takes.
pub(crate) fn way_of(nonterminal: Nonterminal) -> Way
    ensures { plain_way result ≡ aims.way (plain_nonterminal nonterminal) }
{
    match nonterminal {
        Nonterminal::ExpressionTail
        | Nonterminal::OrTail
        | Nonterminal::OrMore
        | Nonterminal::AndTail
        | Nonterminal::AndMore
        | Nonterminal::ComparisonTail
        | Nonterminal::ComparisonMore
        | Nonterminal::OrExprTail
        | Nonterminal::XorExprTail
        | Nonterminal::AndExprTail
        | Nonterminal::ShiftTail
        | Nonterminal::SumTail
        | Nonterminal::ProductTail
        | Nonterminal::PowerTail
        | Nonterminal::ExpressionListTail
        | Nonterminal::ItemMore
        | Nonterminal::ItemNext
        | Nonterminal::Arguments
        | Nonterminal::KeywordNext
        | Nonterminal::KeywordMore
        | Nonterminal::PlainArguments
        | Nonterminal::Upper
        | Nonterminal::PairNext
        | Nonterminal::PairMore
        | Nonterminal::Conditions
        | Nonterminal::Comprehensions => Way::Keeps,
        Nonterminal::BindingTail | Nonterminal::BindingMore | Nonterminal::BindingNext => {
            Way::Keeps
        }
        Nonterminal::PrimaryTail | Nonterminal::AttributeTail => Way::Extends,
        Nonterminal::ArgumentTail
        | Nonterminal::PlainArgumentTail
        | Nonterminal::Parenthesised
        | Nonterminal::ParenthesisedTail
        | Nonterminal::Bracketed
        | Nonterminal::BracketedTail
        | Nonterminal::Braced
        | Nonterminal::BracedTail
        | Nonterminal::Comprehension
        | Nonterminal::IsTail => Way::Differs,
        _ => Way::Makes,
    }
}

/// What is asked of the part that a nonterminal takes last.
pub(crate) fn gone(way: Way, aim: Aim) -> Result<Aim, AllocError>
    ensures { IfOk result (λ a. plain_aim a ≡ aims.gone (plain_way way) (plain_aim aim)) }
{
    let aim = match aim {
        Aim::Simply(ask) => Aim::Simply(ask),
        Aim::Targets(above) => Aim::Simply(Ask::OpenAtLeast(above)),
        Aim::Never => Aim::Never,
        Aim::Target(above) => match way {
            Way::Keeps => Aim::Target(above),
            Way::Extends => Aim::MayTarget(above),
            Way::Makes => Aim::Simply(Ask::AtLeast(above)),
            Way::Differs => Aim::Never,
        },
        Aim::MayTarget(above) => match way {
            Way::Keeps => Aim::MayTarget(above),
            Way::Extends => Aim::MayTarget(above),
            Way::Makes => Aim::Simply(Ask::AtLeast(above)),
            Way::Differs => Aim::Simply(Ask::AtLeast(one_more(above)?)),
        },
    };
    Ok(aim)
}

/// What is asked of a part that an action takes in this role.
pub(crate) fn aimed_in(aim: Aim, role: Role) -> Result<Aim, AllocError>
    ensures { IfOk result (λ a. plain_aim a ≡ aims.aim_by (plain_aim aim) (plain_role role)) }
{
    match aim {
        Aim::Simply(ask) => Ok(Aim::Simply(asked_in(ask, role)?)),
        Aim::Targets(_) | Aim::Target(_) | Aim::MayTarget(_) | Aim::Never => Ok(Aim::Never),
    }
}
