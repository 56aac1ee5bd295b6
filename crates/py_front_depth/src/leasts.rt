//! What each nonterminal asks at least of the parts that it takes, the last first, whatever it derives.

ghost use Rattle.std.specs.Prelude.{◌≡◌, IfOk};
ghost use Rattle.py_demands.specs.Aims as aims;
ghost use Rattle.py_demands.specs.Least as at_least;
ghost use Rattle.py_table.specs.PlainSymbols.{plain_nonterminal};
ghost use Rattle.py_front_depth.specs.PlainAsks.{plain_ask, plain_aim};
ghost use Rattle.py_front_depth.specs.PlainLeasts.{plain_least, plain_leasts};

use crate::aim::Aim;
use crate::ask::{Ask, asked_in, opened};
use crate::leasts::Least::{As, Opened};
use crate::role::Role::{self, Below, Head, Kept, Lost};
use py_depth::event::Label::{Bracket, Plain};
use py_table::symbol::Nonterminal;
use std::alloc::AllocError;

/// What is asked at least of a part.
#[derive(Clone, Copy, Debug)]
pub(crate) enum Least {
    /// What is asked in a role.
    As(Role),
    /// The part may turn out to be targets.
    Opened,
}

const MODULE: &[Least] = &[As(Kept)];

const COMPOUND: &[Least] = &[];

const HANDLER: &[Least] = &[As(Lost), As(Kept)];

const HANDLER_ALIAS: &[Least] = &[As(Lost), As(Lost), As(Kept)];

const SMALL_TAIL: &[Least] = &[Opened];

const ASSIGN_TAIL: &[Least] = &[Opened, As(Below(Plain))];

const RETURNED: &[Least] = &[As(Head(Plain))];

const ASSERT_MESSAGE: &[Least] = &[As(Below(Plain)), As(Head(Plain))];

const DELETED_TAIL: &[Least] = &[As(Below(Plain))];

const DELETED_SUBSCRIPT: &[Least] = &[As(Head(Plain)), As(Below(Plain))];

const DELETED_SUBSCRIPT_TAIL: &[Least] = &[As(Below(Plain)), As(Head(Plain)), As(Below(Plain))];

const ARGUMENT_TAIL: &[Least] = &[As(Below(Plain)), As(Kept)];

const PARENTHESISED: &[Least] = &[As(Head(Bracket))];

const PARENTHESISED_TAIL: &[Least] = &[As(Below(Bracket)), As(Head(Bracket))];

/// What a nonterminal asks at least.
pub(crate) fn leasts(nonterminal: Nonterminal) -> &'static [Least]
    ensures { plain_leasts result.now ≡ at_least.low (plain_nonterminal nonterminal) }
{
    match nonterminal {
        Nonterminal::Module => MODULE,
        Nonterminal::TopStatement => MODULE,
        Nonterminal::Statements => MODULE,
        Nonterminal::Statement => MODULE,
        Nonterminal::MoreHandlers => MODULE,
        Nonterminal::QualifiedNameTail => MODULE,
        Nonterminal::ParameterList => MODULE,
        Nonterminal::ParameterNext => MODULE,
        Nonterminal::ParameterItem => MODULE,
        Nonterminal::ClassBase => MODULE,
        Nonterminal::Member => MODULE,
        Nonterminal::Members => MODULE,
        Nonterminal::Brief => MODULE,
        Nonterminal::ImportItem => MODULE,
        Nonterminal::ImportNext => MODULE,
        Nonterminal::FromItem => MODULE,
        Nonterminal::FromNext => MODULE,
        Nonterminal::Line => MODULE,
        Nonterminal::LineTail => MODULE,
        Nonterminal::LineMore => MODULE,
        Nonterminal::GlobalNext => MODULE,
        Nonterminal::DeletedEnd => MODULE,
        Nonterminal::BindingTail => MODULE,
        Nonterminal::BindingMore => MODULE,
        Nonterminal::BindingNext => MODULE,
        Nonterminal::ExpressionListTail => MODULE,
        Nonterminal::ItemMore => MODULE,
        Nonterminal::ItemNext => MODULE,
        Nonterminal::ExpressionTail => MODULE,
        Nonterminal::OrTail => MODULE,
        Nonterminal::OrMore => MODULE,
        Nonterminal::AndTail => MODULE,
        Nonterminal::AndMore => MODULE,
        Nonterminal::ComparisonTail => MODULE,
        Nonterminal::ComparisonMore => MODULE,
        Nonterminal::IsTail => MODULE,
        Nonterminal::OrExprTail => MODULE,
        Nonterminal::XorExprTail => MODULE,
        Nonterminal::AndExprTail => MODULE,
        Nonterminal::ShiftTail => MODULE,
        Nonterminal::SumTail => MODULE,
        Nonterminal::ProductTail => MODULE,
        Nonterminal::PowerTail => MODULE,
        Nonterminal::PrimaryTail => MODULE,
        Nonterminal::AttributeTail => MODULE,
        Nonterminal::Upper => MODULE,
        Nonterminal::Arguments => MODULE,
        Nonterminal::KeywordNext => MODULE,
        Nonterminal::KeywordMore => MODULE,
        Nonterminal::PlainArguments => MODULE,
        Nonterminal::PairNext => MODULE,
        Nonterminal::PairMore => MODULE,
        Nonterminal::Comprehension => MODULE,
        Nonterminal::Conditions => MODULE,
        Nonterminal::Comprehensions => MODULE,
        Nonterminal::Compound => COMPOUND,
        Nonterminal::Otherwise => COMPOUND,
        Nonterminal::Suite => COMPOUND,
        Nonterminal::QualifiedName => COMPOUND,
        Nonterminal::Definition => COMPOUND,
        Nonterminal::ClassDefinition => COMPOUND,
        Nonterminal::ClassSuite => COMPOUND,
        Nonterminal::ImportStatement => COMPOUND,
        Nonterminal::Small => COMPOUND,
        Nonterminal::Binding => COMPOUND,
        Nonterminal::ExpressionList => COMPOUND,
        Nonterminal::Expression => COMPOUND,
        Nonterminal::OrTest => COMPOUND,
        Nonterminal::AndTest => COMPOUND,
        Nonterminal::NotTest => COMPOUND,
        Nonterminal::Comparison => COMPOUND,
        Nonterminal::ComparisonSign => COMPOUND,
        Nonterminal::OrExpr => COMPOUND,
        Nonterminal::XorExpr => COMPOUND,
        Nonterminal::AndExpr => COMPOUND,
        Nonterminal::ShiftExpr => COMPOUND,
        Nonterminal::Sum => COMPOUND,
        Nonterminal::Product => COMPOUND,
        Nonterminal::Factor => COMPOUND,
        Nonterminal::PowerExpr => COMPOUND,
        Nonterminal::Primary => COMPOUND,
        Nonterminal::Atom => COMPOUND,
        Nonterminal::AnyName => COMPOUND,
        Nonterminal::Handler
        | Nonterminal::ParameterDefault
        | Nonterminal::BaseList
        | Nonterminal::ImportAlias => HANDLER,
        Nonterminal::HandlerAlias => HANDLER_ALIAS,
        Nonterminal::SmallTail => SMALL_TAIL,
        Nonterminal::AssignTail => ASSIGN_TAIL,
        Nonterminal::Returned | Nonterminal::Braced => RETURNED,
        Nonterminal::AssertMessage | Nonterminal::BracedTail => ASSERT_MESSAGE,
        Nonterminal::DeletedTail | Nonterminal::DeletedAttribute => DELETED_TAIL,
        Nonterminal::DeletedSubscript | Nonterminal::Subscription => DELETED_SUBSCRIPT,
        Nonterminal::DeletedSubscriptTail | Nonterminal::SubscriptionTail => DELETED_SUBSCRIPT_TAIL,
        Nonterminal::ArgumentTail | Nonterminal::PlainArgumentTail => ARGUMENT_TAIL,
        Nonterminal::Parenthesised | Nonterminal::Bracketed => PARENTHESISED,
        Nonterminal::ParenthesisedTail | Nonterminal::BracketedTail => PARENTHESISED_TAIL,
    }
}

/// What is asked at least of a part, by what is asked of the part that a nonterminal leaves. Fails where memory runs out.
pub(crate) fn asked_at_least(ask: Ask, least: Least) -> Result<Ask, AllocError>
    ensures { IfOk result (λ q. plain_ask q ≡ at_least.ask_least (plain_ask ask) (plain_least least)) }
{
    match least {
        As(role) => asked_in(ask, role),
        Opened => opened(ask),
    }
}

/// The same where the part that is left is to be an item among targets.
pub(crate) fn aimed_at_least(aim: Aim, least: Least) -> Result<Aim, AllocError>
    ensures { IfOk result (λ a. plain_aim a ≡ aims.aim_least (plain_aim aim) (plain_least least)) }
{
    match aim {
        Aim::Simply(ask) => Ok(Aim::Simply(asked_at_least(ask, least)?)),
        _ => match least {
            As(Lost) => Ok(Aim::Simply(Ask::NoNode)),
            _ => Ok(aim),
        },
    }
}
