//! What rows are made of. `tools/additions.py` writes this file from `tools/grammar.txt` and `tools/additions.txt`.

use py_table::symbol as profile;
use py_table::symbol::Nonterminal;

/// What symbols stand for: the profile's nonterminals, places where a construct may come, and what constructs are made of.
#[derive(Clone, Copy, Debug, PartialEq, Eq)]
pub enum Name {
    Profile(Nonterminal),
    NamedExpression,
    Named,
    NamedCondition,
    NamedItemMore,
    NamedItemNext,
    LoopElse,
    TryTail,
    HandlersEnd,
    BlockLine,
    BlockLineTail,
    BlockLineMore,
    BlockSmall,
    DefinitionRest,
    Arrow,
    ClassRest,
    BaseEnd,
    BriefText,
    FromModule,
    FromDots,
    FromItems,
    ImportTail,
    Raised,
    RaisedTail,
    Yielded,
    Deleted,
    DeletedSlice,
    BindingEnd,
    Assigned,
    RightSide,
    UpperEnd,
    TextTail,
    FirstPairNext,
    MoreBytes,
    MoreTexts,
    Decorated,
    DecoratedMember,
    LambdaParameters,
    LambdaDefault,
    LambdaNext,
    StarName,
    StarNext,
    StarMore,
    StarEnd,
    ArgumentsNext,
    PairsNext,
    PairsMore,
    PlainNext,
    PlainPairsNext,
    PlainPairsMore,
    PlainKeywordNext,
    PlainKeywordMore,
    AnnotatedDefault,
    AnnotatedValue,
    AnnotatedMember,
    AnnotatedBracket,
    ClassTargets,
    ClassItems,
    ClassItemNext,
    ClassBracket,
    Target,
    TargetTail,
    TargetAttribute,
    TargetEnd,
    TargetSubscript,
    TargetSubscriptTail,
    MoreBases,
    BasesNext,
    ClassKeywordBase,
    ClassKeywordTail,
    ClassKeywordNext,
    ClassKeywordMore,
    Step,
    UpperStep,
    WithItem,
    WithTarget,
    WithBinding,
    WithBracket,
    WithNext,
    AsyncStatement,
    YieldValue,
    HeadedLoop,
    LoopConditions,
    LoopMore,
    WalrusArgument,
    PlainWalrusArgument,
    WalrusSet,
    RelativeModule,
    ExceptNext,
    ExceptMore,
    DeletedRest,
    DeletedNames,
    DeletedNamesNext,
    DeletedName,
    StarTargets,
    StarTargetMore,
}

/// What is done between symbols.
#[derive(Clone, Copy, Debug, PartialEq, Eq)]
pub enum Action {
    Own(profile::Action),
    /// The last token is the construct's head.
    Head,
    /// The last token on the stack is the head, if another token comes.
    Hold,
    /// Drops the last item.
    Forget,
    /// The last expression is no target.
    Plain,
    /// The last token tells the head of the targets before it.
    TellTargets,
    /// The last token tells that the first bracket of the loop is the head, or one round the loop that may be a target.
    TellLoop,
    /// The last slice is the head, if another token comes.
    HoldSlice,
}

/// When a row may be taken, by the last items.
#[derive(Clone, Copy, Debug, PartialEq, Eq)]
pub enum Guard {
    Always,
    IsName,
    IsTarget,
    AreTargets,
    IsAnnotable,
    IsDeleted,
    IsBare,
    IsFirstArgument,
    MayBeTargets,
    IsTargetWith,
    AreTargetsWith,
}

#[derive(Clone, Copy, Debug, PartialEq, Eq)]
pub enum Symbol {
    /// A token whose kind has this number.
    Read(u8),
    Expand(Name),
    Do(Action),
}

/// What may take the place of a name.
#[derive(Clone, Copy, Debug)]
pub struct Row {
    pub guard: Guard,
    pub symbols: &'static [Symbol],
}

/// A row that is taken: one of the profile's, none of which here has a guard, or another.
#[derive(Clone, Copy, Debug)]
pub enum Taken {
    Profile(&'static profile::Row),
    Own(&'static Row),
}

/// The rows of a name.
#[derive(Clone, Copy, Debug)]
pub(crate) enum Rows {
    Profile(&'static [profile::Row]),
    Own(&'static [Row]),
}

/// A row that a construct adds to a name, and the numbers of the sights that take it.
#[derive(Clone, Copy, Debug)]
pub(crate) struct AddedRow {
    pub(crate) name: Name,
    pub(crate) sights: &'static [u8],
    pub(crate) row: Row,
}
