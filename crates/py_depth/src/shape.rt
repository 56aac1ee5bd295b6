//! What is kept of parts: what form they have, and where they begin.

ghost use Rattle.std.specs.Prelude.{◌≡◌};
ghost use Rattle.py_nesting.specs.Forms.{is_target as is_form_of_target, are_targets as is_form_of_targets};
ghost use Rattle.py_depth.specs.PlainEntries.{plain_form};

use shed_base::Place;

/// What a token is, as far as actions ask.
#[derive(Clone, Copy, Debug)]
pub enum TokenForm {
    Name,
    /// A number or a text.
    Literal,
    Other,
}

/// What an expression is, as far as actions and guards ask.
#[derive(Clone, Copy, Debug)]
pub enum ExprForm {
    Name,
    /// An attribute, which may be a target.
    Target,
    Subscript,
    /// Whether all items may be targets.
    Tuple(bool),
    /// Round or square brackets, and whether they may be targets.
    Bracket(bool),
    Comprehension,
    Dict,
    Call,
    /// Whether it has its end.
    Slice(bool),
    Compare,
    And,
    Or,
    Other,
}

#[derive(Clone, Copy, Debug)]
pub enum LoopTargetForm {
    OneName,
    SomeNames,
    InBrackets,
}

#[derive(Clone, Copy, Debug)]
pub enum ClassNameForm {
    Bare,
    Dotted,
}

#[derive(Clone, Copy, Debug)]
pub enum StmtForm {
    Global,
    Try,
    Def,
    Class,
    Other,
}

/// What form a part has.
#[derive(Clone, Copy, Debug)]
pub enum Shape {
    Token(TokenForm),
    /// A full one takes no more items or arguments by place.
    Expr(ExprForm, bool),
    Sign,
    Loop,
    /// Whether it binds names.
    LoopTarget(LoopTargetForm, bool),
    Targets,
    Class(ClassNameForm),
    /// Whether a definition has its body.
    Stmt(StmtForm, bool),
    /// Whether it has statements.
    Body(bool),
}

/// A part: its form, and where it begins, as far as nodes above it want to know.
#[derive(Clone, Copy, Debug)]
pub struct Entry {
    pub shape: Shape,
    pub place: Place,
}

/// The place of a part where nothing is to be said.
pub(crate) const NOWHERE: Place = Place {
    module: 0,
    line: 0,
    column: 0,
};

pub fn is_target(form: ExprForm) -> bool
    ensures { result ≡ is_form_of_target (plain_form form) }
{
    match form {
        ExprForm::Name | ExprForm::Target | ExprForm::Subscript => true,
        _ => false,
    }
}

pub fn are_targets(form: ExprForm) -> bool
    ensures { result ≡ is_form_of_targets (plain_form form) }
{
    match form {
        ExprForm::Name | ExprForm::Target | ExprForm::Subscript => true,
        ExprForm::Tuple(targets) | ExprForm::Bracket(targets) => targets,
        _ => false,
    }
}
