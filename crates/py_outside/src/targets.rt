//! What stands at the left of an assignment, and what constructs let stand there besides.

ghost use Rattle.std.specs.Prelude.{◌≡◌};
ghost use Rattle.std.specs.Option.{option_map};
ghost use Rattle.py_constructs.specs.Values.{are_own as are_own_of, among as among_of, together as together_of, head_in as head_in_of, are_wide as are_wide_of, is_wide as is_wide_of, part_in as part_in_of};
ghost use Rattle.py_outside.specs.PlainValues.{plain_numbered, plain_targets, plain_widening};

use crate::item::Numbered;

/// What stands at the left of an assignment.
#[derive(Clone, Copy, Debug)]
pub(crate) enum Targets {
    /// It does not.
    No,
    /// With none added: names, attributes and subscripts, in brackets or not.
    Own,
    /// Slices among them, and the bracket of the first.
    Sliced(Numbered),
    /// Brackets with targets as one of several, and the first of them.
    Nested(Numbered),
}

/// What a construct lets stand there besides.
#[derive(Clone, Copy, Debug)]
pub(crate) enum Widening {
    Nothing,
    Slices,
    /// Brackets with targets as one of several.
    Brackets,
}

pub(crate) fn are_own(targets: Targets) -> bool
    ensures { result ≡ are_own_of (plain_targets targets) }
{
    match targets {
        Targets::Own => true,
        Targets::No => false,
        Targets::Sliced(_) => false,
        Targets::Nested(_) => false,
    }
}

/// Targets in a bracket, as one of several.
pub(crate) fn among(bracket: Numbered, targets: Targets) -> Targets
    ensures { plain_targets result ≡ among_of (plain_numbered bracket) (plain_targets targets) }
{
    match targets {
        Targets::Own => Targets::Nested(bracket),
        Targets::Nested(_) => Targets::Nested(bracket),
        Targets::No => Targets::No,
        Targets::Sliced(_) => Targets::No,
    }
}

/// Targets and one more: what stands with each alone.
pub(crate) fn together(targets: Targets, next: Targets) -> Targets
    ensures { plain_targets result ≡ together_of (plain_targets targets) (plain_targets next) }
{
    match (targets, next) {
        (Targets::Own, next) => next,
        (Targets::Sliced(head), Targets::Own) => Targets::Sliced(head),
        (Targets::Sliced(head), Targets::Sliced(_)) => Targets::Sliced(head),
        (Targets::Sliced(_), Targets::No) => Targets::No,
        (Targets::Sliced(_), Targets::Nested(_)) => Targets::No,
        (Targets::Nested(head), Targets::Own) => Targets::Nested(head),
        (Targets::Nested(head), Targets::Nested(_)) => Targets::Nested(head),
        (Targets::Nested(_), Targets::No) => Targets::No,
        (Targets::Nested(_), Targets::Sliced(_)) => Targets::No,
        (Targets::No, _) => Targets::No,
    }
}

/// What the profile does not have of these targets.
pub(crate) fn head_in(targets: Targets) -> Option<Numbered>
    ensures { option_map plain_numbered result ≡ head_in_of (plain_targets targets) }
{
    match targets {
        Targets::No => None,
        Targets::Own => None,
        Targets::Sliced(head) => Some(head),
        Targets::Nested(head) => Some(head),
    }
}

/// One target or some, before a comma.
pub(crate) fn part_in(item: Targets, whole: Targets) -> Targets
    ensures { plain_targets result ≡ part_in_of (plain_targets item) (plain_targets whole) }
{
    match item {
        Targets::No => whole,
        Targets::Own => Targets::Own,
        Targets::Sliced(head) => Targets::Sliced(head),
        Targets::Nested(head) => Targets::Nested(head),
    }
}

/// Whether these are targets, where a construct lets more be.
pub(crate) fn are_wide(widening: Widening, targets: Targets) -> bool
    ensures { result ≡ are_wide_of (plain_widening widening) (plain_targets targets) }
{
    match targets {
        Targets::No => false,
        Targets::Own => true,
        Targets::Sliced(_) => match widening {
            Widening::Nothing => false,
            Widening::Slices => true,
            Widening::Brackets => false,
        },
        Targets::Nested(_) => match widening {
            Widening::Nothing => false,
            Widening::Slices => false,
            Widening::Brackets => true,
        },
    }
}

/// The same of one target alone.
pub(crate) fn is_wide(widening: Widening, targets: Targets) -> bool
    ensures { result ≡ is_wide_of (plain_widening widening) (plain_targets targets) }
{
    match targets {
        Targets::No => false,
        Targets::Own => true,
        Targets::Sliced(_) => match widening {
            Widening::Nothing => false,
            Widening::Slices => true,
            Widening::Brackets => false,
        },
        Targets::Nested(_) => false,
    }
}
