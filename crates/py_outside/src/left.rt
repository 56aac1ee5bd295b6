//! What may stand at the left of an assignment, as far as a statement or a right side was read.

ghost use Rattle.std.specs.Prelude.{◌≡◌, ◌∷◌, IfOk, OnOk};
ghost use Rattle.std.specs.Option.{option_map};
ghost use Rattle.py_constructs.specs.Values.{mark_of as mark_of_kind, head_round as head_round_of, spoilt as spoilt_of, in_bracket as in_bracket_of, in_part as in_part_of, with_part as with_part_of, opened, closed, is_within as is_within_of, anew as anew_of, left_with, at_left};
ghost use Rattle.py_outside.specs.PlainValues.{plain_numbered, plain_targets, plain_mark, plain_level, plain_left, levels_of, IsPopped};

use crate::item::Numbered;
use crate::targets::Targets;
use std::alloc::{AllocError, Global};

/// What a token is to what may stand at the left of an assignment.
#[derive(Clone, Copy, Debug)]
pub(crate) enum Mark {
    /// A name or a literal.
    Word,
    Dot,
    /// A round or a square bracket that opens.
    Bracket,
    Brace,
    Closing,
    Comma,
    /// What stands between lines, statements and the sides of an assignment.
    Break,
    Sign,
}

/// What stands in a bracket, or in none, if it is all at the left of an assignment.
#[derive(Clone, Copy, Debug)]
pub(crate) struct Level {
    /// It may be targets.
    pub(crate) may: bool,
    /// The first bracket that is one of several.
    pub(crate) head: Option<Numbered>,
}

/// The level here and those of the brackets round it.
#[derive(Debug, Drop)]
pub struct Left {
    pub(crate) here: Level,
    /// A target has begun.
    pub(crate) begun: bool,
    /// The last on top.
    pub(crate) outer: Vec<Level>,
}

/// The mark of a token of this kind.
pub(crate) fn mark_of(kind: u8) -> Mark
    ensures { plain_mark result ≡ mark_of_kind kind }
{
    if kind < 4 {
        Mark::Word
    } else if kind < 8 {
        Mark::Sign
    } else if kind < 11 {
        Mark::Break
    } else if kind < 14 {
        Mark::Word
    } else {
        match kind {
            81 => Mark::Bracket,
            83 => Mark::Bracket,
            85 => Mark::Brace,
            82 => Mark::Closing,
            84 => Mark::Closing,
            86 => Mark::Closing,
            87 => Mark::Comma,
            89 => Mark::Dot,
            88 => Mark::Break,
            90 => Mark::Break,
            91 => Mark::Break,
            _ => Mark::Sign,
        }
    }
}

/// The level where a bracket opens in which targets may stand.
fn in_bracket(level: Level, bracket: Numbered) -> Level
    ensures { plain_level result ≡ in_bracket_of (plain_level level) (plain_numbered bracket) }
{
    if !level.may {
        return level;
    }
    match level.head {
        Some(_) => Level {
            may: true,
            head: level.head,
        },
        None => Level {
            may: true,
            head: Some(bracket),
        },
    }
}

/// The level of what is only a part of a target.
fn in_part(level: Level) -> Level
    ensures { plain_level result ≡ in_part_of (plain_level level) }
{
    Level {
        may: false,
        head: level.head,
    }
}

#[tactic(auto, using(crate::proofs::Levels::stacks))]
fn push(outer: &mut Vec<Level>, level: Level) -> Result<(), AllocError>
    ensures { OnOk result (levels_of outer.new.items ≡ plain_level level ∷ levels_of outer.old.items) }
{
    outer.push(level)?;
    Ok(())
}

#[tactic(auto, using(crate::proofs::Levels::stacks))]
fn pop(outer: &mut Vec<Level>) -> Option<Level>
    ensures { IsPopped (levels_of outer.old.items) (option_map plain_level result) (levels_of outer.new.items) }
{
    outer.pop()
}

#[tactic(auto, using(crate::proofs::Levels::stacks))]
fn head_round(outer: &[Level]) -> Option<Numbered>
    ensures { option_map plain_numbered result ≡ head_round_of (levels_of outer.now) }
{
    match outer.split_last() {
        Some((level, _)) => level.head,
        None => None,
    }
}

/// Whether a bracket is open.
#[tactic(auto, using(crate::proofs::Levels::stacks))]
fn is_within(outer: &[Level]) -> bool
    ensures { result ≡ is_within_of (levels_of outer.now) }
{
    match outer.split_last() {
        Some(_) => true,
        None => false,
    }
}

impl Left {
    /// Where nothing was read.
    #[tactic(auto, using(crate::proofs::Levels::stacks))]
    pub(crate) fn new(alloc: Global) -> Left
        ensures { plain_left result ≡ at_left }
    {
        Left {
            here: Level {
                may: true,
                head: None,
            },
            begun: false,
            outer: Vec::new(alloc),
        }
    }

    /// The same once more.
    ///
    /// Fails where memory runs out.
    #[tactic(auto, using(crate::proofs::Levels::stacks))]
    pub(crate) fn copied(&self, alloc: Global) -> Result<Left, AllocError>
        ensures { IfOk result (λ copy. plain_left copy ≡ plain_left self.now) }
    {
        Ok(Left {
            here: self.here,
            begun: self.begun,
            outer: Vec::from_slice(alloc, &self.outer)?,
        })
    }

    /// What was read here is no target.
    fn spoil(&mut self)
        ensures { plain_left self.new ≡ spoilt_of (plain_left self.old) }
    {
        self.here = Level {
            may: false,
            head: head_round(&self.outer),
        };
        self.begun = false;
    }

    /// Another statement or another side begins.
    fn begin(&mut self)
        ensures { plain_left self.new ≡ anew_of (plain_left self.old) }
    {
        self.here = Level {
            may: true,
            head: None,
        };
        self.begun = false;
    }

    /// A target or some were read.
    fn take(&mut self, part: Targets)
        ensures { plain_left self.new ≡ with_part_of (plain_targets part) (plain_left self.old) }
    {
        match part {
            Targets::No => self.spoil(),
            Targets::Sliced(_) => self.spoil(),
            Targets::Own => self.begun = false,
            Targets::Nested(head) => {
                self.here = in_bracket(self.here, head);
                self.begun = false;
            }
        }
    }

    /// A bracket or a brace opens.
    fn open(&mut self, here: Level) -> Result<(), AllocError>
        ensures { OnOk result (plain_left self.new ≡ opened (plain_level here) (plain_left self.old)) }
    {
        push(&mut self.outer, self.here)?;
        self.here = here;
        self.begun = false;
        Ok(())
    }

    /// A bracket or a brace closes.
    fn close(&mut self)
        ensures { plain_left self.new ≡ closed (plain_left self.old) (plain_left self.old).outer }
    {
        if let Some(level) = pop(&mut self.outer) {
            self.here = level;
        }
        self.begun = true;
    }

    /// Reads a token with this mark, before which these targets stand.
    ///
    /// Fails where memory runs out.
    pub(crate) fn read(
        &mut self,
        mark: Mark,
        part: Targets,
        token: Numbered,
    ) -> Result<(), AllocError>
        ensures { OnOk result (plain_left self.new ≡ left_with (plain_mark mark) (plain_targets part) (plain_numbered token) (plain_left self.old)) }
    {
        match mark {
            Mark::Word => self.begun = true,
            Mark::Dot => {}
            Mark::Bracket => {
                let here = if self.begun {
                    in_part(self.here)
                } else {
                    in_bracket(self.here, token)
                };
                return self.open(here);
            }
            Mark::Brace => return self.open(in_part(self.here)),
            Mark::Closing => self.close(),
            Mark::Comma => self.take(part),
            Mark::Break => {
                if is_within(&self.outer) {
                    self.spoil();
                } else {
                    self.begin();
                }
            }
            Mark::Sign => self.spoil(),
        }
        Ok(())
    }
}
