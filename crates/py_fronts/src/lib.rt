//! What stands on the stack while the table's symbols are read, whatever tokens come.
//!
//! `specs/Kinds.antt` says of each action and each nonterminal what kinds of parts it takes from the top and leaves there, and
//! `specs/Fit.antt` that symbols find what they take. `specs/AtFront.antt` says where the run stands behind a front of the tokens.
//! The functions below have no body: they carry laws.
#![tactic(auto)]

ghost use Rattle.py_fronts.specs.AtFront.{CompletionLaw, DepthLaw};
ghost use Rattle.py_fronts.specs.Fit.{FitLaw, StartLaw};

/// At the start the symbols fit.
pub fn start_fits()
    ensures law { StartLaw }
{}

/// What symbols derive that fit takes the outlines of the parts before to those of the parts behind, by steps: each action on the
/// way finds what it takes.
pub fn fitting_symbols_put_outlines_together()
    ensures law { FitLaw }
{}

/// The modules that begin with a front of the tokens are what is derived from where the run stands behind the front.
pub fn modules_go_on_from_the_front()
    ensures law { CompletionLaw }
{}

/// A module that begins with a front has the depths that steps behind the front ask of the nodes so far, and those of the nodes
/// that come behind it.
pub fn depths_are_asked_from_behind_the_front()
    ensures law { DepthLaw }
{}
