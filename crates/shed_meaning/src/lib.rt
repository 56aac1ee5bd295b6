//! What a translation is: the names and declarations that a program's C++ has, its types table and makefile, what the
//! command's words say, what a run of the command leaves, and the headline that ties a program to its C++.
//! The crate holds definitions, in `specs/`. The function below has no body: it carries a law.
#![tactic(auto)]

ghost use Rattle.shed_meaning.specs.Ordered.{GrammarOrderedLaw};

/// The tokens of a text as the grammar sees them stand in its order, and so do those of a front.
pub fn tokens_for_the_grammar_are_in_order()
    ensures law { GrammarOrderedLaw }
{}
