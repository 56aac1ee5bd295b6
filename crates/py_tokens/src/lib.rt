//! What Python's tokens mean here: which tokens a text has, or why it has none.
//! The crate holds definitions, in `specs/`, and vectors that review them, in `proofs/`. The function below has no
//! body: it carries a law.
#![tactic(auto)]

ghost use Rattle.py_tokens.specs.Ordered.{OrderedLaw};

/// The tokens of a text stand in its order.
pub fn the_tokens_of_a_text_are_in_order()
    ensures law { OrderedLaw }
{}
