//! Grammars as data: rows of symbols, derivations, and the run with one token of sight.
//!
//! A table gives each nonterminal its rows, and nullable, first and follow sets with it. Tests that compute
//! (`specs/Sets.antt`) say that the sets are closed and tell the rows apart; the laws below then hold of the table.
//! They are functions without a body, since a law is proved only where a contract names it.
#![tactic(auto)]

ghost use Rattle.std.specs.Prelude.{List};
ghost use Rattle.grammars.specs.Alike.{RunsAgree};
ghost use Rattle.grammars.specs.Laws.{ChainOf, Sound, Complete, OneValue, Longest, Begins, Completable};
ghost use Rattle.grammars.specs.Least.{Forced, Reached};

/// What is run to its end is derived.
pub fn run_is_sound<N, A, T, V>()
    ensures law { Sound N A T V }
{}

/// What is derived is run to its end.
pub fn run_is_complete<N, A, T, V>()
    ensures law { Complete N A T V }
{}

/// A sentence has one value.
pub fn sentence_has_one_value<N, A, T, V>()
    ensures law { OneValue N A T V }
{}

/// A run that is stuck has read the longest front of a sentence.
pub fn stuck_run_has_longest_front<N, A, T, V>()
    ensures law { Longest N A T V }
{}

/// Sets that pass the test are nullable and first sets.
pub fn closed_sets_are_right<N, A, T, V>()
    ensures law { Begins N A T V }
{}

/// Symbols that pass the test derive something from each value.
pub fn symbols_derive_something<N, A, T, V>()
    ensures law { Completable N A T V }
{}

/// What each nonterminal is taken to mean.
pub trait Reading<N, T, V> {
    ghost means: { N → V → List T → V → List T → Type 0 };
}

/// A meaning that each row keeps is kept by every derivation.
pub fn derivations_keep_what_rows_keep<N, A, T, V, R: Reading<N, T, V>>()
    ensures law { ChainOf N A T V R.means }
{}

/// Which value stands for which.
pub trait Correspondence<V, W> {
    ghost stands: { V → W → Type 0 };
}

/// Where actions and tokens keep a correspondence of values, runs keep it.
pub fn runs_keep_what_actions_keep<N, A, T, V, W, C: Correspondence<V, W>>()
    ensures law { RunsAgree N A T V W C.stands }
{}

/// An order of values.
pub trait Order<V> {
    ghost at_most: { V → V → Type 0 };
}

/// Where tokens, nonterminals and actions keep an order, and no row leads to less than its nonterminal is said to, nothing
/// that symbols derive leads to less.
pub fn completions_lead_to_no_less<N, A, T, V, O: Order<V>>()
    ensures law { Forced N A T V O.at_most }
{}

/// Where rows lead to just what is said, some tokens do.
pub fn least_is_reached<N, A, T, V>()
    ensures law { Reached N A T V }
{}
