//! The syntax of the whole profile: trees, the grammar that ties them to tokens, and the same grammar as a table.
//!
//! `specs/Grammar.antt` says which tokens spell which tree, one case for each form. `specs/Table.antt` is an LL(1) table
//! with actions that build the tree. The functions below have no body: they carry laws, which are proved only where a
//! contract names them.
#![tactic(auto)]

ghost use Rattle.py_syntax.specs.Laws.{TableSpells, OneTree, RunBuildsTree, StuckAtLongestFront, TreeIsReached};

/// The table derives a tree from just the tokens that spell it.
pub fn table_spells_what_the_grammar_says()
    ensures law { TableSpells }
{}

/// Tokens spell one tree at most.
pub fn tokens_have_one_tree()
    ensures law { OneTree }
{}

/// A run that comes to its end has built the tree.
pub fn finished_run_has_built_the_tree()
    ensures law { RunBuildsTree }
{}

/// A run that is stuck has read the longest front of a module.
pub fn stuck_run_has_read_the_longest_front()
    ensures law { StuckAtLongestFront }
{}

/// A run of some number of steps comes to each tree.
pub fn each_tree_is_reached()
    ensures law { TreeIsReached }
{}
