//! Machines that take small steps, their runs with a number of ticks, and the laws that hold of every machine.
//!
//! The definitions stand in `specs/` and the laws in `proofs/`, for the crates above to cite. The functions here do
//! nothing: their contracts are the laws that a contract can state, which are those that quantify over no predicate.
#![tactic(auto)]

ghost use Rattle.runs.specs.Laws.{OneResult, BothWays, PutLaws};

/// A run with a number of ticks has one result at most.
pub fn one_result<S>()
    ensures { OneResult S }
{}

/// Where two machines have the same runs, whatever one of them comes to, the other comes to.
pub fn both_ways<S, T>()
    ensures { BothWays S T }
{}

/// A finite map has at a key what was put there, and elsewhere what it had.
pub fn put_laws<K, V>()
    ensures { PutLaws K V }
{}
