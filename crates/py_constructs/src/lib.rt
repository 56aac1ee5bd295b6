//! The profile's grammar with one construct of Python added, and where that construct stands.
//!
//! `specs/Table.antt` is the grammar with each construct, `specs/Standing.antt` says where a construct stands in place of a token with
//! which no front of a module of the profile goes on. The functions below have no body: they carry laws, by which a search that runs
//! the table is right.
#![tactic(auto)]

ghost use Rattle.py_constructs.specs.Reached.{EndLaw, OnceLaw, ToldLaw, StuckLaw};
ghost use Rattle.py_constructs.specs.OneStep.{StartLaw, StepLaw, OwnStepLaw, HaltLaw, FinishLaw, EarlyLaw};
ghost use Rattle.py_constructs.specs.Search.{NextLaw, LastLaw};

/// A construct stands at one head at most.
pub fn a_construct_stands_once()
    ensures law { OnceLaw }
{}

/// It stands at the head that a run tells, once the first bad token has been read.
pub fn a_construct_stands_where_it_is_told()
    ensures law { ToldLaw }
{}

/// It stands nowhere, where its run is stuck that has not read the first bad token or has told nothing.
pub fn a_construct_stands_nowhere_where_its_run_is_stuck()
    ensures law { StuckLaw }
{}

/// So where a run has ended, it has told the head, or there is none.
pub fn the_end_of_a_run_tells_the_head()
    ensures law { EndLaw }
{}

/// Where a run stands is known at its beginning, over each step with a construct or with none, and at its end; and once a head is
/// told and the first bad token read, the construct stands there.
pub fn a_run_knows_where_it_stands()
    ensures start { StartLaw }
    ensures step { StepLaw }
    ensures own_step { OwnStepLaw }
    ensures halt { HaltLaw }
    ensures finish { FinishLaw }
    ensures early { EarlyLaw }
{}

/// The construct whose head comes first is found by looking at one after another, in order.
pub fn the_first_head_is_found_in_order()
    ensures next { NextLaw }
    ensures last { LastLaw }
{}
