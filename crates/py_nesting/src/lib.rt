//! How deep a module is nested, place by place.
//!
//! `specs/Depths.antt` counts the nodes that stand above one, and `specs/TooDeep.antt` says where there are too many. `specs/Outlines.antt` puts the
//! nodes together step by step, and `specs/Walk.antt` finds what stands above each by going back. The functions below have no
//! body: they carry laws.
#![tactic(auto)]

ghost use Rattle.py_nesting.specs.Effects.{EffectLaw};
ghost use Rattle.py_nesting.specs.First.{FirstLaw};
ghost use Rattle.py_nesting.specs.TooDeep.{ShallowLaw};
ghost use Rattle.py_nesting.specs.TreeOutlines.{OutlineLaw};
ghost use Rattle.py_nesting.specs.Walk.{WalkLaw};

/// A module is shallow exactly where no node of it lies too deep.
pub fn shallow_where_no_place_is_too_deep()
    ensures law { ShallowLaw }
{}

/// Going back through the steps that put outlines together meets each of their nodes, with as many above it as stand there.
pub fn walk_meets_the_nodes()
    ensures law { WalkLaw }
{}

/// Of the nodes that are met, the first that lies too deep is the first of the module.
pub fn walk_finds_the_first()
    ensures law { FirstLaw }
{}

/// The outline of a module has its depths.
pub fn outline_has_the_depths()
    ensures law { OutlineLaw }
{}

/// What an action of the grammar's table does to parts, its effect does to their entries and outlines.
pub fn effects_are_those_of_actions()
    ensures law { EffectLaw }
{}
