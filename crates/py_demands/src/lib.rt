//! What is asked of the parts that stand behind a front of the tokens, whatever comes behind it.
//!
//! `specs/Roles.antt` says of each action what it asks of the parts that it takes, by what is asked of the part that it leaves, and
//! `specs/Least.antt` what each nonterminal asks at least; `specs/Closing.antt` is one way to close the symbols. A tuple that may yet be
//! assigned to is read in two ways: `specs/Aims.antt` says what is asked of an item among targets, `specs/Turning.antt` how the tuple is
//! assigned to, and `specs/Decided.antt` that no module has a node less deep than one of both ways. `specs/Ready.antt` says how the symbols of a
//! run stand, from which `specs/Readings.antt` computes the reading with targets, and `specs/BothFirst.antt` finds by both readings where a front
//! is nested too deep first. The functions below have no body: they carry laws.
#![tactic(auto)]

ghost use Rattle.py_demands.specs.Agreed.{LeastLaw};
ghost use Rattle.py_demands.specs.Aimed.{ItemLaw};
ghost use Rattle.py_demands.specs.Bound.{LowerLaw, ClosingLaw};
ghost use Rattle.py_demands.specs.BothFirst.{BothFirstLaw, BothFoundLaw, OrderedFrontLaw};
ghost use Rattle.py_demands.specs.Decided.{EitherLaw, WholeLaw, BothLaw};
ghost use Rattle.py_demands.specs.FrontDepth.{FirstLaw};
ghost use Rattle.py_demands.specs.ItemSteps.{ItemStepsLaw};
ghost use Rattle.py_demands.specs.Paired.{PairedLaw, SteadyLaw, AgreementLaw};
ghost use Rattle.py_demands.specs.Readings.{ReadingLaw, ReachedReadLaw};
ghost use Rattle.py_demands.specs.Ready.{ReadyLaw};
ghost use Rattle.py_demands.specs.Steps.{StepsLaw};
ghost use Rattle.py_demands.specs.Stops.{ShallowFrontLaw};
ghost use Rattle.py_demands.specs.TurnedPaired.{TurnedPairedLaw, BothPairsLaw};
ghost use Rattle.py_demands.specs.Turned.{TurnedLaw};
ghost use Rattle.py_demands.specs.Turning.{TurningLaw, OtherRowLaw};

/// In each module that begins with a front, the nodes of the parts behind it, and those that come to stand at their tokens, have the
/// depths that demands tell which are no less than what the symbols ask.
pub fn nodes_stand_as_deep_as_symbols_ask()
    ensures law { LowerLaw }
{}

/// A front is closed by tokens at any place to a module in which those nodes have just the depths that the closing symbols ask.
pub fn closing_symbols_give_a_module()
    ensures law { ClosingLaw }
{}

/// From the beginning of a module, each step of the table's run over a front leads to a place where what the symbols ask, at least and
/// where they are closed, is known, and where the parts have nodes at the tokens that were read alone.
pub fn a_run_finds_what_is_asked()
    ensures law { StepsLaw }
{}

/// Where what is asked at least is what is asked when the symbols are closed, no module that begins with the front and has a node at a
/// place of the front has it less deep than the closing symbols ask.
pub fn where_asks_agree_no_module_stands_less_deep()
    ensures law { LeastLaw }
{}

/// What a module that begins with a front reads as targets may be targets as it stands behind the front.
pub fn what_is_read_as_targets_may_be_targets()
    ensures law { TurnedLaw }
{}

/// Where the symbols of an expression, closed, leave what may be targets, a module that begins with the front assigns to it, and has the
/// nodes behind the front just as deep as is asked there.
pub fn what_may_be_targets_is_assigned_to()
    ensures law { TurningLaw }
{}

/// And where they do so if one of them gives way to another row than the closing one, as when an attribute is made of an item.
pub fn what_another_row_makes_targets_is_assigned_to()
    ensures law { OtherRowLaw }
{}

/// Where an item is read of a tuple that may be assigned to, a module that begins with the front either reads the tuple as a whole, and
/// asks no less of the parts than that does, or assigns to it, and asks no less than is asked of an item that is a target in the end.
pub fn item_is_read_in_a_whole_or_among_targets()
    ensures law { ItemLaw }
{}

/// From where an item is to be read of a tuple that may be assigned to, each step of the table's run leads to a place where what is asked of
/// the item is known, in a whole and among targets.
pub fn a_run_finds_what_is_asked_of_an_item()
    ensures law { ItemStepsLaw }
{}

/// Where an item is read of a tuple that may be assigned to, no module that begins with the front has a node less deep than one of the two
/// that close it: the one that reads the tuple as a whole, and the one that assigns to it.
pub fn no_module_stands_less_deep_than_either_reading()
    ensures law { EitherLaw }
{}

/// Where no module assigns to the tuple, none has a node less deep than the one that reads it as a whole.
pub fn what_is_no_target_is_read_as_a_whole()
    ensures law { WholeLaw }
{}

/// Where one part may be read as targets as it stands, no module has a node less deep than one of the two readings.
pub fn no_module_stands_less_deep_than_both_readings()
    ensures law { BothLaw }
{}

/// What is asked at least goes together with what is asked when the symbols are closed, but where a tuple that may be assigned to is read.
pub fn least_and_closing_go_together()
    ensures law { PairedLaw }
{}

/// So both agree behind a front where no item of such a tuple is read and what may be targets is read as a whole, and where an item is, if the
/// tuple is read as a whole.
pub fn least_and_closing_agree_behind_a_front()
    ensures law { AgreementLaw }
{}

/// What is asked at least goes together with what is asked where the last expression is assigned to.
pub fn least_and_turning_go_together()
    ensures law { TurnedPairedLaw }
{}

/// Where one part may be read as targets, what is asked where the symbols are closed and where it is assigned to are the two readings.
pub fn pairs_are_the_two_readings()
    ensures law { BothPairsLaw }
{}

/// What may be one of several targets has the same nodes as one.
pub fn a_target_has_the_same_nodes()
    ensures law { SteadyLaw }
{}

/// Where demands are met in a module that begins with a front, and no module that does has a node less deep, the first node that is met and
/// has more than 100 others above it stands at the first place where the front is nested too deep.
pub fn the_first_node_too_deep_is_met()
    ensures law { FirstLaw }
{}

/// From the beginning, each step of the table's run over a front keeps the symbols so that one expression at most may be assigned to, and one item
/// at most is read of it.
pub fn a_run_reads_one_expression_that_may_be_assigned_to()
    ensures law { ReadyLaw }
{}

/// In each module that begins with a front, a node stands no less deep than in one of the two readings: the one that closes the symbols, and the one
/// that assigns to what may be targets.
pub fn a_module_stands_no_less_deep_than_a_reading()
    ensures law { ReadingLaw }
{}

/// A module that begins with the front has the nodes behind it just as deep as the reading with targets asks, where there is that reading.
pub fn a_reading_with_targets_is_that_of_a_module()
    ensures law { ReachedReadLaw }
{}

/// Where each of two readings is that of a module that begins with a front, and no module has a node less deep than one of both, the first place where
/// a node has more than 100 others above it in each of both that has one is the first where the front is nested too deep.
pub fn the_first_node_too_deep_in_both_readings_is_met()
    ensures law { BothFirstLaw }
{}

/// Where the tokens are in order, that place is found by going over them.
pub fn the_first_node_too_deep_in_both_readings_is_found_by_tokens()
    ensures law { BothFoundLaw }
{}

/// Tokens in the order of the text have places of their own, but for layout, and none stands before an earlier one.
pub fn tokens_in_order_are_apart()
    ensures law { OrderedFrontLaw }
{}

/// Where computation over a front finds no node too deep in one of both readings, the front is nested too deep nowhere.
pub fn a_front_is_shallow_by_computation()
    ensures law { ShallowFrontLaw }
{}
