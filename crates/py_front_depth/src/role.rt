//! What the table asks of the parts that stand before an action, or before a nonterminal that is closed.

ghost use Rattle.std.specs.Prelude.{◌≡◌, IfOk};
ghost use Rattle.py_demands.specs.Roles as asking;
ghost use Rattle.py_depth.specs.PlainDemands.{plain_demand};
ghost use Rattle.py_front_depth.specs.PlainRoles.{plain_role};

use py_depth::event::Label;
use py_depth::walk::{Demand, below, comes, loosened, unassigned, within};
use std::alloc::AllocError;

/// What becomes of what is asked, for one part.
#[derive(Clone, Copy, Debug)]
pub(crate) enum Role {
    /// Nothing is asked of it.
    Lost,
    /// The node stands at this token.
    Head(Label),
    /// The node at this token is one of several in a group.
    HeadApart(Label),
    /// The same is asked.
    Kept,
    Below(Label),
    Apart,
    BelowLoose(Label),
    BelowApart,
    ApartBelow,
    /// It turns out to be targets.
    Turned,
}

/// The node that stands at a token, as if the token were its outline.
fn at_token(above: Option<u32>) -> Demand
    ensures { plain_demand result ≡ asking.at_token above }
{
    match above {
        None => Demand::Nothing,
        Some(above) => Demand::Whole(above),
    }
}

/// What is asked of a part in this role. Fails where memory runs out.
pub(crate) fn asked_by(demand: Demand, role: Role) -> Result<Demand, AllocError>
    ensures { IfOk result (λ d. plain_demand d ≡ asking.asked_by (plain_demand demand) (plain_role role)) }
{
    let demand = match role {
        Role::Lost => Demand::Nothing,
        Role::Head(label) => at_token(comes(label, demand)),
        Role::HeadApart(label) => at_token(comes(label, within(demand))),
        Role::Kept => demand,
        Role::Below(label) => below(label, demand)?,
        Role::Apart => within(demand),
        Role::BelowLoose(label) => loosened(below(label, demand)?),
        Role::BelowApart => within(below(Label::Plain, demand)?),
        Role::ApartBelow => below(Label::Plain, within(demand))?,
        Role::Turned => unassigned(within(demand)),
    };
    Ok(demand)
}
