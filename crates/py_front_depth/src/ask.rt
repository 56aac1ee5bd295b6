//! What symbols ask of the parts before them at least, whatever they derive.

ghost use Rattle.std.specs.Prelude.{◌≡◌, suc, IfOk};
ghost use Rattle.py_demands.specs.Least as least;
ghost use Rattle.py_depth.specs.PlainEntries.{plain_label};
ghost use Rattle.py_front_depth.specs.PlainAsks.{plain_ask};
ghost use Rattle.py_front_depth.specs.PlainRoles.{plain_role};

use crate::role::Role;
use py_depth::event::Label;
use std::alloc::AllocError;

/// What is asked of a part, with at least so many nodes above it.
#[derive(Clone, Copy, Debug)]
pub(crate) enum Ask {
    /// No node comes.
    NoNode,
    /// The whole.
    AtLeast(u32),
    /// The same without the topmost node.
    WithinAtLeast(u32),
    /// The whole, or the targets that it turns out to be.
    OpenAtLeast(u32),
}

/// One more. A text of 2^32 nodes never comes.
pub(crate) fn one_more(above: u32) -> Result<u32, AllocError>
    ensures { IfOk result (λ r. r ≡ suc above) }
{
    match above.checked_add(1) {
        Some(more) => Ok(more),
        None => Err(AllocError),
    }
}

fn below(label: Label, ask: Ask) -> Result<Ask, AllocError>
    ensures { IfOk result (λ q. plain_ask q ≡ least.ask_below (plain_label label) (plain_ask ask)) }
{
    let ask = match ask {
        Ask::NoNode => Ask::NoNode,
        Ask::AtLeast(above) => Ask::AtLeast(one_more(above)?),
        Ask::WithinAtLeast(above) => Ask::AtLeast(above),
        Ask::OpenAtLeast(above) => match label {
            Label::Plain => Ask::AtLeast(one_more(above)?),
            Label::Bracket => Ask::OpenAtLeast(one_more(above)?),
            Label::Tuple => Ask::AtLeast(above),
        },
    };
    Ok(ask)
}

fn apart(ask: Ask) -> Ask
    ensures { plain_ask result ≡ least.ask_apart (plain_ask ask) }
{
    match ask {
        Ask::NoNode => Ask::NoNode,
        Ask::AtLeast(above) | Ask::WithinAtLeast(above) | Ask::OpenAtLeast(above) => {
            Ask::AtLeast(above)
        }
    }
}

fn loose(ask: Ask) -> Ask
    ensures { plain_ask result ≡ least.ask_loose (plain_ask ask) }
{
    match ask {
        Ask::NoNode => Ask::NoNode,
        Ask::AtLeast(above) | Ask::WithinAtLeast(above) | Ask::OpenAtLeast(above) => {
            Ask::WithinAtLeast(above)
        }
    }
}

fn turned(ask: Ask) -> Ask
    ensures { plain_ask result ≡ least.ask_turned (plain_ask ask) }
{
    match ask {
        Ask::NoNode => Ask::NoNode,
        Ask::AtLeast(above) | Ask::WithinAtLeast(above) | Ask::OpenAtLeast(above) => {
            Ask::OpenAtLeast(above)
        }
    }
}

/// Of a token at which a node stands.
fn head(ask: Ask) -> Ask
    ensures { plain_ask result ≡ least.ask_head (plain_ask ask) }
{
    match ask {
        Ask::NoNode | Ask::WithinAtLeast(_) => Ask::NoNode,
        Ask::AtLeast(above) | Ask::OpenAtLeast(above) => Ask::AtLeast(above),
    }
}

/// What is asked of an expression behind which it is told whether it is targets.
pub(crate) fn opened(ask: Ask) -> Result<Ask, AllocError>
    ensures { IfOk result (λ q. plain_ask q ≡ least.opened (plain_ask ask)) }
{
    let ask = match ask {
        Ask::NoNode => Ask::NoNode,
        Ask::AtLeast(above) => Ask::OpenAtLeast(one_more(above)?),
        Ask::WithinAtLeast(above) => Ask::OpenAtLeast(above),
        Ask::OpenAtLeast(above) => Ask::OpenAtLeast(one_more(above)?),
    };
    Ok(ask)
}

/// What is asked of a part in this role. Fails where memory runs out.
pub(crate) fn asked_in(ask: Ask, role: Role) -> Result<Ask, AllocError>
    ensures { IfOk result (λ q. plain_ask q ≡ least.ask_by (plain_ask ask) (plain_role role)) }
{
    let ask = match role {
        Role::Lost => Ask::NoNode,
        Role::Head(_) => head(ask),
        Role::HeadApart(_) => head(apart(ask)),
        Role::Kept => ask,
        Role::Below(label) => below(label, ask)?,
        Role::Apart => apart(ask),
        Role::BelowLoose(label) => loose(below(label, ask)?),
        Role::BelowApart => apart(below(Label::Plain, ask)?),
        Role::ApartBelow => below(Label::Plain, apart(ask))?,
        Role::Turned => turned(ask),
    };
    Ok(ask)
}
