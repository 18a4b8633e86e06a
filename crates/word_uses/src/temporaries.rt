//! How many temporaries the statements of a turn use.

ghost use Rattle.std.specs.Prelude.{◌≡◌, ◌<◌, ◌^◌};
ghost use Rattle.list_denotation.specs.Copies.{terms_of};
ghost use Rattle.stateful_core.specs.CoreCopies.{action_of, actions_of};
ghost use Rattle.turn_blocks.specs.Temporaries.{row_temps, action_temps, acts_temps};

use expr_lower::temps_of;
use list_denotation::Expr;
use stateful_core::Act;

/// The temporaries that the statements of a row of expressions use.
pub fn row_temps(row: &[Expr]) -> u32
    requires { row_temps (terms_of row.now) < 2 ^ 32 }
    ensures { result ≡ row_temps (terms_of row.now) }
{
    match row {
        [] => 0,
        [e, rest @ ..] => temps_of(e).max(row_temps(rest)),
    }
}

/// The temporaries that the statements of acts use.
#[cycle(temps)]
pub fn acts_temps(acts: &[Act]) -> u32
    requires { acts_temps (actions_of acts.now) < 2 ^ 32 }
    ensures { result ≡ acts_temps (actions_of acts.now) }
{
    match acts {
        [] => 0,
        [act, rest @ ..] => act_temps(act).max(acts_temps(rest)),
    }
}

#[cycle(temps)]
fn act_temps(act: &Act) -> u32
    requires { action_temps (action_of act.now) < 2 ^ 32 }
    ensures { result ≡ action_temps (action_of act.now) }
{
    match act {
        Act::Let(e) | Act::Read(_, e) | Act::KeepIf(e) | Act::StopUnless(e) => temps_of(e),
        Act::Update(_, es) => row_temps(es.as_slice()),
        Act::When(e, a, b) => {
            let inside = acts_temps(a.as_slice()).max(acts_temps(b.as_slice()));
            temps_of(e).max(inside)
        }
    }
}
