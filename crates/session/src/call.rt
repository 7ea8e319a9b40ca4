ghost use Rattle.std.specs.Prelude.{◌≡◌, [], ◌∷◌};
ghost use Rattle.traversal.specs.Worlds.{world_of, SameLoans};
ghost use Rattle.session.specs.History.{History, asked};
ghost use Rattle.session.specs.declared.held.Held.TheVariants.{Drafting};

use crate::held::{Ask, Call, Held};
use traversal::lent::Lent;
use traversal::outcome::Incomplete;
use traversal::state::Draft;
use tree::maker::Maker;
use tree::source::Source;

/// Makes a call on a draft. Whatever a call does is a step of the histories that the law speaks of.
pub fn call<M: Maker, S: Source>(mut draft: Draft, ask: Ask, lent: &mut Lent<M, S>) -> (Held, Call)
    ensures asked { asked result.1 ≡ ask }
    ensures made { History (Drafting draft) (world_of M.meaning M.meter S.supply lent.old) (result.1 ∷ []) result.0 (world_of M.meaning M.meter S.supply lent.new) }
    ensures same_loans { SameLoans lent.old lent.new }
{
    match ask {
        Ask::Step(budget) => {
            let answer = draft.step(lent, budget);
            (Held::Drafting(draft), Call::Step { budget, answer })
        }
        Ask::Turn => match draft.turn() {
            Ok(run) => (Held::Running(run), Call::Turn { answer: Ok(()) }),
            Err(Incomplete { draft, early }) => {
                (Held::Drafting(draft), Call::Turn { answer: Err(early) })
            }
        },
    }
}
