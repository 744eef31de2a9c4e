ghost use Rattle.std.specs.Prelude.{◌≡◌};
ghost use Rattle.splits.specs.Own.{OwnLetters, own};
ghost use Rattle.splits.specs.Rules.{LawfulForAll};

use crate::beside::Beside;
use crate::corridor::Corridor;
use crate::edge::Edge;
use crate::rule::SplitRule;
use crate::target::Target;
use crate::vertex::Vertex;

// Our own four letters side by side.
pub type OwnRules = Beside<Vertex, Beside<Edge, Beside<Target, Corridor>>>;

pub fn own_rules() -> OwnRules
    ensures are_our_own { ⟦<OwnRules as SplitRule>⟧.rules result ≡ own }
    ensures answer_as_their_conditions_tell { OwnLetters }
    ensures lawful_for_all_carts_and_bans { LawfulForAll own }
{
    Beside {
        first: Vertex,
        second: Beside {
            first: Edge,
            second: Beside {
                first: Target,
                second: Corridor,
            },
        },
    }
}
