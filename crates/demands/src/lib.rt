// The list of open demands: a lent slice of 256 places. Any words of a place stand for some demand: see specs/Meaning.antt.
#![tactic(auto)]

ghost use Rattle.std.specs.Prelude.{◌≡◌, ◌≤◌, length};
ghost use Rattle.resolution.specs.Run.{eq_demand, is_open};
ghost use Rattle.demands.specs.Meaning.{demand_of, place_of, place_demand, open_demands, cleared_places};
ghost use Rattle.demands.specs.Promises.{Opens};

use records::{DefinitionIndex, ExpressionId, FileScopeId};
use refusals::Refusal;

// As many demands may be open at once.
pub const PLACES: usize = 256;

// The kinds as the first word of a place says them: numbers, since a place is lent memory (the C interface).
const KIND_TYPE: u32 = 0;

const KIND_DEFINITION: u32 = 1;

const KIND_EXPRESSION: u32 = 2;

const KIND_STRUCT: u32 = 3;

const KIND_SIGNATURE: u32 = 4;

// A call of one of the five tracked functions: the number of its module, its record, and its scope or context, in the order of the definition's `Demand`, whose
// parts have no names either.
#[derive(Clone, Copy, PartialEq, Eq)]
pub enum OpenDemand {
    // `resolve_ast_type`: the type expression and its scope.
    Type(u32, u32, FileScopeId),
    // `definition_semantic_type`.
    Definition(u32, DefinitionIndex),
    // `expression_semantic_type`: the expression, and its context where it has one.
    Expression(u32, ExpressionId, Option<u32>),
    // `struct_semantic_data`.
    Struct(u32, DefinitionIndex),
    // `function_semantic_signature`.
    Signature(u32, DefinitionIndex),
}

// A place of the list: the kind, the module, the record, whether there is a context, and the scope or context. Words and no enum: the C interface lends
// them, and any words may stand there.
pub type Place = [u32; 5];

// The demand that a place stands for. A kind above a signature's is a signature's, and words that don't count for the kind aren't looked at.
impl From<Place> for OpenDemand {
    ghost from_gives = { λ place d. demand_of d ≡ place_demand place };

    fn from(place: Place) -> OpenDemand {
        let [kind, m, n, within, more] = place;
        match kind {
            KIND_TYPE => OpenDemand::Type(m, n, FileScopeId(more)),
            KIND_DEFINITION => OpenDemand::Definition(m, DefinitionIndex(n)),
            KIND_EXPRESSION => {
                let context = (within != 0).then_some(more);
                OpenDemand::Expression(m, ExpressionId(n), context)
            }
            KIND_STRUCT => OpenDemand::Struct(m, DefinitionIndex(n)),
            _ => OpenDemand::Signature(m, DefinitionIndex(n)),
        }
    }
}

// The place of a demand: what it doesn't have is 0.
impl From<OpenDemand> for Place {
    ghost from_gives = { λ d place. place ≡ place_of d };

    fn from(d: OpenDemand) -> Place {
        match d {
            OpenDemand::Type(m, t, s) => [KIND_TYPE, m, t, 0, s.0],
            OpenDemand::Definition(m, d) => [KIND_DEFINITION, m, d.0, 0, 0],
            OpenDemand::Expression(m, e, Some(t)) => [KIND_EXPRESSION, m, e.0, 1, t],
            OpenDemand::Expression(m, e, None) => [KIND_EXPRESSION, m, e.0, 0, 0],
            OpenDemand::Struct(m, d) => [KIND_STRUCT, m, d.0, 0, 0],
            OpenDemand::Signature(m, d) => [KIND_SIGNATURE, m, d.0, 0, 0],
        }
    }
}

// Makes the first 256 places zero, or all where there are fewer. (The body is `fill`; the promise is of this buffer.)
pub fn clear(demands: &mut [Place])
    ensures { demands.new ≡ cleared_places demands.old }
{
    let count = demands.len().min(PLACES);
    demands[..count].fill([0; 5]);
}

// Whether a place stands for the demand. The record and the module are in every place: they are compared first, since most places differ there, and
// the search takes less than half as long as with `==` alone.
#[tactic(auto, unfolding(resolution::specs::Run::eq_demand, resolution::specs::Run::demand_key, model::specs::Common::eq_numbers))]
fn stands_for(place: &Place, d: OpenDemand) -> bool
    ensures { result ≡ eq_demand (demand_of d) (place_demand place.now) }
{
    let [_, m, n, _, _] = Place::from(d);
    place[2] == n && place[1] == m && OpenDemand::from(*place) == d
}

// Whether the demand stands among the first `depth` open ones.
fn is_open(demands: &[Place], depth: usize, d: OpenDemand) -> bool
    requires { depth ≤ length demands.now }
    ensures { result ≡ is_open (open_demands depth demands.now) (demand_of d) }
{
    demands[..depth].iter().any(|place| stands_for(place, d))
}

// Opens a demand at `depth`, and gives the number of open ones with it: refused where it is open already, and then where no place is free.
// It asks for the 256 places and a depth within them: it is called at each demand, and `answers`, the only lender, has tested the length once.
// Inlined: the caller knows which of the five it opens, so that neither the search nor the new place looks for it.
#[inline(always)]
pub fn enter(demands: &mut [Place], depth: usize, d: OpenDemand) -> Result<usize, Refusal>
    requires { (depth ≤ 256) × (256 ≤ length demands.old) }
    ensures { Opens (demand_of d) depth demands.old demands.new result }
{
    if is_open(demands, depth, d) {
        return Err(Refusal::OpenDemand);
    }
    if depth >= PLACES {
        return Err(Refusal::Depth);
    }
    demands[depth] = Place::from(d);
    Ok(depth + 1)
}
