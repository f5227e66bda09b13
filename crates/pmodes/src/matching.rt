//! Whether two modes, or a mode and a header, match.

ghost use Rattle.std.specs.Prelude.{◌≡◌};
ghost use Rattle.mode_values.specs.ModeMatch.{mode_terms, header_terms, agreed_of, are_same_terms, is_same_agreed, is_same_service, is_same_side, are_same_parties, is_pulled_from};
ghost use Rattle.mode_values.specs.ModeFields.{side_fields};

use as4_values::{Agreement, Party, PlainData, Route, Seq, Service, Side, Text, UserHeader};
use mode_values::Mode;

/// Whether a message of this header belongs to the mode.
#[tactic(auto, unfolding(mode_values::specs::ModeMatch::are_same_terms))]
pub fn matches(mode: &Mode, header: &UserHeader) -> bool
    ensures { result ≡ are_same_terms (mode_terms mode.now) (header_terms header.now) }
{
    mode.action.same(&header.action)
        && is_same_service(&mode.service, &header.service)
        && is_same_side(&mode.from, &header.from)
        && is_same_side(&mode.to, &header.to)
        && is_same_agreement(&mode.agreement, &header.agreement)
}

/// Whether the same messages belong to both modes.
#[tactic(auto, unfolding(mode_values::specs::ModeMatch::are_same_terms))]
pub fn overlaps(mode: &Mode, other: &Mode) -> bool
    ensures { result ≡ are_same_terms (mode_terms mode.now) (mode_terms other.now) }
{
    mode.action.same(&other.action)
        && is_same_service(&mode.service, &other.service)
        && is_same_side(&mode.from, &other.from)
        && is_same_side(&mode.to, &other.to)
        && is_same_agreement(&mode.agreement, &other.agreement)
}

#[tactic(auto, unfolding(mode_values::specs::ModeMatch::is_same_side))]
fn is_same_side(side: &Side, other: &Side) -> bool
    ensures { result ≡ is_same_side (side_fields side.now) (side_fields other.now) }
{
    are_same_parties(&side.parties, &other.parties) && side.role.same(&other.role)
}

fn are_same_parties(parties: &Seq<Party>, others: &Seq<Party>) -> bool
    ensures { result ≡ are_same_parties parties.now others.now }
{
    parties.same(others)
}

#[tactic(auto, using(mode_values::proofs::MatchLemmas::kind_tested), unfolding(mode_values::specs::ModeMatch::is_same_service))]
fn is_same_service(service: &Service, other: &Service) -> bool
    ensures { result ≡ is_same_service service.now other.now }
{
    service.value.same(&other.value) && service.kind.same(&other.kind)
}

// Two missing agreements are equal; otherwise the values and the types are compared.
#[tactic(auto, using(mode_values::proofs::MatchLemmas::kind_tested), unfolding(mode_values::specs::ModeMatch::is_same_agreed))]
fn is_same_agreement(agreement: &Option<Agreement>, other: &Option<Agreement>) -> bool
    ensures { result ≡ is_same_agreed (agreed_of agreement.now) (agreed_of other.now) }
{
    match (agreement, other) {
        (None, None) => true,
        (Some(agreement), Some(other)) => {
            agreement.value.same(&other.value) && agreement.kind.same(&other.kind)
        }
        _ => false,
    }
}

/// Whether messages of this route wait in the channel.
pub fn is_pulled_from(mpc: &Text, route: &Route) -> bool
    ensures { result ≡ is_pulled_from mpc.now route.now }
{
    match route {
        Route::Push { .. } => false,
        Route::Pull { mpc: channel, .. } => channel.same(mpc),
    }
}
