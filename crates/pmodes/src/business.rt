//! The service and the agreement of a mode.

ghost use Rattle.std.specs.Prelude.{◌≡◌, IsTrue, Ok, IfSome, IfOk, IfErr};
ghost use Rattle.toml.specs.View.{table_view};
ghost use Rattle.mode_values.specs.ModeRanges.{is_short, is_short_service, is_mode_agreement};
ghost use Rattle.pmodes.specs.ModeParts.{service_in, agreement_in, agreement_with};
ghost use Rattle.pmodes.specs.Verdicts.{Refuses};

use crate::fault::Fault;
use crate::fields::{needed_text, optional_text};
use crate::refusal::Key;
use crate::values::value_at;
use as4_values::{Agreement, Service, Text};
use std::alloc::Global;
use toml::Table;

#[tactic(auto, unfolding(crate::specs::ModeParts::service_in, mode_values::specs::ModeRanges::is_short_service))]
pub fn service_in(alloc: Global, table: &Table) -> Result<Service, Fault>
    ensures found { IfOk result (λ service. service_in (table_view table.now) ≡ Ok service) }
    ensures refused { IfErr result (Refuses (service_in (table_view table.now))) }
    ensures short { IfOk result (λ service. IsTrue (is_short_service service)) }
{
    let value = needed_text(alloc, table, "service", Key::Service)?;
    let kind = optional_text(alloc, table, "service_type", Key::ServiceType)?;
    Ok(Service { value, kind })
}

/// The agreement, if there is one.
#[tactic(auto, unfolding(crate::specs::ModeParts::agreement_in))]
pub fn agreement_in(alloc: Global, table: &Table) -> Result<Option<Agreement>, Fault>
    ensures found { IfOk result (λ agreement. agreement_in (table_view table.now) ≡ Ok agreement) }
    ensures refused { IfErr result (Refuses (agreement_in (table_view table.now))) }
    ensures short { IfOk result (λ agreement. IsTrue (is_mode_agreement agreement)) }
{
    match optional_text(alloc, table, "agreement", Key::Agreement) {
        Ok(value) => agreement_with(alloc, table, value),
        Err(fault) => Err(fault),
    }
}

// A type without an agreement is an error, whatever its value is.
#[tactic(auto, unfolding(crate::specs::ModeParts::agreement_with, mode_values::specs::ModeRanges::is_mode_agreement))]
fn agreement_with(
    alloc: Global,
    table: &Table,
    value: Option<Text>,
) -> Result<Option<Agreement>, Fault>
    requires { IfSome value (λ text. IsTrue (is_short text)) }
    ensures found { IfOk result (λ agreement. agreement_with (table_view table.now) value ≡ Ok agreement) }
    ensures refused { IfErr result (Refuses (agreement_with (table_view table.now) value)) }
    ensures short { IfOk result (λ agreement. IsTrue (is_mode_agreement agreement)) }
{
    let Some(value) = value else {
        return match value_at(table, "agreement_type") {
            Some(_) => Err(Fault::Range(Key::AgreementType)),
            None => Ok(None),
        };
    };
    match optional_text(alloc, table, "agreement_type", Key::AgreementType) {
        Ok(kind) => Ok(Some(Agreement {
            value,
            kind,
            pmode: None,
        })),
        Err(fault) => Err(fault),
    }
}
