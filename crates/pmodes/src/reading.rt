//! Reads the modes of a document, one table after the other.

ghost use Rattle.std.specs.Prelude.{◌≡◌, ◌≢◌, IsTrue, Ok, Err, IfOk, IfErr, codes, map};
ghost use Rattle.toml.specs.Data.{get_member};
ghost use Rattle.toml.specs.View.{view, table_view};
ghost use Rattle.mode_values.specs.ModeFields.{mode_fields};
ghost use Rattle.mode_values.specs.ModeRanges.{is_mode_name, is_short, is_short_side, is_short_service, is_mode_agreement, is_mode_route, may_collect, IsRetries, IsPeriod};
ghost use Rattle.pmodes.specs.ModeFile.{partner_fields, partners_in, business_in, sending_in, mode_in, mode_of_item, modes_from, listed_in, at_place};
ghost use Rattle.pmodes.specs.Values.{name_of};
ghost use Rattle.pmodes.specs.Verdicts.{needed, Refuses};

use crate::business::{agreement_in, service_in};
use crate::fault::Fault;
use crate::fields::needed_text;
use crate::modes::MAX_MODES;
use crate::parts::{Business, Partners, Sending};
use crate::refusal::{Key, ModeRefusal};
use crate::sending::{collect_in, number_in, route_in};
use crate::sides::{array_of_tables, side_in};
use crate::values::{name_of, value_at};
use as4_values::{Seq, Text};
use mode_values::Mode;
use std::alloc::Global;
use toml::{Table, Value};

/// The mode of a table.
#[tactic(auto, unfolding(crate::specs::ModeFile::mode_in))]
pub fn mode_in(alloc: Global, table: &Table) -> Result<Mode, Fault>
    ensures found { IfOk result (λ mode. mode_in (table_view table.now) ≡ Ok (mode_fields mode)) }
    ensures refused { IfErr result (Refuses (mode_in (table_view table.now))) }
{
    let partners = partners_in(alloc, table)?;
    match business_in(alloc, table) {
        Ok(business) => match sending_in(alloc, table) {
            Ok(sending) => {
                let Partners { name, from, to } = partners;
                let Business {
                    service,
                    action,
                    agreement,
                } = business;
                let Sending {
                    route,
                    retries,
                    period,
                    collect,
                } = sending;
                Ok(Mode {
                    name,
                    from,
                    to,
                    service,
                    action,
                    agreement,
                    route,
                    retries,
                    period,
                    collect,
                })
            }
            Err(fault) => {
                drop(business);
                drop(partners);
                Err(fault)
            }
        },
        Err(fault) => {
            drop(partners);
            Err(fault)
        }
    }
}

#[tactic(auto, unfolding(crate::specs::ModeFile::partners_in))]
fn partners_in(alloc: Global, table: &Table) -> Result<Partners, Fault>
    ensures found { IfOk result (λ partners. partners_in (table_view table.now) ≡ Ok (partner_fields partners)) }
    ensures refused { IfErr result (Refuses (partners_in (table_view table.now))) }
    ensures named { IfOk result (λ partners. IsTrue (is_mode_name partners.name)) }
    ensures from_short { IfOk result (λ partners. IsTrue (is_short_side partners.from.parties partners.from.role)) }
    ensures to_short { IfOk result (λ partners. IsTrue (is_short_side partners.to.parties partners.to.role)) }
{
    let name = name_in(alloc, table)?;
    match side_in(alloc, table, "from", Key::From) {
        Ok(from) => match side_in(alloc, table, "to", Key::To) {
            Ok(to) => Ok(Partners { name, from, to }),
            Err(fault) => {
                drop(from);
                drop(name);
                Err(fault)
            }
        },
        Err(fault) => {
            drop(name);
            Err(fault)
        }
    }
}

fn name_in(alloc: Global, table: &Table) -> Result<Text, Fault>
    ensures found { IfOk result (λ name. needed Key.Name name_of (get_member (codes "name") (table_view table.now)) ≡ Ok name) }
    ensures refused { IfErr result (Refuses (needed Key.Name name_of (get_member (codes "name") (table_view table.now)))) }
    ensures named { IfOk result (λ name. IsTrue (is_mode_name name)) }
{
    let Some(value) = value_at(table, "name") else {
        return Err(Fault::Missing(Key::Name));
    };
    match name_of(alloc, value)? {
        Some(name) => Ok(name),
        None => Err(Fault::Range(Key::Name)),
    }
}

#[tactic(auto, unfolding(crate::specs::ModeFile::business_in))]
fn business_in(alloc: Global, table: &Table) -> Result<Business, Fault>
    ensures found { IfOk result (λ business. business_in (table_view table.now) ≡ Ok business) }
    ensures refused { IfErr result (Refuses (business_in (table_view table.now))) }
    ensures service_short { IfOk result (λ business. IsTrue (is_short_service business.service)) }
    ensures action_short { IfOk result (λ business. IsTrue (is_short business.action)) }
    ensures agreed { IfOk result (λ business. IsTrue (is_mode_agreement business.agreement)) }
{
    let service = service_in(alloc, table)?;
    match needed_text(alloc, table, "action", Key::Action) {
        Ok(action) => match agreement_in(alloc, table) {
            Ok(agreement) => Ok(Business {
                service,
                action,
                agreement,
            }),
            Err(fault) => {
                drop(action);
                drop(service);
                Err(fault)
            }
        },
        Err(fault) => {
            drop(service);
            Err(fault)
        }
    }
}

#[tactic(auto, unfolding(crate::specs::ModeFile::sending_in))]
fn sending_in(alloc: Global, table: &Table) -> Result<Sending, Fault>
    ensures found { IfOk result (λ sending. sending_in (table_view table.now) ≡ Ok sending) }
    ensures refused { IfErr result (Refuses (sending_in (table_view table.now))) }
    ensures routed { IfOk result (λ sending. IsTrue (is_mode_route sending.route)) }
    ensures limited { IfOk result (λ sending. IsRetries sending.retries) }
    ensures timed { IfOk result (λ sending. IsPeriod sending.period) }
    ensures collects { IfOk result (λ sending. IsTrue (may_collect sending.route sending.collect)) }
{
    let route = route_in(alloc, table)?;
    match (
        number_in(table, "retries", Key::Retries, 0, 1000),
        number_in(table, "period", Key::Period, 1, 1_000_000_000),
        collect_in(table, &route),
    ) {
        (Ok(retries), Ok(period), Ok(collect)) => Ok(Sending {
            route,
            retries: retries as u32,
            period,
            collect,
        }),
        (Err(fault), _, _) | (_, Err(fault), _) | (_, _, Err(fault)) => {
            drop(route);
            Err(fault)
        }
    }
}

/// The modes of a document.
#[tactic(auto, unfolding(crate::specs::ModeFile::listed_in))]
pub fn listed_in(alloc: Global, table: &Table) -> Result<Seq<Mode>, ModeRefusal>
    ensures found { IfOk result (λ modes. listed_in (table_view table.now) ≡ Ok (map mode_fields modes)) }
    ensures refused { IfErr result (λ e. e ≢ ModeRefusal.NoMemory → listed_in (table_view table.now) ≡ Err e) }
{
    let Some(value) = value_at(table, "mode") else {
        return Ok(Seq::of(Vec::new(alloc)));
    };
    match array_of_tables(0, MAX_MODES, value) {
        Some(items) => modes_in(alloc, items),
        None => Err(ModeRefusal::Range {
            mode: 0,
            key: Key::Mode,
        }),
    }
}

fn modes_in(alloc: Global, items: &[Value]) -> Result<Seq<Mode>, ModeRefusal>
    ensures found { IfOk result (λ modes. modes_from 0 (map view items.now) ≡ Ok (map mode_fields modes)) }
    ensures refused { IfErr result (λ e. e ≢ ModeRefusal.NoMemory → modes_from 0 (map view items.now) ≡ Err e) }
{
    let mut modes = match Vec::with_capacity(alloc, items.len()) {
        Ok(modes) => modes,
        Err(_) => return Err(ModeRefusal::NoMemory),
    };
    for (place, item) in items.iter().enumerate() {
        match mode_of_item(alloc, item) {
            Ok(mode) => modes.push_reserved(mode),
            Err(fault) => {
                drop(modes);
                return Err(at_place(place as u64, fault));
            }
        }
    }
    Ok(Seq::of(modes))
}

#[tactic(auto, unfolding(crate::specs::ModeFile::mode_of_item))]
fn mode_of_item(alloc: Global, item: &Value) -> Result<Mode, Fault>
    ensures found { IfOk result (λ mode. mode_of_item (view item.now) ≡ Ok (mode_fields mode)) }
    ensures refused { IfErr result (Refuses (mode_of_item (view item.now))) }
{
    match item.as_table() {
        Some(table) => mode_in(alloc, table),
        None => Err(Fault::Range(Key::Mode)),
    }
}

// The refusal for a fault of the mode at this place.
fn at_place(mode: u64, fault: Fault) -> ModeRefusal
    ensures { result ≡ at_place mode fault }
{
    match fault {
        Fault::Missing(key) => ModeRefusal::Missing { mode, key },
        Fault::Range(key) => ModeRefusal::Range { mode, key },
        Fault::NoMemory => ModeRefusal::NoMemory,
    }
}
