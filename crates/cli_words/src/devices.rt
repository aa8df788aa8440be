//! What the values of `endpoint` say of its device and of its link.
ghost use Rattle.std.specs.Prelude.{◌≡◌, IfOk, IfErr, OnOk, OnErr, true, codes, option_map};
ghost use Rattle.clap.specs.Words.{rows_of, found_of, first_of};
ghost use Rattle.config_core.specs.SetupView.{is_size};
ghost use Rattle.cli_options.specs.Values.{name_of};
ghost use Rattle.cli_options.specs.declared.options.ValueOption.TheVariants.{EndpointSize, Id, Credits};
ghost use Rattle.cli_values.specs.Endpoints.{WritesId, WritesSize};
ghost use Rattle.cli_values.specs.Links.{WritesCredits};
ghost use Rattle.cli_words.specs.Options.{AsksEndpoint};
ghost use Rattle.cli_words.specs.Refusals.{IsWrongCredits, IsWrongId, IsWrongSize, HasNoLink, RefusesDevice, RefusesWithoutLink};

use crate::reading::{flag_in, given_in};
use clap::ArgMatches;
use cli_options::{RefusedValue, ValueOption};
use cli_values::{credits_of, ids_of, size_of};
use config_core::Setup;
use linked_engine::FiniteCredits;

/// The size of an endpoint's memory that the values give.
fn size_in<'a>(values: &ArgMatches<'a>) -> Result<u32, RefusedValue<'a>>
    ensures ok { IfOk result (WritesSize (first_of (codes "size") (rows_of (found_of values.now)))) }
    ensures right { IfOk result (λ n. is_size n ≡ true) }
    ensures err { OnErr result (IsWrongSize (rows_of (found_of values.now))) }
    ensures refused { IfErr result (λ e. (e.option ≡ EndpointSize) ×
        (option_map (λ t. t.now) e.given ≡ first_of (codes "size") (rows_of (found_of values.now)))) }
{
    size_of(values.get_str("size"))
}

/// The Vendor ID and the Device ID that the values give.
fn ids_in<'a>(values: &ArgMatches<'a>) -> Result<(u16, u16), RefusedValue<'a>>
    ensures ok { IfOk result (WritesId (first_of (codes "id") (rows_of (found_of values.now)))) }
    ensures err { OnErr result (IsWrongId (rows_of (found_of values.now))) }
    ensures refused { IfErr result (λ e. (e.option ≡ Id) × (option_map (λ t. t.now) e.given ≡ first_of (codes "id") (rows_of (found_of values.now)))) }
{
    ids_of(values.get_str("id"))
}

/// A device of this size, which a device can have, with these IDs.
fn setup_of(size: u32, ids: (u16, u16)) -> Setup
    requires { is_size size ≡ true }
    ensures { result ≡ record { size = size; vendor = ids.0; device = ids.1 } }
{
    Setup::new(size, ids.0, ids.1).unwrap()
}

/// The credits that the values give.
pub(crate) fn credits_in<'a>(values: &ArgMatches<'a>) -> Result<FiniteCredits, RefusedValue<'a>>
    ensures ok { IfOk result (WritesCredits (first_of (codes "credits") (rows_of (found_of values.now)))) }
    ensures err { OnErr result (IsWrongCredits (rows_of (found_of values.now))) }
    ensures refused { IfErr result (λ e. (e.option ≡ Credits) ×
        (option_map (λ t. t.now) e.given ≡ first_of (codes "credits") (rows_of (found_of values.now)))) }
{
    credits_of(given_in(values, "credits"))
}

/// Whether the values have no CRCs and no credits.
pub(crate) fn no_link_in<'a>(values: &ArgMatches<'a>) -> Result<(), RefusedValue<'a>>
    ensures ok { OnOk result (HasNoLink (rows_of (found_of values.now))) }
    ensures err { IfErr result (λ e. RefusesWithoutLink (rows_of (found_of values.now)) e.option) }
    ensures refused { IfErr result (λ e. option_map (λ t. t.now) e.given ≡ first_of (name_of e.option) (rows_of (found_of values.now))) }
{
    if flag_in(values, "crc") {
        return Err(RefusedValue {
            option: ValueOption::Crc,
            given: given_in(values, "crc"),
        });
    }
    let given = given_in(values, "credits");
    if given.is_none() {
        return Ok(());
    }
    Err(RefusedValue {
        option: ValueOption::Credits,
        given,
    })
}

/// The device that the values give.
pub(crate) fn device_in<'a>(endpoint: &ArgMatches<'a>) -> Result<Setup, RefusedValue<'a>>
    ensures ok { IfOk result (AsksEndpoint (rows_of (found_of endpoint.now))) }
    ensures err { IfErr result (λ e. RefusesDevice (rows_of (found_of endpoint.now)) e.option) }
    ensures refused { IfErr result (λ e. option_map (λ t. t.now) e.given ≡ first_of (name_of e.option) (rows_of (found_of endpoint.now))) }
{
    let size = size_in(endpoint)?;
    let ids = ids_in(endpoint)?;
    Ok(setup_of(size, ids))
}
