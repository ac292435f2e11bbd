//! The list of gateways.
ghost use Rattle.std.specs.Prelude.{◌≡◌, ◌++◌, IfOk, codes};
ghost use Rattle.std.specs.Fmt.{decimal};
ghost use Rattle.std.specs.String.{string_bytes};
ghost use Rattle.registry_core.specs.Bookings.{limit_standing};
ghost use Rattle.desk_store.specs.Calls.{IsRead, Tells, fault_in};
ghost use Rattle.desk_engine.specs.Listing.{IsGatewayList, gateway_line};

use crate::tables::{TextOf, table};
use desk_store::{Keeper, StoreFault};
use radio_core::{BANDS, Band, Name};
use std::alloc::{AllocError, Global};

/// The names of the columns.
const HEADER: &str =
    "gateway,b1_limit_us,b2_limit_us,b3_limit_us,b4_limit_us,b5_limit_us,b6_limit_us\n";

/// Returns the header, and a line for each gateway, ordered by the octets of their names.
pub(crate) fn gateways_text<K: Keeper>(alloc: Global, keeper: &mut K) -> Result<String, StoreFault>
    ensures read { IsRead K.meaning keeper.old keeper.new (fault_in result) }
    ensures told { Tells K.meaning keeper.old keeper.new result (λ kept text. IsGatewayList kept.facts (string_bytes text)) }
{
    let names = keeper.gateways()?;
    table(alloc, keeper, HEADER, &names, &GatewayLine)
}

/// The line of a gateway.
struct GatewayLine;

impl TextOf<Name> for GatewayLine {
    ghost written = { λ _ _ kept name. gateway_line kept.facts name };

    fn text<K: Keeper>(
        &self,
        alloc: Global,
        keeper: &mut K,
        gateway: &Name,
    ) -> Result<String, StoreFault> {
        let mut line = table(
            alloc,
            keeper,
            gateway.as_str(),
            &BANDS,
            &LimitColumn(gateway),
        )?;
        line.push('\n')?;
        Ok(line)
    }
}

/// The column of a band: the limit of this gateway in it.
#[derive(Drop)]
struct LimitColumn<'a>(&'a Name);

impl TextOf<Band> for LimitColumn<'_> {
    ghost written = { λ column _ kept band. codes "," ++ decimal (limit_standing kept.facts column.0.now band) };

    fn text<K: Keeper>(
        &self,
        alloc: Global,
        keeper: &mut K,
        band: &Band,
    ) -> Result<String, StoreFault> {
        let limit = keeper.limit_of(self.0, *band)?;
        Ok(column_of(alloc, limit)?)
    }
}

/// Returns the column of a number: a comma, and its decimal digits.
fn column_of(alloc: Global, number: u64) -> Result<String, AllocError>
    ensures { IfOk result (λ text. string_bytes text ≡ codes "," ++ decimal number) }
{
    format!(in alloc; ",{number}")
}
