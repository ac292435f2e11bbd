//! Reads values from the columns of a row.
ghost use Rattle.std.specs.Prelude.{◌≡◌, ◌⊎◌, ◌+◌, ◌<◌, ◌≤◌, ◌^◌, ℕ, List, Ok, length, IfOk, IfErr};
ghost use Rattle.std.specs.Int.{to_be_bytes, w64};
ghost use Rattle.sqlite_value.specs.declared.value.Value.TheVariants.{Blob, Int, Text};
ghost use Rattle.sqlite_value.specs.Order.{column};
ghost use Rattle.duty_core.specs.Range.{IsStart};
ghost use Rattle.duty_core.specs.Use.{Interval};
ghost use Rattle.radio_core.specs.Bands.{band_number};
ghost use Rattle.radio_core.specs.DataRates.{dr_number};
ghost use Rattle.registry_core.specs.Ranges.{IsEui, IsName};
ghost use Rattle.registry_core.specs.JsonIntegers.{IsJsonInteger};
ghost use Rattle.desk_rows.specs.Faults.{IsEven};
ghost use Rattle.desk_rows.specs.steps.Errors.{ReadsAt, StandsAt};
ghost use Rattle.desk_rows.specs.Rows.{eui, kind_number, number, role_number, standing_number};

use crate::faults::{RowFault, read_fault};
use duty_core::Span;
use radio_core::{Band, DataRate, Eui, Name, Octets};
use registry_core::{JsonInteger, Kind, Role, Standing};
use sqlite::Row;
use sqlite_value::value::ValueRef;

pub(crate) fn integer_at(row: &Row, at: usize) -> Result<i64, RowFault>
    ensures reads { ReadsAt Int (λ n. Unit {0}) row.now at result }
    ensures stands { StandsAt Int row.now at result }
{
    match row.get_ref(at) {
        Ok(ValueRef::Int(n)) => Ok(n),
        _ => Err(RowFault::Row),
    }
}

pub(crate) fn number_at(row: &Row, at: usize) -> Result<u64, RowFault>
    ensures reads { ReadsAt number (λ n. Unit {0}) row.now at result }
    ensures stands { StandsAt number row.now at result }
{
    match row.get_ref(at) {
        Ok(ValueRef::Int(n)) => match u64::try_from(n) {
            Ok(n) => Ok(n),
            Err(_) => Err(RowFault::Row),
        },
        _ => Err(RowFault::Row),
    }
}

pub(crate) fn word_at(row: &Row, at: usize) -> Result<u32, RowFault>
    ensures reads { ReadsAt number (λ n. n < 2 ^ 32) row.now at result }
    ensures stands { StandsAt number row.now at result }
{
    match u32::try_from(number_at(row, at)?) {
        Ok(n) => Ok(n),
        Err(_) => Err(RowFault::Row),
    }
}

pub(crate) fn short_at(row: &Row, at: usize) -> Result<u16, RowFault>
    ensures reads { ReadsAt number (λ n. n < 2 ^ 16) row.now at result }
    ensures stands { StandsAt number row.now at result }
{
    match u16::try_from(number_at(row, at)?) {
        Ok(n) => Ok(n),
        Err(_) => Err(RowFault::Row),
    }
}

pub(crate) fn json_integer_at(row: &Row, at: usize) -> Result<JsonInteger, RowFault>
    ensures reads { ReadsAt number IsJsonInteger row.now at result }
    ensures stands { StandsAt number row.now at result }
{
    JsonInteger::new(number_at(row, at)?).ok_or(RowFault::Row)
}

pub(crate) fn name_at(row: &Row, at: usize) -> Result<Name, RowFault>
    ensures reads { ReadsAt Text IsName row.now at result }
    ensures stands { StandsAt Text row.now at result }
{
    match row.get_ref(at) {
        Ok(ValueRef::Text(octets)) => Name::new(octets).ok_or(RowFault::Row),
        _ => Err(RowFault::Row),
    }
}

pub(crate) fn octets_at(row: &Row, at: usize) -> Result<Vec<u8>, RowFault>
    ensures ok { IfOk result (λ octets. column row.now at ≡ Blob octets.items) }
    ensures in_order { IfErr result (λ fault. (octets : List ℕ) → column row.now at ≡ Blob octets → at < length row.now → IsEven fault) }
    ensures fault { IfErr result (λ fault. (fault ≡ RowFault.Memory) ⊎ (fault ≡ RowFault.Row)) }
{
    match row.get(at) {
        Ok(octets) => Ok(octets),
        Err(error) => Err(read_fault(error)),
    }
}

pub(crate) fn frame_column(row: &Row, at: usize) -> Result<Octets, RowFault>
    ensures reads { ReadsAt Blob (λ octets. length octets ≤ 255) row.now at result }
    ensures stands { StandsAt Blob row.now at result }
{
    match row.get_ref(at) {
        Ok(ValueRef::Blob(octets)) => Octets::new(octets).ok_or(RowFault::Row),
        _ => Err(RowFault::Row),
    }
}

pub(crate) fn eui_at(row: &Row, at: usize) -> Result<Eui, RowFault>
    ensures reads { ReadsAt eui IsEui row.now at result }
    ensures stands { StandsAt eui row.now at result }
{
    match row.get_ref(at) {
        Ok(ValueRef::Blob(octets)) => eui_of(octets),
        _ => Err(RowFault::Row),
    }
}

/// Returns the EUI of eight octets, the most significant first.
#[tactic(auto, using(std::proofs::lemmas::Nat::be_bytes_8))]
fn eui_of(octets: &[u8]) -> Result<Eui, RowFault>
    ensures reads { (n : ℕ) → IsEui n → octets.now ≡ to_be_bytes w64 n → result ≡ Ok n }
    ensures stands { IfOk result (λ n. octets.now ≡ to_be_bytes w64 n) }
    ensures fault { IfErr result (λ fault. fault ≡ RowFault.Row) }
{
    match <[u8; 8]>::try_from(octets) {
        Ok(octets) => Ok(Eui::new(u64::from_be_bytes(octets))),
        Err(_) => Err(RowFault::Row),
    }
}

/// Returns the span at a place, with its length at the next place.
pub(crate) fn span_at(row: &Row, at: u8) -> Result<Span, RowFault>
    ensures reads { (span : Interval) → IsStart span.start → span.len < 2 ^ 32 → column row.now at ≡ Int span.start → column row.now (at + 1) ≡ number span.len
        → at + 1 < length row.now → result ≡ Ok span }
    ensures stands { IfOk result (λ span. (column row.now at ≡ Int span.start) × (column row.now (at + 1) ≡ number span.len)) }
    ensures fault { IfErr result (λ fault. fault ≡ RowFault.Row) }
{
    let start = integer_at(row, usize::from(at))?;
    let len = word_at(row, usize::from(at) + 1)?;
    Span::new(start, len).ok_or(RowFault::Row)
}

pub(crate) fn role_at(row: &Row, at: usize) -> Result<Role, RowFault>
    ensures reads { ReadsAt (λ role. number (role_number role)) (λ role. Unit {0}) row.now at result }
    ensures stands { StandsAt (λ role. number (role_number role)) row.now at result }
{
    match number_at(row, at)? {
        0 => Ok(Role::Operator),
        1 => Ok(Role::Radio),
        _ => Err(RowFault::Row),
    }
}

pub(crate) fn kind_at(row: &Row, at: usize) -> Result<Kind, RowFault>
    ensures reads { ReadsAt (λ kind. number (kind_number kind)) (λ kind. Unit {0}) row.now at result }
    ensures stands { StandsAt (λ kind. number (kind_number kind)) row.now at result }
{
    match number_at(row, at)? {
        0 => Ok(Kind::Join),
        1 => Ok(Kind::Data),
        _ => Err(RowFault::Row),
    }
}

pub(crate) fn standing_at(row: &Row, at: usize) -> Result<Standing, RowFault>
    ensures reads { ReadsAt (λ standing. number (standing_number standing)) (λ standing. Unit {0}) row.now at result }
    ensures stands { StandsAt (λ standing. number (standing_number standing)) row.now at result }
{
    match number_at(row, at)? {
        0 => Ok(Standing::Booked),
        1 => Ok(Standing::Sent),
        2 => Ok(Standing::Dropped),
        _ => Err(RowFault::Row),
    }
}

fn octet_at(row: &Row, at: usize) -> Result<u8, RowFault>
    ensures reads { ReadsAt number (λ n. n < 2 ^ 8) row.now at result }
    ensures stands { StandsAt number row.now at result }
{
    match u8::try_from(number_at(row, at)?) {
        Ok(octet) => Ok(octet),
        Err(_) => Err(RowFault::Row),
    }
}

pub(crate) fn band_at(row: &Row, at: usize) -> Result<Band, RowFault>
    ensures reads { ReadsAt (λ band. number (band_number band)) (λ band. Unit {0}) row.now at result }
    ensures stands { StandsAt (λ band. number (band_number band)) row.now at result }
{
    Band::new(octet_at(row, at)?).ok_or(RowFault::Row)
}

pub(crate) fn data_rate_at(row: &Row, at: usize) -> Result<DataRate, RowFault>
    ensures reads { ReadsAt (λ dr. number (dr_number dr)) (λ dr. Unit {0}) row.now at result }
    ensures stands { StandsAt (λ dr. number (dr_number dr)) row.now at result }
{
    DataRate::new(octet_at(row, at)?).ok_or(RowFault::Row)
}
