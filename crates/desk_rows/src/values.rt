//! Values as parameters of a statement.
ghost use Rattle.std.specs.Prelude.{◌≡◌, ◌<◌, ◌≤◌, ◌^◌, length};
ghost use Rattle.std.specs.Int.{to_be_bytes, w64};
ghost use Rattle.sqlite_value.specs.Value.{owned};
ghost use Rattle.sqlite_value.specs.declared.value.Value.TheVariants.{Blob, Int, Text};
ghost use Rattle.duty_core.specs.Range.{IsStart};
ghost use Rattle.radio_core.specs.Bands.{band_number};
ghost use Rattle.radio_core.specs.DataRates.{dr_number};
ghost use Rattle.registry_core.specs.Ranges.{IsEui, IsName};
ghost use Rattle.registry_core.specs.JsonIntegers.{IsJsonInteger};
ghost use Rattle.desk_rows.specs.Rows.{kind_number, number, role_number, standing_number};

use duty_core::Span;
use radio_core::{Band, DataRate, Eui, Name, Octets};
use registry_core::{JsonInteger, Kind, Role, Standing};
use sqlite_value::value::ValueRef;

pub(crate) fn text(name: &Name) -> ValueRef<'_>
    ensures same { owned result ≡ Text name.now }
    ensures range { IsName name.now }
{
    ValueRef::Text(name.get())
}

pub(crate) fn blob(octets: &[u8]) -> ValueRef<'_>
    ensures { owned result ≡ Blob octets.now }
{
    ValueRef::Blob(octets)
}

pub(crate) fn frame(octets: &Octets) -> ValueRef<'_>
    ensures same { owned result ≡ Blob octets.now }
    ensures range { length octets.now ≤ 255 }
{
    ValueRef::Blob(octets.get())
}

/// Returns the octets of an EUI, the most significant first.
pub(crate) fn octets_of(eui: Eui) -> [u8; 8]
    ensures same { result ≡ to_be_bytes w64 eui }
    ensures range { IsEui eui }
{
    eui.get().to_be_bytes()
}

/// Returns the number as SQLite stores it, and NULL if it is 2^63 or more, which no column of numbers accepts.
pub(crate) fn unsigned(n: u64) -> ValueRef<'static>
    ensures { n < 2 ^ 63 → owned result ≡ number n }
{
    match i64::try_from(n) {
        Ok(n) => ValueRef::Int(n),
        Err(_) => ValueRef::Null,
    }
}

pub(crate) fn json_integer(n: JsonInteger) -> ValueRef<'static>
    ensures same { owned result ≡ number n }
    ensures range { IsJsonInteger n }
{
    ValueRef::Int(n.get() as i64)
}

pub(crate) fn word(n: u32) -> ValueRef<'static>
    ensures same { owned result ≡ number n }
    ensures range { n < 2 ^ 32 }
{
    ValueRef::Int(i64::from(n))
}

pub(crate) fn short(n: u16) -> ValueRef<'static>
    ensures same { owned result ≡ number n }
    ensures range { n < 2 ^ 16 }
{
    ValueRef::Int(i64::from(n))
}

pub(crate) fn start(span: Span) -> ValueRef<'static>
    ensures same { owned result ≡ Int span.start }
    ensures range { IsStart span.start }
{
    ValueRef::Int(span.start())
}

pub(crate) fn len(span: Span) -> ValueRef<'static>
    ensures same { owned result ≡ number span.len }
    ensures range { span.len < 2 ^ 32 }
{
    ValueRef::Int(i64::from(span.len()))
}

pub(crate) fn integer(n: i64) -> ValueRef<'static>
    ensures { owned result ≡ Int n }
{
    ValueRef::Int(n)
}

pub(crate) fn role(role: Role) -> ValueRef<'static>
    ensures { owned result ≡ number (role_number role) }
{
    ValueRef::Int(match role {
        Role::Operator => 0,
        Role::Radio => 1,
    })
}

pub(crate) fn kind(kind: Kind) -> ValueRef<'static>
    ensures { owned result ≡ number (kind_number kind) }
{
    ValueRef::Int(match kind {
        Kind::Join => 0,
        Kind::Data => 1,
    })
}

pub(crate) fn band(band: Band) -> ValueRef<'static>
    ensures { owned result ≡ number (band_number band) }
{
    ValueRef::Int(i64::from(band.get()))
}

pub(crate) fn data_rate(dr: DataRate) -> ValueRef<'static>
    ensures { owned result ≡ number (dr_number dr) }
{
    ValueRef::Int(i64::from(dr.get()))
}

pub(crate) fn standing(standing: Standing) -> ValueRef<'static>
    ensures { owned result ≡ number (standing_number standing) }
{
    ValueRef::Int(match standing {
        Standing::Booked => 0,
        Standing::Sent => 1,
        Standing::Dropped => 2,
    })
}
