//! Reads the members of a JSON object, each in its form.
ghost use Rattle.std.specs.Prelude.{◌≡◌, ◌^◌, option_map};
ghost use Rattle.desk_wire.specs.steps.TreeData.{view};
ghost use Rattle.registry_core.specs.JsonIntegers.{json_integer_limit};
ghost use Rattle.desk_wire.specs.Members.{text_at, name_at, type_name_at, json_integer_at, is_null_at, integer_or_null_at, data_rate_at, octets_at, eui_at, role_at, join_verdict_at, window_at, band_named_at, limit_at, boolean_at};

use crate::bands::band_named;
use crate::documents::{boolean_of, is_null, member_at, text_of, unsigned_of};
use crate::hexadecimal::{eui_of, octets_of};
use crate::roles::role_named;
use crate::type_names::TypeName;
use crate::verdicts::join_verdict_named;
use crate::windows::window_numbered;
use json::Value;
use radio_core::{Band, DataRate, Eui, Name, Octets};
use registry_core::{BandLimit, JoinVerdict, JsonInteger, Role, Window};

pub(crate) fn text_at<'v>(value: &'v Value<'_>, member: &str) -> Option<&'v str>
    ensures { option_map (λ text. text.now) result ≡ text_at member.now (view value.now) }
{
    text_of(member_at(value, member)?)
}

pub(crate) fn name_at(value: &Value<'_>, member: &str) -> Option<Name>
    ensures { result ≡ name_at member.now (view value.now) }
{
    Name::new(text_at(value, member)?.as_bytes())
}

pub(crate) fn type_name_at(value: &Value<'_>, member: &str) -> Option<TypeName>
    ensures { result ≡ type_name_at member.now (view value.now) }
{
    TypeName::new(text_at(value, member)?.as_bytes())
}

pub(crate) fn u32_at(value: &Value<'_>, member: &str) -> Option<u32>
    ensures { result ≡ json_integer_at member.now (2 ^ 32) (view value.now) }
{
    u32::try_from(unsigned_of(member_at(value, member)?)?).ok()
}

/// Returns whether the member is `null` or isn't there.
fn is_null_at(value: &Value<'_>, member: &str) -> bool
    ensures { result ≡ is_null_at member.now (view value.now) }
{
    match member_at(value, member) {
        Some(found) => is_null(found),
        None => true,
    }
}

/// Returns an integer below 2^32, or `Some(None)` if the member is `null` or isn't there.
pub(crate) fn u32_or_null_at(value: &Value<'_>, member: &str) -> Option<Option<u32>>
    ensures { result ≡ integer_or_null_at member.now (2 ^ 32) (view value.now) }
{
    if is_null_at(value, member) {
        Some(None)
    } else {
        u32_at(value, member).map(Some)
    }
}

pub(crate) fn json_integer_at(value: &Value<'_>, member: &str) -> Option<JsonInteger>
    ensures { result ≡ json_integer_at member.now json_integer_limit (view value.now) }
{
    JsonInteger::new(unsigned_of(member_at(value, member)?)?)
}

pub(crate) fn data_rate_at(value: &Value<'_>, member: &str) -> Option<DataRate>
    ensures { result ≡ data_rate_at member.now (view value.now) }
{
    DataRate::new(u8::try_from(unsigned_of(member_at(value, member)?)?).ok()?)
}

pub(crate) fn octets_at(value: &Value<'_>, member: &str) -> Option<Octets>
    ensures { result ≡ octets_at member.now (view value.now) }
{
    octets_of(text_at(value, member)?.as_bytes())
}

pub(crate) fn eui_at(value: &Value<'_>, member: &str) -> Option<Eui>
    ensures { result ≡ eui_at member.now (view value.now) }
{
    eui_of(text_at(value, member)?)
}

pub(crate) fn role_at(value: &Value<'_>, member: &str) -> Option<Role>
    ensures { result ≡ role_at member.now (view value.now) }
{
    role_named(text_at(value, member)?)
}

pub(crate) fn join_verdict_at(value: &Value<'_>, member: &str) -> Option<JoinVerdict>
    ensures { result ≡ join_verdict_at member.now (view value.now) }
{
    join_verdict_named(text_at(value, member)?.as_bytes())
}

pub(crate) fn window_at(value: &Value<'_>, member: &str) -> Option<Window>
    ensures { result ≡ window_at member.now (view value.now) }
{
    window_numbered(unsigned_of(member_at(value, member)?)?)
}

pub(crate) fn band_at(value: &Value<'_>, member: &str) -> Option<Band>
    ensures { result ≡ band_named_at member.now (view value.now) }
{
    band_named(text_at(value, member)?)
}

/// Returns an integer up to the band's own limit.
pub(crate) fn limit_at(value: &Value<'_>, member: &str, band: Band) -> Option<BandLimit>
    ensures { result ≡ limit_at member.now band (view value.now) }
{
    BandLimit::new(band, unsigned_of(member_at(value, member)?)?)
}

pub(crate) fn boolean_at(value: &Value<'_>, member: &str) -> Option<bool>
    ensures { result ≡ boolean_at member.now (view value.now) }
{
    boolean_of(member_at(value, member)?)
}
