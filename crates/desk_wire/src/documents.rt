//! Reads JSON texts as a `json::Value`, a tree that borrows from the text. Contracts name the value that `serde_json` reads.
ghost use Rattle.std.specs.Prelude.{◌≡◌, true, false, IfOk, option_map, option_and_then};
ghost use Rattle.std.specs.Option.{is_some};
ghost use Rattle.json.specs.Value.{value_view, items_view, members_view};
ghost use Rattle.serde_json.specs.Find.{get, as_null, as_bool, as_str, as_number, as_u64};
ghost use Rattle.serde_json.specs.Read.{read, number_of, number_from};
ghost use Rattle.serde_json.specs.View.{number_view};
ghost use Rattle.desk_wire.specs.Reading.{value_of};
ghost use Rattle.desk_wire.specs.steps.TreeData.{view, in_range, items_in_range, members_in_range};

use fast_float::Numeral;
use json::{Error, Reader, Scratch, Value};
use serde_json::Number;
use std::alloc::{AllocError, Global};
use std::str;

/// How deep arrays and objects may nest: as deep as `serde_json` reads them.
const DEEPEST: usize = 127;

/// Reads a text. `None` if it is not UTF-8, not JSON, nests too deep, or has a number that is too large for a float.
#[tactic(auto, using(crate::proofs::TreeData::of_text))]
pub(crate) fn value_of<'a>(
    alloc: Global,
    text: &'a [u8],
    scratch: &'a mut Scratch,
) -> Result<Option<Value<'a>>, AllocError>
    ensures { IfOk result (λ value. option_map view value ≡ value_of text.now) }
{
    match str::from_utf8(text) {
        Ok(text) => value_of_text(alloc, text, scratch),
        Err(_) => Ok(None),
    }
}

#[tactic(auto, using(crate::proofs::TreeData::read_whole, crate::proofs::TreeData::read_out_of_range, crate::proofs::TreeData::read_more, crate::proofs::TreeData::read_refused))]
fn value_of_text<'a>(
    alloc: Global,
    text: &'a str,
    scratch: &'a mut Scratch,
) -> Result<Option<Value<'a>>, AllocError>
    ensures { IfOk result (λ value. option_map view value ≡ read text.now) }
{
    let mut reader = Reader::new(text, scratch)?;
    let value = match Value::read(alloc, &mut reader, DEEPEST) {
        Ok(value) => value,
        Err(Error::OutOfMemory) => return Err(AllocError),
        Err(_) => return Ok(None),
    };
    if reader.next().is_some() {
        return Ok(None);
    }
    if !is_in_range(&value) {
        return Ok(None);
    }
    Ok(Some(value))
}

/// Returns whether `serde_json` reads every number of the value: none is too large for a float, in ignored members either.
#[cycle(in_range)]
fn is_in_range(value: &Value<'_>) -> bool
    ensures { result ≡ in_range (value_view value.now) }
{
    match value {
        Value::Number(text) => number_of(text).is_some(),
        Value::Array(items) => items_are_in_range(items),
        Value::Object(members) => members_are_in_range(members),
        Value::Null | Value::Bool(_) | Value::String(_) => true,
    }
}

#[cycle(in_range)]
fn items_are_in_range(items: &Vec<Value<'_>>) -> bool
    ensures { result ≡ items_in_range (items_view items.now.items) }
{
    for item in items {
        if !is_in_range(item) {
            return false;
        }
    }
    true
}

#[cycle(in_range)]
fn members_are_in_range(members: &Vec<(&str, Value<'_>)>) -> bool
    ensures { result ≡ members_in_range (members_view members.now.items) }
{
    for member in members {
        if !is_in_range(&member.1) {
            return false;
        }
    }
    true
}

/// Returns the member with this name; the last one if the object has several. `None` if the value is not an object.
#[tactic(auto, using(crate::proofs::TreeData::member_found))]
pub(crate) fn member_at<'v, 'a>(value: &'v Value<'a>, member: &str) -> Option<&'v Value<'a>>
    ensures { option_map (λ v. view v.now) result ≡ get member.now (view value.now) }
{
    value.get(member)
}

#[tactic(auto, using(crate::proofs::TreeData::string_found))]
pub(crate) fn text_of<'v>(value: &'v Value<'_>) -> Option<&'v str>
    ensures { option_map (λ text. text.now) result ≡ as_str (view value.now) }
{
    value.as_str()
}

#[tactic(auto, using(crate::proofs::TreeData::boolean_found))]
pub(crate) fn boolean_of(value: &Value<'_>) -> Option<bool>
    ensures { result ≡ as_bool (view value.now) }
{
    value.as_bool()
}

#[tactic(auto, using(crate::proofs::TreeData::null_found))]
pub(crate) fn is_null(value: &Value<'_>) -> bool
    ensures { result ≡ is_some (as_null (view value.now)) }
{
    value.is_null()
}

/// Returns the number if it is an integer from 0 to 2^64 - 1, written with neither point nor exponent.
#[tactic(auto, using(crate::proofs::TreeData::number_found))]
pub(crate) fn unsigned_of(value: &Value<'_>) -> Option<u64>
    ensures { result ≡ option_and_then as_u64 (as_number (view value.now)) }
{
    number_of(value.as_number()?)?.as_u64()
}

/// Reads one number of a text as `serde_json` does, which has no public function for it. `None` if it is too large for a
/// float.
#[tactic(auto, unfolding(serde_json::specs::Read::number_of))]
fn number_of(text: &str) -> Option<Number>
    ensures { option_map number_view result ≡ number_of text.now }
{
    let digits = text.as_bytes();
    if digits.starts_with(b"-") {
        negative(&Numeral::scan(&digits[1..]))
    } else {
        unsigned(&Numeral::scan(digits))
    }
}

fn unsigned(numeral: &Numeral<'_>) -> Option<Number>
    ensures { option_map number_view result ≡ number_from false numeral.now }
{
    match numeral.to_u64() {
        Some(n) => Number::from_u128(u128::from(n)),
        None => Number::from_f64(numeral.to_float::<f64>(false)),
    }
}

fn negative(numeral: &Numeral<'_>) -> Option<Number>
    ensures { option_map number_view result ≡ number_from true numeral.now }
{
    if let Some(n) = numeral.to_i64(true) {
        if n < 0 {
            return Number::from_i128(i128::from(n));
        }
    }
    Number::from_f64(numeral.to_float::<f64>(true))
}
