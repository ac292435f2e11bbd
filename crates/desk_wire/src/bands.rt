//! The names of sub-bands.
ghost use Rattle.std.specs.Prelude.{◌≡◌};
ghost use Rattle.desk_wire.specs.Bands.{band_name, band_named};

use radio_core::Band;

/// Returns the band with exactly this name.
pub(crate) fn band_named(text: &str) -> Option<Band>
    ensures { result ≡ band_named text.now }
{
    match text {
        "B1" => Some(Band::B1),
        "B2" => Some(Band::B2),
        "B3" => Some(Band::B3),
        "B4" => Some(Band::B4),
        "B5" => Some(Band::B5),
        "B6" => Some(Band::B6),
        _ => None,
    }
}

pub(crate) fn band_name(band: Band) -> &'static str
    ensures { result.now ≡ band_name band }
{
    match band {
        Band::B1 => "B1",
        Band::B2 => "B2",
        Band::B3 => "B3",
        Band::B4 => "B4",
        Band::B5 => "B5",
        Band::B6 => "B6",
    }
}
