// The settings of a call, of its codes.
#![tactic(auto)]

ghost use Rattle.std.specs.Prelude.{◌≡◌, ◌<◌};
ghost use Rattle.chunk_settings.specs.Settings.{settings_by};

use chunk_element::Settings;

// The settings of listed codes and of so many bytes of keys. Out of line, so that the compiler does not carry the table of kinds into the loop over the
// elements, which then takes up to a quarter more time (docs/PERFORMANCE.md).
#[inline(never)]
pub fn settings_of(from: u8, to: u8, rounding: u8, range: u8, keys: usize) -> Settings
    requires { (from < 11) × (to < 11) }
    ensures { result ≡ settings_by from to rounding range keys }
{
    let source = kinds::row_of(from);
    let target = kinds::row_of(to);
    let from_format = source.format;
    let to_format = target.format;
    Settings {
        source: from_format,
        target: to_format,
        route: routes::route_of(from_format, to_format),
        rounding: codes::rounding_of(rounding),
        range: codes::range_of(range),
        sw: source.bytes,
        dw: target.bytes,
        entries: keys / source.bytes,
    }
}
