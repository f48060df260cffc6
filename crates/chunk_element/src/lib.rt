// One element of a chunk: read at its byte, looked up in the map and taken through its steps, and the answer where it is refused.
#![tactic(auto)]

ghost use Rattle.std.specs.Prelude.{◌≡◌, take, drop};
ghost use Rattle.bytes_le.specs.Bytes.{from_le};
ghost use Rattle.cast_spec.specs.Element.{outcome_of};
ghost use Rattle.cast_spec.specs.Fit.{fit_of};
ghost use Rattle.chunk_element.specs.Settings.{settings_for};
ghost use Rattle.chunk_element.specs.Place.{looked_up, ElementReady, FitReady, SourceReady, refused_answer};

use answers::{Answer, Fit};
use codes::OutOfRangeMode;
use grid::RoundingMode;
use kinds::Format;
use routes::Route;

// What a call converts by: the formats of the two kinds and their route, the two rules, the bytes of a source and of a destination element, and the
// map's entries.
#[derive(Clone, Copy)]
pub struct Settings {
    pub source: Format,
    pub target: Format,
    pub route: Route,
    pub rounding: RoundingMode,
    pub range: OutOfRangeMode,
    pub sw: usize,
    pub dw: usize,
    pub entries: usize,
}

// The target of the first entry that matches an element.
fn look_up(b: u64, keys: &[u8], targets: &[u8], s: Settings) -> Option<u64>
    requires { ElementReady b s keys.now targets.now }
    ensures { result ≡ looked_up s keys.now targets.now b }
{
    if s.entries == 0 {
        return None;
    }
    match s.source {
        Format::Integer(_) => {
            mapping::apply_scalar_map_int(b, keys, targets, s.entries, s.sw, s.dw)
        }
        Format::Float(format) => {
            mapping::apply_scalar_map_float(b, keys, targets, s.entries, format, s.sw, s.dw)
        }
    }
}

// One element's steps: the map, and the conversion of what it leaves.
fn steps(b: u64, keys: &[u8], targets: &[u8], s: Settings) -> Fit
    requires { ElementReady b s keys.now targets.now }
    ensures { result ≡ fit_of (outcome_of (settings_for s keys.now targets.now) b) }
{
    let found = look_up(b, keys, targets, s);
    route_steps::step(b, found, s.route, s.rounding, s.range)
}

// What the element at the byte `input` of the source comes to.
pub fn fit_at(src: &[u8], keys: &[u8], targets: &[u8], s: Settings, input: usize) -> Fit
    requires { FitReady s keys.now targets.now src.now input }
    ensures { result ≡ fit_of (outcome_of (settings_for s keys.now targets.now) (from_le (take s.sw (drop input src.now)))) }
{
    steps(bytes_le::read_le(src, input, s.sw), keys, targets, s)
}

// The answer to the refusal of the element at the byte `input` of the source, which has this position, and whose steps leave this fit.
pub fn refused_at(src: &[u8], s: Settings, input: usize, position: usize, r: Fit) -> Answer
    requires { SourceReady s src.now input }
    ensures { result ≡ refused_answer s (from_le (take s.sw (drop input src.now))) position r }
{
    let b = bytes_le::read_le(src, input, s.sw);
    refusals::refusal(position, element::outcome(b, r, s.source, s.target))
}
