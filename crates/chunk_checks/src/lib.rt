// The checks of a call before its elements.
#![tactic(auto)]

ghost use Rattle.std.specs.Prelude.{◌≡◌};
ghost use Rattle.cast_spec.specs.Chunk.{inputs};
ghost use Rattle.chunk_checks.specs.Checked.{checked_of};

use answers::Refusal;
use chunk_element::Settings;

// A call that passes its checks: its settings, and how many elements it has.
#[derive(Clone, Copy)]
pub struct Checked {
    pub settings: Settings,
    pub count: usize,
}

// The checks of a call, in the order of their table: 1, 8, 2, 3, 4. The first that is not passed refuses it. They look at no byte of the four slices.
pub fn check(
    src: &[u8],
    dst: &[u8],
    keys: &[u8],
    targets: &[u8],
    from: u8,
    to: u8,
    rounding: u8,
    range: u8,
) -> Result<Checked, Refusal>
    ensures { result ≡ checked_of (inputs src.now dst.now keys.now targets.now from to rounding range) }
{
    if !codes::codes_listed(from, to, rounding, range) {
        return Err(Refusal::UnknownCode);
    }
    if codes::wrap_barred(to, range) {
        return Err(Refusal::BarredWrap);
    }
    let s = chunk_settings::settings_of(from, to, rounding, range, keys.len());
    if !lengths::whole_map(keys.len(), targets.len(), s.sw, s.dw) {
        return Err(Refusal::BrokenMap);
    }
    if !lengths::whole_elements(src.len(), dst.len(), s.sw, s.dw) {
        return Err(Refusal::BrokenElement);
    }
    let n = src.len() / s.sw;
    let m = dst.len() / s.dw;
    if n != m {
        return Err(Refusal::LengthMismatch {
            src_len: n,
            dst_len: m,
        });
    }
    Ok(Checked {
        settings: s,
        count: n,
    })
}
