// Bytes, words and numbers as text, put one after the other into a lent buffer.
#![tactic(auto)]

ghost use Rattle.std.specs.Prelude.{◌≡◌, [], ◌∷◌, ◌+◌, ◌<◌, ◌≤◌, length};
ghost use Rattle.text.specs.Text.{glyph_of, digits, places, decimal};
ghost use Rattle.text.specs.Wrote.{Wrote};

// Puts a byte at a place of out, and returns the place after it.
pub fn put_byte(out: &mut [u8], at: usize, b: u8) -> usize
    requires { at + 1 ≤ length out.old }
    ensures { Wrote out.old at (b ∷ []) result out.new }
{
    out[at] = b;
    at + 1
}

// Puts a text at a place of out, and returns the place after it.
pub fn put_text(out: &mut [u8], at: usize, text: &[u8]) -> usize
    requires { at + length text.now ≤ length out.old }
    ensures { Wrote out.old at text.now result out.new }
{
    let end = at + text.len();
    out[at..end].copy_from_slice(text);
    end
}

// A digit's character.
fn glyph(d: u64) -> u8
    requires { d < 16 }
    ensures { result ≡ glyph_of d }
{
    if d < 10 { 48 + d as u8 } else { 87 + d as u8 }
}

// Puts the k lowest digits of v in a base at a place of out, and returns the place after them.
pub fn put_digits(out: &mut [u8], at: usize, base: u64, k: usize, v: u64) -> usize
    requires { (0 < base) × (base ≤ 16) × (at + k ≤ length out.old) }
    ensures { Wrote out.old at (digits base k v) result out.new }
{
    let end = at + k;
    let mut rest = v;
    for place in (at..end).rev() {
        out[place] = glyph(rest % base);
        rest /= base;
    }
    end
}

// How many decimal digits a number below 10,000 takes.
fn decimal_places(v: usize) -> usize
    requires { v < 10000 }
    ensures { result ≡ places v }
{
    if v < 10 {
        1
    } else if v < 100 {
        2
    } else if v < 1000 {
        3
    } else {
        4
    }
}

// Puts a number of at most four decimal digits at a place of out, and returns the place after it.
pub fn put_decimal(out: &mut [u8], at: usize, v: usize) -> usize
    requires { (v < 10000) × (at + 4 ≤ length out.old) }
    ensures { Wrote out.old at (decimal v) result out.new }
{
    put_digits(out, at, 10, decimal_places(v), v as u64)
}
