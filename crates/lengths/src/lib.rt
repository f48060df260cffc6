// Whether lengths in bytes are whole elements.
#![tactic(auto)]

ghost use Rattle.std.specs.Prelude.{◌≡◌, ◌&&◌, ◌/◌, ◌%◌, ◌<◌, eqb};

// Whether two lengths are whole elements, of a bytes and of b bytes each.
pub fn whole_elements(first: usize, second: usize, a: usize, b: usize) -> bool
    requires { (0 < a) × (0 < b) }
    ensures { result ≡ eqb (first % a) 0 && eqb (second % b) 0 }
{
    first % a == 0 && second % b == 0
}

// Whether so many bytes of keys and of targets are whole elements, and as many.
pub fn whole_map(keys: usize, targets: usize, a: usize, b: usize) -> bool
    requires { (0 < a) × (0 < b) }
    ensures { result ≡ eqb (keys % a) 0 && eqb (targets % b) 0 && eqb (keys / a) (targets / b) }
{
    whole_elements(keys, targets, a, b) && keys / a == targets / b
}
