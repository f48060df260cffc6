// The map of a typed call: entries of a key and a target, and the target of the first entry that matches.
#![tactic(auto)]

ghost use Rattle.std.specs.Prelude.{◌≡◌, map, ◌%◌, ◌^◌};
ghost use Rattle.patterns.specs.Kind.{bits};
ghost use Rattle.patterns.specs.Value.{value_of};
ghost use Rattle.kinds.specs.Table.{kind_of};
ghost use Rattle.cast_spec.specs.Element.{matches, lookup_of};
ghost use Rattle.typed_entries.specs.Entries.{entry_of};

use typed_keys::{Key, PatternKey};
use typed_values::Number;

// A map entry of a pair of kinds. C knows each pair's by its fields, so each is a struct with no type parameters.
pub trait MapEntry<K: Number, T: Number>: Copy {
    ghost key: { Self → K };

    ghost target: { Self → T };

    fn key(self) -> K
        ensures { result ≡ key self };

    fn target(self) -> T
        ensures { result ≡ target self };
}

// A map entry of f64 to u8.
#[repr(C)]
#[derive(Clone, Copy)]
pub struct EntryF64U8 {
    pub key: f64,
    pub target: u8,
}

impl MapEntry<f64, u8> for EntryF64U8 {
    ghost key = { λ e. e.key };

    ghost target = { λ e. e.target };

    fn key(self) -> f64 {
        self.key
    }

    fn target(self) -> u8 {
        self.target
    }
}

// A map entry of f64 to i32.
#[repr(C)]
#[derive(Clone, Copy)]
pub struct EntryF64I32 {
    pub key: f64,
    pub target: i32,
}

impl MapEntry<f64, i32> for EntryF64I32 {
    ghost key = { λ e. e.key };

    ghost target = { λ e. e.target };

    fn key(self) -> f64 {
        self.key
    }

    fn target(self) -> i32 {
        self.target
    }
}

// A map entry of f32 to u8.
#[repr(C)]
#[derive(Clone, Copy)]
pub struct EntryF32U8 {
    pub key: f32,
    pub target: u8,
}

impl MapEntry<f32, u8> for EntryF32U8 {
    ghost key = { λ e. e.key };

    ghost target = { λ e. e.target };

    fn key(self) -> f32 {
        self.key
    }

    fn target(self) -> u8 {
        self.target
    }
}

// A map entry of f64 to f32: a record of two floats.
#[repr(C)]
#[derive(Clone, Copy)]
pub struct Entry {
    pub key: f64,
    pub target: f32,
}

impl MapEntry<f64, f32> for Entry {
    ghost key = { λ e. e.key };

    ghost target = { λ e. e.target };

    fn key(self) -> f64 {
        self.key
    }

    fn target(self) -> f32 {
        self.target
    }
}

// A map entry of i64 to f32.
#[repr(C)]
#[derive(Clone, Copy)]
pub struct EntryI64F32 {
    pub key: i64,
    pub target: f32,
}

impl MapEntry<i64, f32> for EntryI64F32 {
    ghost key = { λ e. e.key };

    ghost target = { λ e. e.target };

    fn key(self) -> i64 {
        self.key
    }

    fn target(self) -> f32 {
        self.target
    }
}

// The target of the first entry that matches.
pub fn lookup<K: Key, T: Number, E: MapEntry<K, T>>(entries: &[E], x: K) -> Option<u64>
    ensures { result ≡ lookup_of (kind_of K.CODE) (value_of (kind_of K.CODE) (K.pattern x)) (map (entry_of K.pattern T.pattern E.key E.target) entries.now) }
{
    let first = entries.iter().find(|entry| x.matches(entry.key()))?;
    Some(first.target().pattern())
}

// Whether an entry's key matches the number of the pattern x.
fn matches<K: PatternKey, T: Number, E: MapEntry<K, T>>(entry: E, x: u64) -> bool
    ensures { result ≡ matches (value_of (kind_of K.CODE) (x % 2 ^ bits (kind_of K.CODE))) (value_of (kind_of K.CODE) (entry_of K.pattern T.pattern E.key E.target entry).key) }
{
    entry.key().matches_pattern(x)
}

// The target of the first entry that matches the number of the pattern x.
pub fn lookup_pattern<K: PatternKey, T: Number, E: MapEntry<K, T>>(
    entries: &[E],
    x: u64,
) -> Option<u64>
    ensures { result ≡ lookup_of (kind_of K.CODE) (value_of (kind_of K.CODE) (x % 2 ^ bits (kind_of K.CODE))) (map (entry_of K.pattern T.pattern E.key E.target) entries.now) }
{
    for entry in entries {
        if matches::<K, T, E>(*entry, x) {
            return Some(entry.target().pattern());
        }
    }
    None
}
