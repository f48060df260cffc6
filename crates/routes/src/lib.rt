// The route of two kinds: which of the four conversions an element takes.
#![tactic(auto)]

ghost use Rattle.std.specs.Prelude.{◌≡◌};
ghost use Rattle.routes.specs.Route.{integer_route, float_route, route_of};

use kinds::{FloatFormat, Format, IntegerFormat};

// Which of the four conversions two kinds take, with the format of each, or that they are the same kind; settled once for a call.
#[derive(Clone, Copy)]
pub enum Route {
    Same(Format),
    IntToInt {
        from: IntegerFormat,
        to: IntegerFormat,
    },
    IntToFloat {
        from: IntegerFormat,
        to: FloatFormat,
    },
    FloatToInt {
        from: FloatFormat,
        to: IntegerFormat,
    },
    FloatToFloat {
        from: FloatFormat,
        to: FloatFormat,
    },
}

// The route of two integer formats.
fn integer_route(from: IntegerFormat, to: IntegerFormat) -> Route
    ensures { result ≡ integer_route from to }
{
    if from.bits == to.bits && from.signed == to.signed {
        return Route::Same(Format::Integer(from));
    }
    Route::IntToInt { from, to }
}

// The route of two float formats.
fn float_route(from: FloatFormat, to: FloatFormat) -> Route
    ensures { result ≡ float_route from to }
{
    if from.precision == to.precision {
        return Route::Same(Format::Float(from));
    }
    Route::FloatToFloat { from, to }
}

// The route of two formats.
pub fn route_of(from: Format, to: Format) -> Route
    ensures { result ≡ route_of from to }
{
    match from {
        Format::Integer(f) => match to {
            Format::Integer(t) => integer_route(f, t),
            Format::Float(t) => Route::IntToFloat { from: f, to: t },
        },
        Format::Float(f) => match to {
            Format::Integer(t) => Route::FloatToInt { from: f, to: t },
            Format::Float(t) => float_route(f, t),
        },
    }
}
