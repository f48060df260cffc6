// An element's steps by the route of its two kinds.
#![tactic(auto)]

ghost use Rattle.std.specs.Prelude.{◌≡◌};
ghost use Rattle.steps.specs.Steps.{stepped};
ghost use Rattle.routes.specs.Route.{source_of, target_of, RouteRow};
ghost use Rattle.route_steps.specs.Source.{SourcePattern};

use answers::Fit;
use codes::OutOfRangeMode;
use grid::RoundingMode;
use routes::Route;

// By the route of the two kinds; to its own kind a pattern is unchanged. What was found is told first: then it is told once, whatever the route.
pub fn step(
    b: u64,
    found: Option<u64>,
    route: Route,
    mode: RoundingMode,
    range: OutOfRangeMode,
) -> Fit
    requires { RouteRow route × SourcePattern b route }
    ensures { result ≡ stepped found (source_of route) (target_of route) mode range b }
{
    if let Some(pattern) = found {
        return answers::mapped(pattern);
    }
    match route {
        Route::Same(_) => answers::exact(b),
        Route::IntToInt { from, to } => {
            let x = integers::int_magnitude(b, from.signed, from.bits);
            steps::step_int_to_int(x, found, to, range)
        },
        Route::IntToFloat { from, to } => {
            let x = integers::int_magnitude(b, from.signed, from.bits);
            steps::step_int_to_float(x, found, to, mode, range)
        },
        Route::FloatToInt { from, to } => {
            let x = element::read_float(b, from);
            steps::step_float_to_int(x, found, to, mode, range)
        }
        Route::FloatToFloat { from, to } => {
            let x = element::read_float(b, from);
            steps::step_float_to_float(x, found, to, mode, range)
        }
    }
}
