//! What the measures need of a point: whether a call is open there, and what its step counts. The definitions are those of the
//! laws.
ghost use Rattle.std.specs.Prelude.{◌≡◌};
ghost use Rattle.lfm_laws.specs.laws.Grants.{grant_weight};
ghost use Rattle.lfm_laws.specs.laws.Overtaking.{enters_at, releases_at};
ghost use Rattle.lfm_laws.specs.laws.Schedules.{is_call};

use lfm_core::points::Point;

/// Whether a call is open at this point.
pub fn is_open(point: Point) -> bool
    ensures { result ≡ is_call point }
{
    !matches!(point, Point::Rest | Point::Asleep(_))
}

/// How many grants the step at this point stores.
pub fn grants_at(point: Point) -> u64
    ensures { result ≡ grant_weight point }
{
    match point {
        Point::GrantWakeStore(_, _) | Point::SendWakeStore(_) => 1,
        _ => 0,
    }
}

/// How often a seat becomes the owner by the step at this point.
pub fn enters_at(point: Point) -> u64
    ensures { result ≡ enters_at point }
{
    match point {
        Point::EnterOwnerStore(_, _) => 1,
        _ => 0,
    }
}

/// How often a seat stops being the owner by the step at this point.
pub fn releases_at(point: Point) -> u64
    ensures { result ≡ releases_at point }
{
    match point {
        Point::ReleaseOwnerStore(_) => 1,
        _ => 0,
    }
}
