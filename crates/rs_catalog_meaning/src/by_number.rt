//! Finds routes by their numbers.
//!
//! It takes no memory: each number below the limit has its place in an array.

ghost use Rattle.std.specs.Prelude.{◌≡◌, ◌≢◌, ◌≤◌, Contains, IfNone, IfSome, length, map};
ghost use Rattle.std.specs.List.{AllByRecursion};
ghost use Rattle.rs_machine.specs.declared.limits.TheConstants.{ROUTES};
ghost use Rattle.rs_catalog_meaning.specs.Places.{AreGivenOnce, ArePlaces};

use rs_catalog_pages::StoredRoute;
use rs_machine::limits::ROUTES;

/// For each number the place of its route, counted from 1; 0 where no route has the number.
pub type Places = [u16; ROUTES];

/// The places of these routes; `None` where a number is not below the limit, or is that of two routes.
pub fn places_of(routes: &[StoredRoute]) -> Option<Places>
    requires few { length routes.now ≤ ROUTES }
    ensures places { IfSome result (λ places. ArePlaces (map (λ route. route.number) routes.now) places) }
    ensures none { IfNone result (AreGivenOnce (map (λ route. route.number) routes.now) → ⊥) }
{
    let mut places = [0; ROUTES];
    for (place, route) in routes.iter().enumerate() {
        let number = route.number as usize;
        if number >= ROUTES || places[number] != 0 {
            return None;
        }
        places[number] = place as u16 + 1;
    }
    Some(places)
}

/// The route of this number.
pub fn route_with<'a>(
    routes: &'a [StoredRoute],
    places: &Places,
    number: u32,
) -> Option<&'a StoredRoute>
    requires { ArePlaces (map (λ route. route.number) routes.now) places.now }
    ensures route { IfSome result (λ route. Contains routes.now route.now × (route.now.number ≡ number)) }
    ensures none { IfNone result (AllByRecursion (λ route. route.number ≢ number) routes.now) }
{
    let number = number as usize;
    if number >= ROUTES || places[number] == 0 {
        return None;
    }
    Some(&routes[places[number] as usize - 1])
}
