// A route that is shown, with its answer.
use crate::answers::{Told, tell_refused, tell_taken};
use crate::routes::{Shown, test_route};
use crate::scene::Scene;
use checking::Check;
use floor::{Cart, FloorMap, Place};
use splits::OwnRules;
use std::io;

pub fn tell_show<'a, M: FloorMap>(
    rt: &HostRuntime,
    check: &mut Check<'_, M, OwnRules>,
    scene: &mut Scene<'a, M>,
    route: Shown<'a>,
) -> Told {
    let cart = route.cart;
    let places = route.places.decode();
    tell_route(rt, cart, &places)?;
    let answer = check.show(cart, &places);
    match answer {
        Ok(()) => {
            tell_taken(rt)?;
            scene.shown.push(route)?;
        }
        Err(refusal) => {
            let tested = test_route(scene.map, scene.trips, &scene.shown, cart, &places);
            tell_refused(rt, refusal, tested.err())?;
        }
    }
    Ok(answer)
}

fn tell_route(rt: &HostRuntime, cart: Cart, places: &[Place]) -> io::Result<()> {
    print!(rt; "route of cart {cart}:")?;
    for place in places {
        print!(rt; " {place}")?;
    }
    println!(rt; "")
}
