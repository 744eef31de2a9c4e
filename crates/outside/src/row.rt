ghost use Rattle.std.specs.Prelude.{◌≡◌, IfErr, IfOk};
ghost use Rattle.std.specs.Option.{option_map};
ghost use Rattle.maps.specs.Networks.{InCount};
ghost use Rattle.maps.specs.declared.refusal.MapRefusal.TheVariants.{Count};
ghost use Rattle.outside.specs.Row.{NeighboursAreNext, after, before, row_floor};
ghost use Rattle.outside.specs.RowLemmas.{row_lawful};

use floor::{FloorMap, Place};
use maps::MapRefusal;

// So many places in a row. No table is kept: what is asked is worked out from the numbers.
#[derive(Clone, Copy)]
pub struct Row {
    places: u16,
    ghost in_count: { InCount places },
}

impl Row {
    // A row of so many places, where a floor may have as many.
    #[tactic(auto, using(crate::specs::RowLemmas::neighbours_are_next))]
    pub fn new(places: u16) -> Result<Row, MapRefusal>
        ensures of_so_many_places { IfOk result (λ row. row.places ≡ places) }
        ensures refused { IfErr result (λ e. (InCount places → ⊥) × (e ≡ Count)) }
        ensures neighbours_are_next { NeighboursAreNext places }
    {
        if places == 0 || places > 1024 {
            return Err(MapRefusal::Count);
        }
        Ok(Row { places })
    }

    fn before(&self, p: Place) -> Option<Place>
        ensures { option_map (λ q. q.0) result ≡ before self.now.places p.0 }
    {
        if p.0 == 0 || p.0 >= self.places {
            return None;
        }
        Some(Place(p.0 - 1))
    }

    fn after(&self, p: Place) -> Option<Place>
        ensures { option_map (λ q. q.0) result ≡ after self.now.places p.0 }
    {
        if p.0 >= self.places - 1 {
            return None;
        }
        Some(Place(p.0 + 1))
    }
}

impl FloorMap for Row {
    ghost floor = { λ row. row_floor row.places };

    ghost lawful = { λ row. row_lawful row.places row.in_count };

    fn places(&self) -> usize {
        usize::from(self.places)
    }

    fn degree(&self, p: Place) -> usize {
        usize::from(self.before(p).is_some()) + usize::from(self.after(p).is_some())
    }

    fn neighbour(&self, p: Place, i: usize) -> Option<Place> {
        let mut both = self.before(p).into_iter().chain(self.after(p));
        both.nth(i)
    }
}
