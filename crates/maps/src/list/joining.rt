ghost use Rattle.std.specs.Prelude.{◌≡◌, IfErr, OnOk};
ghost use Rattle.maps.specs.Changes.{Changed};
ghost use Rattle.maps.specs.ListMaps.{network_of};
ghost use Rattle.maps.specs.Networks.{joining, JoiningTells, with_connection};

use crate::connection::Connection;
use crate::list::{ListMap, MOST_CONNECTIONS};
use crate::refusal::MapRefusal;
use floor::FloorMap;

impl ListMap {
    // One connection more, or why not.
    #[tactic(auto, using(crate::proofs::Joining::joining_tells, crate::specs::ListMapsLemmas::ends_on_floor, crate::specs::ListMapsLemmas::few_more, crate::specs::ListMapsLemmas::near_room, crate::specs::ListMapsLemmas::far_room))]
    pub fn join(&mut self, c: Connection) -> Result<(), MapRefusal>
        ensures change { Changed network_of (joining (network_of self.old) c) self.old self.new result }
        ensures each_answer_exactly { JoiningTells }
    {
        self.test_connection(c)?;
        self.rows[usize::from(c.first)].push(c.second);
        self.rows[usize::from(c.second)].push(c.first);
        self.connections.push_reserved(c);
        Ok(())
    }

    // Whether a connection may be added.
    #[tactic(auto, using(crate::proofs::Members::has_numbers, crate::proofs::Members::length_numbers), unfolding(crate::specs::Networks::joining))]
    fn test_connection(&self, c: Connection) -> Result<(), MapRefusal>
        ensures taken { OnOk result (joining (network_of self.now) c ≡ Ok (with_connection (network_of self.now) c)) }
        ensures refused { IfErr result (λ e. joining (network_of self.now) c ≡ Err e) }
    {
        let places = self.places();
        let near = self.row(c.first);
        let far = self.row(c.second);
        if self.connections.len() >= MOST_CONNECTIONS {
            return Err(MapRefusal::Count);
        }
        if usize::from(c.first) >= places || usize::from(c.second) >= places {
            return Err(MapRefusal::NoPlace);
        }
        if c.first == c.second || near.contains(&c.second) {
            return Err(MapRefusal::Twice);
        }
        if near.len() >= 8 || far.len() >= 8 {
            return Err(MapRefusal::Crowded);
        }
        Ok(())
    }
}
