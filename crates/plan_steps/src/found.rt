//! Which files a plan found at its start.
#![tactic(auto)]

ghost use Rattle.std.specs.Prelude.{◌≡◌};
ghost use Rattle.plan_steps.specs.Planned.{held, is_at, is_found, is_found_coded, is_found_plain, placed};

use crate::Plan;
use file_names::Kind;
use world_model::types::Command;

fn is_at(place: (u8, u32), shard: u8, server: u32) -> bool
    ensures { result ≡ is_at shard server place }
{
    place.0 == shard && place.1 == server
}

impl Plan {
    /// Whether the plan found the file at its start, and so removes it or leaves it.
    pub fn found(&self, server: u32, kind: Kind) -> bool
        ensures { result ≡ is_found self.now self.now.command server kind }
    {
        match self.command {
            Command::Encode { .. } => self.found_plain(server, kind),
            Command::Rebuild => self.found_coded(server, kind),
            Command::Balance => self.found_coded(server, kind),
            Command::Decode => self.found_coded(server, kind),
        }
    }

    fn found_plain(&self, server: u32, kind: Kind) -> bool
        ensures { result ≡ is_found_plain self.now server kind }
    {
        match kind {
            Kind::Dat => self.home == server,
            Kind::Idx => self.home == server,
            Kind::Cpd | Kind::Cpx => false,
            Kind::Shard(_) => false,
            Kind::Ecx => false,
            Kind::Ecj => false,
            Kind::Vif => false,
        }
    }

    fn found_coded(&self, server: u32, kind: Kind) -> bool
        ensures { result ≡ is_found_coded self.now server kind }
    {
        match kind {
            Kind::Dat => false,
            Kind::Idx => false,
            Kind::Cpd | Kind::Cpx => false,
            Kind::Shard(shard) => self.placed(shard, server),
            Kind::Ecx => self.held(server),
            Kind::Ecj => self.held(server),
            Kind::Vif => self.held(server),
        }
    }

    /// Whether the shard stood at the server when the plan began.
    pub fn placed(&self, shard: u8, server: u32) -> bool
        ensures { result ≡ placed self.now shard server }
    {
        self.places.iter().any(|p| is_at(*p, shard, server))
    }

    /// Whether some shard did.
    pub fn held(&self, server: u32) -> bool
        ensures { result ≡ held self.now server }
    {
        self.places.iter().any(|p| p.1 == server)
    }
}
