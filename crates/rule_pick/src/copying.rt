//! Copies of facts.

ghost use Rattle.std.specs.Prelude.{◌≡◌, IfOk};

use crate::facts::Facts;
use crate::names::copy_names;
use std::alloc::AllocError;

impl Facts {
    /// Equal facts. Names of up to 30 bytes take no memory.
    pub fn copy(&self) -> Result<Facts, AllocError>
        ensures { IfOk result (λ copy. copy ≡ self.now) }
    {
        Ok(Facts {
            kind: self.kind,
            class: self.class.copy()?,
            net_name: self.net_name.copy()?,
            width: self.width.copy(),
            diameter: self.diameter.copy(),
            hole: self.hole.copy(),
            layers: self.layers,
            on_edge: self.on_edge,
            plated: self.plated,
            micro: self.micro,
            blind: self.blind,
            local: self.local.copy(),
            class_clearance: self.class_clearance,
            areas: copy_names(&self.areas)?,
            courtyards: copy_names(&self.courtyards)?,
        })
    }
}
