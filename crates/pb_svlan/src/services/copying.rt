//! Copies of the services of a bridge.

ghost use Rattle.std.specs.Prelude.{◌≡◌, IfOk};

use crate::services::Services;
use crate::vid::Vid;
use indexmap::IndexMap;
use pb_frame::Text;
use std::alloc::AllocError;

/// Returns a copy of the services.
fn copied_services(services: &IndexMap<Vid, Text>) -> Result<IndexMap<Vid, Text>, AllocError>
    ensures { IfOk result (λ copy. copy.entries ≡ services.now.entries) }
{
    services.clone()
}

/// The copy is equal.
impl Clone for Services {
    ghost is_clone = { λ services copy. copy ≡ services };

    fn clone(&self) -> Result<Services, AllocError> {
        let services = copied_services(&self.services)?;
        Ok(Services {
            services,
            ports: self.ports.clone()?,
        })
    }
}
