ghost use Rattle.std.specs.Prelude.{◌≡◌, ◌≤◌, length, IfOk};
ghost use Rattle.devices.specs.Endpoints.{packet_bytes};

use super::Packet;
use std::alloc::{AllocError, Global};

impl Packet {
    pub(crate) fn new(alloc: Global, bytes: &[u8]) -> Result<Packet, AllocError>
        requires { length bytes.now ≤ 64 }
        ensures { IfOk result (λ p. packet_bytes p ≡ bytes.now) }
    {
        let bytes = Vec::from_slice(alloc, bytes)?;
        Ok(Packet { bytes })
    }

    pub(crate) fn as_slice(&self) -> &[u8]
        ensures bytes { result.now ≡ packet_bytes self.now }
        ensures small { length result.now ≤ 64 }
    {
        self.bytes.as_slice()
    }
}
