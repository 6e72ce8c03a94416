//! The output of the host.
ghost use Rattle.std.specs.Prelude.{◌≡◌, ◌+◌, None};

use crate::outside::{Put, Sink};

/// The output of the host. It does not tell what it took.
#[derive(Drop)]
pub struct HostOut<R: Print + Drop> {
    host: R,
    faults: u64,
}

impl<R: Print + Drop> HostOut<R> {
    /// The output of this host. No put has failed yet.
    pub fn new(host: R) -> HostOut<R>
        ensures { result.faults ≡ 0 }
    {
        HostOut { host, faults: 0 }
    }
}

impl<R: Print + Drop> Sink for HostOut<R> {
    ghost taken = { λ _. None };

    ghost faults = { λ s. s.faults };

    fn put(&mut self, piece: &[u8]) -> Put {
        match self.host.write_some(piece) {
            Ok(count) if count > 0 => Put::Took(count),
            _ => {
                self.faults = self.faults.saturating_add(1);
                Put::Failed
            }
        }
    }
}
