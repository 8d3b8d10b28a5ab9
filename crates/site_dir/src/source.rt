//! Standard input as a source.
use crate::files::read_some;
use site_model::{Failed, Source};
use std::io::Input;

/// Standard input. It doesn't tell what is left of it.
#[derive(Drop)]
pub struct StdSource<R: Input> {
    reader: R::Reader,
    faults: u64,
    taken: u64,
}

impl<R: Input> StdSource<R> {
    ghost use Rattle.std.specs.Prelude.{◌≡◌};

    /// Nothing was taken, and no read has failed.
    pub fn new(rt: &R) -> Self
        ensures faults { result.faults ≡ 0 }
        ensures taken { result.taken ≡ 0 }
    {
        StdSource {
            reader: rt.reader(),
            faults: 0,
            taken: 0,
        }
    }
}

impl<R: Input> Source for StdSource<R> {
    ghost use Rattle.std.specs.Prelude.{None};

    ghost left = { λ _. None };

    ghost faults = { λ s. s.faults };

    ghost taken = { λ s. s.taken };

    fn read(&mut self, out: &mut [u8]) -> Result<usize, Failed> {
        match read_some(&mut self.reader, out) {
            Ok(n) => {
                self.taken = self.taken.saturating_add(n as u64);
                Ok(n)
            }
            Err(_) => {
                self.faults = self.faults.saturating_add(1);
                Err(Failed)
            }
        }
    }
}
