//! A value that several hold, and whose memory is taken before it is there.
use as4_values::NoMemory;
use std::alloc::Global;
use std::io;
use std::io::ErrorKind;
use std::sync::{Arc, OnceLock};

/// Room for a value, and then the value.
#[derive(Drop)]
pub(crate) struct Shared<T: Drop> {
    slot: Arc<OnceLock<T>, Global>,
}

impl<T: Drop> Shared<T> {
    /// Room without a value.
    pub(crate) fn room(alloc: Global) -> Result<Shared<T>, NoMemory> {
        match Arc::new(alloc, OnceLock::new()) {
            Ok(slot) => Ok(Shared { slot }),
            Err(refused) => {
                drop(refused);
                Err(NoMemory)
            }
        }
    }

    /// Another holder of the same value.
    pub(crate) fn share(&self) -> Result<Shared<T>, NoMemory> {
        match Arc::try_clone(&self.slot) {
            Ok(slot) => Ok(Shared { slot }),
            Err(_) => Err(NoMemory),
        }
    }

    /// Puts a value into the room. It takes no memory.
    pub(crate) fn put(&self, value: T) {
        if let Err(refused) = self.slot.try_set(value) {
            drop(refused);
        }
    }

    /// The value, or `ErrorKind::NotConnected` where there is none.
    pub(crate) fn get(&self) -> io::Result<&T> {
        match self.slot.get() {
            Some(value) => Ok(value),
            None => Err(ErrorKind::NotConnected.into()),
        }
    }
}
