//! An office may go to other threads, and under a lock, where its disk may.
use crate::call::Call;
use crate::office::Office;
use crate::ready::Ready;
use as4_disk::Disk;

fn crosses<T: Send>(value: T) -> T {
    value
}

fn office_crosses<D: Disk + Send>(office: Office<'_, D>) -> Office<'_, D> {
    crosses(office)
}

fn ready_crosses(ready: Ready) -> Ready {
    crosses(ready)
}

fn call_crosses(call: Call) -> Call {
    crosses(call)
}
