//! The heap of each queue: first the push queue, then the channels in the order of their names.

ghost use Rattle.std.specs.Prelude.{◌≡◌, ℕ, ◌-◌, ◌<◌, ◌≤◌, Some, length, IfOk, IfSome, OnOk};
ghost use Rattle.channels.specs.Keeping.{queue_at, AreDistinct, KeepsNames, KeepsHeaps};

use crate::names::Names;
use as4_effects::Queue;
use as4_values::NoMemory;
use due_heap::Heaps;

/// The heap of this queue, where there is one.
pub fn heap_of(names: &Names, heaps: &Heaps, queue: &Queue) -> Option<u64>
    requires distinct { AreDistinct names.now }
    requires enough { length names.now ≤ heaps.now.count - 1 }
    ensures found { IfSome result (λ heap. (queue_at names.now heap ≡ Some queue.now) × (heap < heaps.now.count)) }
    ensures only { (heap : ℕ) → queue_at names.now heap ≡ Some queue.now → heap < heaps.now.count → result ≡ Some heap }
{
    let count = heaps.count();
    let heap = match queue {
        Queue::Push => 0,
        Queue::Channel(mpc) => names.find(mpc.bytes())? + 1,
    };
    if heap < count { Some(heap) } else { None }
}

/// The heap of this queue; made if there is none.
pub fn heap_for(names: &mut Names, heaps: &mut Heaps, queue: &Queue) -> Result<u64, NoMemory>
    requires distinct { AreDistinct names.old }
    requires enough { length names.old ≤ heaps.old.count - 1 }
    ensures heap { IfOk result (λ heap. (queue_at names.new heap ≡ Some queue.now) × (heap < heaps.new.count)) }
    ensures enough { length names.new ≤ heaps.new.count - 1 }
    ensures names { KeepsNames names.old names.new }
    ensures heaps { KeepsHeaps heaps.old heaps.new }
{
    match heap_of(names, heaps, queue) {
        Some(heap) => Ok(heap),
        None => new_heap(names, heaps, queue),
    }
}

/// Makes a heap for this queue, which has none.
fn new_heap(names: &mut Names, heaps: &mut Heaps, queue: &Queue) -> Result<u64, NoMemory>
    requires enough { length names.old ≤ heaps.old.count - 1 }
    requires new { (heap : ℕ) → queue_at names.old heap ≡ Some queue.now → heaps.old.count ≤ heap }
    ensures heap { IfOk result (λ heap. (queue_at names.new heap ≡ Some queue.now) × (heap < heaps.new.count)) }
    ensures enough { length names.new ≤ heaps.new.count - 1 }
    ensures names { KeepsNames names.old names.new }
    ensures heaps { KeepsHeaps heaps.old heaps.new }
{
    match queue {
        Queue::Push => {
            make_heaps(heaps, 1)?;
            Ok(0)
        }
        Queue::Channel(mpc) => {
            let heap = names.len() + 1;
            make_heaps(heaps, heap + 1)?;
            names.add(mpc.bytes())?;
            Ok(heap)
        }
    }
}

/// Makes heaps until there are this many.
fn make_heaps(heaps: &mut Heaps, count: u64) -> Result<(), NoMemory>
    ensures ok { OnOk result (count ≤ heaps.new.count) }
    ensures kept { KeepsHeaps heaps.old heaps.new }
{
    while heaps.count() < count {
        heaps.add()?;
    }
    Ok(())
}
