//! The queues of waiting submissions.
ghost use Rattle.std.specs.Prelude.{[], ◌≡◌, ◌<◌, None, OnOk};
ghost use Rattle.channels.specs.Queues.{inserted, waiting_at};

use as4_effects::Queue;
use as4_values::{NoMemory, Text};
use channels::Channels;
use std::alloc::Global;

fn add(channels: &mut Channels, queue: &Queue, due: u64, number: u64) -> Result<(), NoMemory>
    requires range { number < 1048576 }
    requires new { waiting_at number channels.old.waiting ≡ None }
    ensures { OnOk result
        (channels.new.waiting ≡ inserted (record { queue = queue.now; due = due; number = number }) channels.old.waiting) }
{
    channels.reserve(queue, number)?;
    channels.insert(queue, due, number);
    Ok(())
}

/// The heads at three moments of three in the push queue, and the head after one is removed.
#[tactic(auto, unfolding(channels::specs::Queues::inserted))]
fn heads_of_one(channels: &mut Channels) -> Result<[Option<u64>; 4], NoMemory>
    requires { channels.old.waiting ≡ [] }
{
    add(channels, &Queue::Push, 20, 7)?;
    add(channels, &Queue::Push, 30, 3)?;
    add(channels, &Queue::Push, 20, 5)?;
    let before = channels.head(&Queue::Push, 19);
    let due = channels.head(&Queue::Push, 20);
    let later = channels.head(&Queue::Push, 30);
    channels.remove(&Queue::Push, 20, 5);
    Ok([before, due, later, channels.head(&Queue::Push, 30)])
}

#[test]
fn the_head_is_due_first_and_has_the_least_number(rt: HostRuntime) {
    let mut channels = Channels::new(rt.alloc());
    let heads = heads_of_one(&mut channels).ok();
    drop(channels);
    assert_eq!(rt; heads, Some([None, Some(5), Some(5), Some(7)]));
}

/// The heads of two channels and of the push queue, with one entry in the first channel and one in the push queue.
#[tactic(auto, unfolding(channels::specs::Queues::inserted))]
fn heads_of_each(
    channels: &mut Channels,
    orders: &Queue,
    bills: &Queue,
) -> Result<[Option<u64>; 3], NoMemory>
    requires { channels.old.waiting ≡ [] }
{
    add(channels, orders, 20, 1)?;
    add(channels, &Queue::Push, 10, 2)?;
    Ok([
        channels.head(orders, 20),
        channels.head(bills, 20),
        channels.head(&Queue::Push, 20),
    ])
}

/// The same for two channels with these names.
fn heads_in_new(alloc: Global, orders: &[u8], bills: &[u8]) -> Option<[Option<u64>; 3]> {
    match (Text::read(alloc, orders), Text::read(alloc, bills)) {
        (Ok(orders), Ok(bills)) => {
            let (orders, bills) = (Queue::Channel(orders), Queue::Channel(bills));
            let mut channels = Channels::new(alloc);
            let heads = heads_of_each(&mut channels, &orders, &bills);
            drop(channels);
            drop(orders);
            drop(bills);
            heads.ok()
        }
        (orders, bills) => {
            drop(orders);
            drop(bills);
            None
        }
    }
}

#[test]
fn queues_do_not_mix(rt: HostRuntime) {
    let heads = heads_in_new(rt.alloc(), b"orders", b"bills");
    assert_eq!(rt; heads, Some([Some(1), None, Some(2)]));
}

/// The heads at one moment, with two entries in the push queue and one in a channel: without the first, without the
/// second, without the pulled one, and without a number that isn't there.
#[tactic(auto, unfolding(channels::specs::Queues::inserted))]
fn heads_without(channels: &mut Channels, bills: &Queue) -> Result<[Option<u64>; 5], NoMemory>
    requires { channels.old.waiting ≡ [] }
{
    add(channels, &Queue::Push, 20, 1)?;
    add(channels, &Queue::Push, 30, 2)?;
    add(channels, bills, 10, 3)?;
    Ok([
        channels.head_without(&Queue::Push, 30, 1),
        channels.head_without(&Queue::Push, 29, 1),
        channels.head_without(&Queue::Push, 30, 2),
        channels.head_without(&Queue::Push, 30, 3),
        channels.head_without(bills, 30, 3),
    ])
}

/// The same for a channel with this name.
fn heads_without_in_new(alloc: Global, bills: &[u8]) -> Option<[Option<u64>; 5]> {
    let bills = Queue::Channel(Text::read(alloc, bills).ok()?);
    let mut channels = Channels::new(alloc);
    let heads = heads_without(&mut channels, &bills);
    drop(channels);
    drop(bills);
    heads.ok()
}

#[test]
fn the_head_without_one_is_the_next(rt: HostRuntime) {
    let heads = heads_without_in_new(rt.alloc(), b"bills");
    assert_eq!(rt; heads, Some([Some(2), None, Some(1), Some(1), None]));
}
