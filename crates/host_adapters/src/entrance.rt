//! What the doors at one listener share: the listener, and the connections that have sent nothing yet.
//!
//! A connection is handed to a door once bytes have come, or once the peer has closed it, so a peer that sends nothing holds
//! no worker. One door at a time has the lock and asks the system about all of them. It leaves with a connection, and then
//! the next door has the lock.
use crate::pace::LIMIT;
use libc::net::{POLLIN, poll};
use libc::types::pollfd;
use std::alloc::{AllocError, Global};
use std::io::ErrorKind;
use std::net::{SocketAddr, TcpListener, TcpStream};
use std::os::fd::{AsRawFd, RawFd};
use std::sync::{Mutex, Wait};
use std::time::{Clock, Duration, Instant};
use std::{io, thread};

/// How many connections wait for their first bytes at most. It is half of the descriptors that most systems give a process.
const MOST: usize = 512;

/// How long a door waits where the process or the system is out of descriptors, in milliseconds.
const REST: u64 = 100;

/// The system's numbers for these.
const ENFILE: i32 = 23;

const EMFILE: i32 = 24;

/// A listener and the connections that wait.
#[derive(Drop)]
pub(crate) struct Entrance {
    listener: TcpListener,
    guests: Mutex<Guests>,
}

/// The connections that wait, in the order in which they came.
#[derive(Drop)]
pub(crate) struct Guests {
    waiting: Vec<Guest>,
}

#[derive(Drop)]
struct Guest {
    stream: TcpStream,
    since: Instant,
}

// What the system says: this connection is ready, or the listener is, or neither.
enum Ready {
    Guest(usize),
    Listener,
    Nothing,
}

impl Entrance {
    /// Makes the listener non-blocking: the doors wait in `poll` alone.
    pub(crate) fn of(listener: TcpListener, guests: Guests) -> io::Result<Entrance> {
        listener.set_nonblocking(true)?;
        Ok(Entrance {
            listener,
            guests: Mutex::new(guests),
        })
    }

    pub(crate) fn local_addr(&self) -> io::Result<SocketAddr> {
        self.listener.local_addr()
    }

    /// The next connection from which bytes have come, or which the peer has closed.
    pub(crate) fn next<R: Clock + Wait>(&self, system: &R) -> io::Result<TcpStream> {
        let mut held = self.guests.lock(system);
        let guests = &mut *held;
        for _ in 0..u64::MAX {
            match guests.wait(system, &self.listener)? {
                Ready::Guest(at) => {
                    if let Some(stream) = guests.take(at) {
                        return Ok(stream);
                    }
                }
                Ready::Listener => guests.admit(system, &self.listener)?,
                Ready::Nothing => guests.close_late(system)?,
            }
        }
        Err(ErrorKind::Other.into())
    }
}

impl Guests {
    /// It takes all memory that they will need.
    pub(crate) fn room(alloc: Global) -> Result<Guests, AllocError> {
        Ok(Guests {
            waiting: Vec::with_capacity(alloc, MOST)?,
        })
    }

    // Waits until a connection or the listener is ready, or the time of the first connection is over. A signal ends the wait.
    fn wait<R: Clock>(&self, system: &R, listener: &TcpListener) -> io::Result<Ready> {
        let limit = self.limit(system)?;
        let mut asked = [about(-1); MOST + 1];
        asked[0] = about(listener.as_raw_fd());
        for (slot, guest) in asked[1..].iter_mut().zip(&self.waiting) {
            *slot = about(guest.stream.as_raw_fd());
        }
        let count = self.waiting.len().min(MOST) + 1;
        if poll(&mut asked[..count], limit) < 0 {
            let error = io::Error::from_raw_os_error(os::errno());
            if error.kind() == ErrorKind::Interrupted {
                return Ok(Ready::Nothing);
            }
            return Err(error);
        }
        match asked[1..count].iter().position(|slot| slot.revents != 0) {
            Some(at) => Ok(Ready::Guest(at)),
            None if asked[0].revents != 0 => Ok(Ready::Listener),
            None => Ok(Ready::Nothing),
        }
    }

    // How long a wait may last, in milliseconds. A negative number is no limit.
    fn limit<R: Clock>(&self, system: &R) -> io::Result<i32> {
        let Some(first) = self.waiting.first() else {
            return Ok(-1);
        };
        let millis = first.time_left(system)?.as_millis();
        Ok(i32::try_from(millis).unwrap_or(i32::MAX).saturating_add(1))
    }

    fn take(&mut self, at: usize) -> Option<TcpStream> {
        if at < self.waiting.len() {
            Some(self.waiting.remove(at).stream)
        } else {
            None
        }
    }

    // Accepts a connection, which waits from now on. Where there is no room, the one that has waited longest is closed.
    fn admit<R: Clock>(&mut self, system: &R, listener: &TcpListener) -> io::Result<()> {
        let since = Instant::now(system)?;
        match listener.accept() {
            Ok((stream, _)) => {
                // Where the system refuses, it only sends small pieces later.
                let _ = stream.set_nodelay(true);
                if self.waiting.len() >= MOST {
                    drop(self.take(0));
                }
                if let Err(refused) = self.waiting.push(Guest { stream, since }) {
                    drop(refused);
                }
                Ok(())
            }
            Err(error) if error.kind() == ErrorKind::WouldBlock => Ok(()),
            Err(error) if is_shortage(&error) => {
                if self.waiting.is_empty() {
                    thread::sleep(system, Duration::from_millis(REST));
                }
                drop(self.take(0));
                Ok(())
            }
            Err(error) => Err(error),
        }
    }

    // Closes the connection that has waited longest, if its time is over.
    fn close_late<R: Clock>(&mut self, system: &R) -> io::Result<()> {
        let Some(first) = self.waiting.first() else {
            return Ok(());
        };
        if first.time_left(system)?.is_zero() {
            drop(self.take(0));
        }
        Ok(())
    }
}

impl Guest {
    fn time_left<R: Clock>(&self, system: &R) -> io::Result<Duration> {
        let spent = Instant::now(system)?.duration_since(self.since);
        Ok(Duration::from_secs(LIMIT).saturating_sub(spent))
    }
}

// The question whether a descriptor is ready. About a negative one the system says nothing.
fn about(fd: RawFd) -> pollfd {
    pollfd {
        fd,
        events: POLLIN,
        revents: 0,
    }
}

fn is_shortage(error: &io::Error) -> bool {
    matches!(error.raw_os_error(), Some(EMFILE | ENFILE))
}
