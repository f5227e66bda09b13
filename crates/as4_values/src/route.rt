//! Routes.

use crate::memory::NoMemory;
use crate::plain_data::PlainData;
use crate::text::Text;
use std::alloc::Global;

/// How messages reach the other endpoint (ebMS 3.0 Core, section 2.2).
#[derive(Drop)]
pub enum Route {
    /// One-Way/Push: they are sent to this address.
    Push { address: Text },
    /// One-Way/Pull: they wait in this message partition channel until the other endpoint pulls them; a puller sends
    /// its pull requests to this address.
    Pull { mpc: Text, address: Text },
}

impl PlainData for Route {
    fn try_clone(&self, alloc: Global) -> Result<Route, NoMemory> {
        match self {
            Route::Push { address } => Ok(Route::Push {
                address: address.try_clone(alloc)?,
            }),
            Route::Pull { mpc, address } => Ok(Route::Pull {
                mpc: mpc.try_clone(alloc)?,
                address: address.try_clone(alloc)?,
            }),
        }
    }

    fn same(&self, other: &Route) -> bool {
        match (self, other) {
            (Route::Push { address }, Route::Push { address: other }) => address.same(other),
            (
                Route::Pull { mpc, address },
                Route::Pull {
                    mpc: other_mpc,
                    address: other_address,
                },
            ) => mpc.same(other_mpc) && address.same(other_address),
            _ => false,
        }
    }
}
