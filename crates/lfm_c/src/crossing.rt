//! Handles may move to another thread: the functions here can be proved only if the types of the handles are `Send`.
ghost use Rattle.std.specs.Prelude.{◌≡◌};

use crate::pool_handles::{PoolHandle, PoolSeatHandle};

/// Returns the value. The bound allows it to move to another thread, so a call can be proved only if the value's type is
/// `Send`.
fn sent<T: Send>(value: T) -> T
    ensures { result ≡ value }
{
    value
}

/// The handle of a seat of a pool may move to another thread.
pub fn pool_seat_crosses(handle: PoolSeatHandle) -> PoolSeatHandle
    ensures { result ≡ handle }
{
    sent(handle)
}

/// A pool's handle may move to another thread.
pub fn pool_crosses(handle: PoolHandle) -> PoolHandle
    ensures { result ≡ handle }
{
    sent(handle)
}
