//! One more in the number that a seat has in hand.
ghost use Rattle.lfm_mutex.specs.Belongs.{Beside};

use lfm_mutex::Seat;

/// Adds 1 to the number in hand, and returns it; 0 if the seat doesn't hold.
pub fn add_one(seat: &mut Seat<u64>) -> u64
    ensures { Beside seat.old seat.new }
{
    let Some(number) = seat.value_mut() else {
        return 0;
    };
    *number = number.wrapping_add(1);
    *number
}
