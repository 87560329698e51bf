//! How the pace of plain conditions is set.
ghost use Rattle.lfm_monitor.specs.PlainSeats.{ArePlainPaced, SamePlainButPaces};

use lfm_mutex::Pace;
use lfm_plain_condvar::PlainCondvar;

/// Sets the pace of each of these plain conditions.
pub(crate) fn set_plain_paces(conditions: &mut Vec<PlainCondvar>, pace: Pace)
    ensures paced { ArePlainPaced pace conditions.new.items }
    ensures same { SamePlainButPaces conditions.old.items conditions.new.items }
{
    'setting: for condition in conditions.iter_mut() {
        condition.set_pace(pace);
    }
}
