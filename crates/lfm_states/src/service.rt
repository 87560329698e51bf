//! Which calls count as serving when they start, as in the law of service.
ghost use Rattle.std.specs.Prelude.{◌≡◌, ℕ, true, false};
ghost use Rattle.lfm_laws.specs.laws.Schedules.{begins};
ghost use Rattle.lfm_laws.specs.laws.Service.{Serves};
ghost use Rattle.lfm_protocol.specs.Core.{Core};
ghost use Rattle.lfm_protocol.specs.Seats.{wake};

use lfm_core::Call;
use lfm_words::Wake;

/// Whether a call that starts while its seat has this wake word is a serving call: an unlock, or a receive of a seat that has
/// its grant.
pub fn is_serving(call: Call, word: Wake) -> bool
    ensures serves { (c : Core) (s : ℕ) → wake c.wakes s ≡ word → result ≡ true → Serves c (begins s call) }
    ensures serves_not { (c : Core) (s : ℕ) → wake c.wakes s ≡ word → result ≡ false → Serves c (begins s call) → ⊥ }
{
    match call {
        Call::Unlock => true,
        Call::Receive => matches!(word, Wake::Grant(_)),
        _ => false,
    }
}
