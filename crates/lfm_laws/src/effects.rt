//! Linearization points: each call has one event of its own seat that counts as its effect. Queueing, posting and serving do
//! not count. The last law is about schedules. The others hold for every steady state, and so for every state that a schedule
//! reaches.
ghost use Rattle.lfm_laws.specs.laws.Effects.{CallsTakeEffectOnce, ChangesAreOfOpenCalls, EffectsAreOfCalls, EffectsAreTheCallers, OpenCallsHaveBegun};
ghost use Rattle.lfm_laws.specs.laws.InSchedules.{CallsTakeEffectOnceInSchedules, EffectsAreOfCallsInSchedules, EffectsAreTheCallersInSchedules};

/// A call has exactly one effect between its start and its end, whatever the other seats do in between: its seat or the
/// target of its send asks, its seat accepts a post, takes up its grant or releases, or its depth changes and stays above 0.
/// A refused call has none, nor has a `receive` that finds no grant. An open call has had at most one.
///
/// Definitions: `CallsTakeEffectOnce` in `specs/laws/Effects.antt`, and `CallsTakeEffectOnceInSchedules` in
/// `specs/laws/InSchedules.antt`. Proofs: `proofs/lawful/calls/EffectsOnce.antt` and `proofs/lawful/runs/InSchedules.antt`.
pub fn calls_take_effect_once()
    ensures steady { CallsTakeEffectOnce }
    ensures schedules { CallsTakeEffectOnceInSchedules }
{}

/// Each event that has a case, and so each that changes the abstract mutex (`events_are_their_cases`), is a step of a seat
/// whose call is open.
///
/// Definition: `ChangesAreOfOpenCalls` in `specs/laws/Effects.antt`. Proof: `proofs/lawful/calls/EffectsOwned.antt`.
pub fn changes_are_of_open_calls()
    ensures { ChangesAreOfOpenCalls }
{}

/// Each effect of a seat is a step of its open call, or the start of a call that ends at once.
///
/// Definitions: `EffectsAreOfCalls` in `specs/laws/Effects.antt`, and `EffectsAreOfCallsInSchedules` in
/// `specs/laws/InSchedules.antt`. Proofs: `proofs/lawful/calls/EffectsOwned.antt` and `proofs/lawful/runs/InSchedules.antt`.
pub fn effects_are_of_calls()
    ensures steady { EffectsAreOfCalls }
    ensures schedules { EffectsAreOfCallsInSchedules }
{}

/// The effect of an open call on the abstract mutex matches the call and names its seat: a `lock` asks for its seat, a
/// `try_lock` asks or accepts a post for it, an `unlock` or `start_wait` releases, and a `receive` takes up its grant. A
/// `send_lock` asks for its target.
///
/// Definitions: `EffectsAreTheCallers` in `specs/laws/Effects.antt`, and `EffectsAreTheCallersInSchedules` in
/// `specs/laws/InSchedules.antt`. Proofs: `proofs/lawful/calls/EffectsOwned.antt` and `proofs/lawful/runs/InSchedules.antt`.
pub fn effects_are_the_callers()
    ensures steady { EffectsAreTheCallers }
    ensures schedules { EffectsAreTheCallersInSchedules }
{}

/// A call that is open after a schedule began in it and has been open since. So the laws above, which follow a call from its
/// start, cover every open call.
///
/// Definition: `OpenCallsHaveBegun` in `specs/laws/Effects.antt`. Proof: `proofs/lawful/calls/OpenCalls.antt`.
pub fn open_calls_have_begun()
    ensures { OpenCallsHaveBegun }
{}
