//! The laws of the mutex: those of `lfm_laws`, which are re-exported, and laws of the type `State` and of the lines of a
//! schedule. Each function here does nothing. Its contract is the law, and its comment names the definition of the law and the
//! file that proves it.

pub mod abstract_mutex;
pub mod schedules;
pub mod steadiness;

pub use abstract_mutex::{
    events_are_their_cases, every_state_is_lawful, runs_are_abstract_runs, states_are_lawful,
};
pub use lfm_laws::bounds::{
    calls_change_the_push_word_twice, calls_end_alone, calls_end_beside_others,
    calls_share_their_steps, no_state_is_stuck, pushes_alone_fail_once, some_call_ends,
    start_waits_are_bounded, tries_alone_hold, tries_and_receives_are_bounded, unlocks_are_bounded,
};
pub use lfm_laws::calls::{
    calls_end_in_their_kind, claimed_seats_are_pushed, depth_counts_holds,
    holders_took_their_record, receivers_loaded_their_grant, recursive_calls_load_the_owner,
    releases_answer_what_they_did, served_records_are_told, takes_change_by_charges,
    takes_count_charges, waits_answer_their_release,
};
pub use lfm_laws::effects::{
    calls_take_effect_once, changes_are_of_open_calls, effects_are_of_calls,
    effects_are_the_callers, open_calls_have_begun,
};
pub use lfm_laws::handoffs::{
    calls_grant_once, calls_post_once, failed_pushes_see_change, handoffs_are_watched,
    posts_with_records_are_tried, quiescent_states_rest, sleepers_are_reachable,
    takes_find_a_record, won_posts_have_a_record,
};
pub use lfm_laws::holding::queued_seats_hold_in_rounds;
pub use lfm_laws::mutual_exclusion::{
    count_is_zero_if_free, one_has_the_responsibility, one_seat_owns, places_are_read,
};
pub use lfm_laws::queue_order::{
    answers_are_the_records, counted_seats_are_pushed_in_rounds, no_seat_overtakes_twice,
    queue_is_in_push_order, queued_seats_are_overtaken_once,
    queued_seats_are_served_in_fair_rounds, queued_seats_are_served_in_rounds,
    queued_seats_are_served_soon, queued_seats_are_served_whatever_owners_begin,
    queued_seats_wait_for_few_releases, rounds_can_be_made, somebody_can_serve,
    stamps_are_consecutive, steps_serve,
};
pub use lfm_laws::ranges::{
    limits_stay, numbers_stay_in_range, steps_have_room, steps_have_room_in_limits,
};
pub use lfm_laws::refusals::{
    begins_are_refused_for_cause, busy_was_busy, refused_begins_change_nothing,
    steps_are_refused_for_cause, steps_outside_of_calls_change_nothing, tries_see_a_holder,
    turns_are_refused_for_cause,
};
pub use lfm_laws::{
    bounds, calls, effects, handoffs, holding, mutual_exclusion, queue_order, ranges, refusals,
};
pub use schedules::lines_are_events;
pub use steadiness::{
    begins_touch_one_seat, every_state_is_steady, states_are_steady, steps_at_a_table,
    steps_keep_steady, steps_touch_one_word_and_one_seat,
};
