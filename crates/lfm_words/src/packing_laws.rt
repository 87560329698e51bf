//! Laws of the packing: unpacking returns what was packed, different values pack to different words, and the tests that do not
//! unpack a word agree with what was packed.
ghost use Rattle.std.specs.Prelude.{◌≡◌, ◌<◌, ℕ, IsTrue, true, false, not, nat_eq};
ghost use Rattle.lfm_words.specs.Words.{link_word, handoff_word, wake_word, is_wake_word, link_of, handoff_of, wake_of, is_posted_word, is_grant_word, grant_stamp, seat_field_size};
ghost use Rattle.lfm_words.specs.declared.links.Link.{Link};
ghost use Rattle.lfm_words.specs.declared.handoffs.Handoff.{Handoff};
ghost use Rattle.lfm_words.specs.declared.wakes.Wake.{Wake};
ghost use Rattle.lfm_words.specs.declared.wakes.Wake.TheVariants.{Quiet, Waiting, Claimed, Grant};

/// For a link in range, unpacking its word gives the link back: `unpack_link` reverses `pack_link`.
pub fn links_are_unpacked()
    ensures { (a : Link) → a.next < seat_field_size → link_of (link_word a) ≡ a }
{}

/// For a handoff number in range, unpacking its word gives the number back: `unpack_handoff` reverses `pack_handoff`.
pub fn handoffs_are_unpacked()
    ensures { (a : Handoff) → a.seat < seat_field_size → handoff_of (handoff_word a) ≡ a }
{}

/// For each wake state, unpacking its word gives the state back: `Wake::from_word` reverses `Wake::to_word`.
pub fn wakes_are_unpacked()
    ensures { (a : Wake) → wake_of (wake_word a) ≡ a }
{}

/// Links in range that pack to the same word are equal.
pub fn links_pack_differently()
    ensures { (a b : Link) → a.next < seat_field_size → b.next < seat_field_size → link_word a ≡ link_word b → a ≡ b }
{}

/// Handoff numbers in range that pack to the same word are equal.
pub fn handoffs_pack_differently()
    ensures { (a b : Handoff) → a.seat < seat_field_size → b.seat < seat_field_size → handoff_word a ≡ handoff_word b → a ≡ b }
{}

/// Wake states that pack to the same word are equal, and each packs to a word for which `Wake::is_word` is true.
pub fn wakes_pack_differently()
    ensures differ { (a b : Wake) → wake_word a ≡ wake_word b → a ≡ b }
    ensures coded { (a : Wake) → IsTrue (is_wake_word (wake_word a)) }
{}

/// `Handoff::is_posted_in` is true of the word of a handoff number in range exactly if that number names a seat.
pub fn posts_are_found()
    ensures { (a : Handoff) → a.seat < seat_field_size → is_posted_word (handoff_word a) ≡ not (nat_eq a.seat 0) }
{}

/// Among the words of wake states, `Wake::is_grant_word` is true exactly of those of grants, and `Wake::grant_stamp` returns
/// the stamp of the grant.
pub fn grants_are_found()
    ensures grants { (stamp : ℕ) → is_grant_word (wake_word (Grant stamp)) ≡ true }
    ensures stamps { (stamp : ℕ) → grant_stamp (wake_word (Grant stamp)) ≡ stamp }
    ensures others { (is_grant_word (wake_word Quiet) ≡ false) × (is_grant_word (wake_word Waiting) ≡ false) × (is_grant_word (wake_word Claimed) ≡ false) }
{}
