//! The words and the pop list, by worked values.
ghost use Rattle.std.specs.Prelude.{◌≡◌, []};

use crate::seeing::{holds, sees};
use lfm_model::SeatNo;
use lfm_words::{PopList, Wake, pack_handoff, pack_link, unpack_handoff, unpack_link};
use std::process::Abort;
use std::test::Fail;

#[test]
fn packing(rt: HostRuntime) {
    sees(&rt, "a link", &pack_link(5, 3), &327_683);
    sees(&rt, "a handoff", &pack_handoff(3, 2), &131_075);
    sees(&rt, "quiet", &Wake::Quiet.to_word(), &0);
    sees(&rt, "waiting", &Wake::Waiting.to_word(), &1);
    sees(&rt, "claimed", &Wake::Claimed.to_word(), &2);
    sees(&rt, "a grant of 0", &Wake::Grant(0).to_word(), &3);
    sees(&rt, "a grant of 7", &Wake::Grant(7).to_word(), &31);
    sees(&rt, "the word 31", &Wake::from_word(31), &Wake::Grant(7));
    holds(&rt, "4 is no word", !Wake::is_word(4));
}

#[test]
fn packing_of_the_largest(rt: HostRuntime) {
    let largest = 18_446_744_073_709_551_615;
    sees(
        &rt,
        "the largest link",
        &pack_link(281_474_976_710_655, 65_535),
        &largest,
    );
    let link = unpack_link(18_446_744_073_709_551_615);
    sees(&rt, "its stamp", &link.stamp, &281_474_976_710_655);
    sees(&rt, "its next seat", &link.next, &65_535);
    let packed = pack_handoff(4_095, 68_719_476_736);
    sees(&rt, "the largest handoff", &packed, &4_503_599_627_374_591);
    let handoff = unpack_handoff(4_503_599_627_374_591);
    sees(&rt, "its seat", &handoff.seat, &4_095);
    sees(&rt, "its post", &handoff.post, &68_719_476_736);
}

/// The number of the seat that is made from this number.
fn number_of(number: u64) -> Option<u64> {
    let seat = SeatNo::new(number)?;
    Some(seat.get())
}

#[test]
fn seat_numbers(rt: HostRuntime) {
    sees(&rt, "no seat 0", &SeatNo::new(0), &None);
    sees(&rt, "no seat 65536", &SeatNo::new(65_536), &None);
    sees(&rt, "seat 1", &number_of(1), &Some(1));
    sees(&rt, "seat 65535", &number_of(65_535), &Some(65_535));
}

/// Adds two seats to an empty list, and takes both.
fn adds_and_takes<R: Abort>(rt: &R, list: &mut PopList)
    requires empty { list.old.records ≡ [] }
    requires room { list.old.room ≡ 3 }
{
    sees(rt, "nothing to take", &list.take_oldest(), &None);
    list.add_older(SeatNo::known(3), 6);
    list.add_older(SeatNo::known(2), 5);
    sees(rt, "two of them", &list.len(), &2);
    sees(rt, "the oldest", &list.get(0), &Some((SeatNo::known(2), 5)));
    sees(rt, "the next", &list.get(1), &Some((SeatNo::known(3), 6)));
    sees(rt, "no third", &list.get(2), &None);
    sees(
        rt,
        "the first taken",
        &list.take_oldest(),
        &Some((SeatNo::known(2), 5)),
    );
    sees(
        rt,
        "the second taken",
        &list.take_oldest(),
        &Some((SeatNo::known(3), 6)),
    );
    sees(rt, "nothing left to take", &list.take_oldest(), &None);
    holds(rt, "the list is empty", list.is_empty());
}

#[test]
fn a_pop_list(rt: HostRuntime) -> Result<(), Fail> {
    let mut list = PopList::new(rt.alloc(), 3)?;
    adds_and_takes(&rt, &mut list);
    Ok(())
}
