//! Rows that are counted from a journal.
ghost use Rattle.lfm_model.specs.Journals.{entry};
ghost use Rattle.std.specs.Prelude.{◌≡◌};

use lfm_model::{Entry, How, Refusal, SeatNo, TotalOp, What};
use lfm_script::{Row, rows_of};
use std::test::Fail;

/// An op of this seat.
fn did(seat: SeatNo, op: TotalOp) -> Entry<TotalOp>
    ensures { result ≡ entry seat (What.Did op) }
{
    Entry {
        seat,
        what: What::Did(op),
    }
}

/// The row of each of three workers, of which the second was refused.
fn wanted_rows() -> [Row; 3] {
    [
        Row {
            worker: 1,
            count: 1,
            sum: 0,
            refused: None,
        },
        Row {
            worker: 2,
            count: 2,
            sum: 12,
            refused: Some(Refusal::Spent),
        },
        Row {
            worker: 3,
            count: 0,
            sum: 0,
            refused: None,
        },
    ]
}

#[test]
fn adds_are_counted(rt: HostRuntime) -> Result<(), Fail> {
    let first = SeatNo::known(1);
    let second = SeatNo::known(2);
    let took = Entry {
        seat: second,
        what: What::Took(How::Free),
    };
    let entries = [
        took,
        did(second, TotalOp::Add(5)),
        did(first, TotalOp::Read),
        did(first, TotalOp::Add(0)),
        did(second, TotalOp::Add(7)),
    ];
    let refusals = [None, Some(Refusal::Spent), None];
    let rows = rows_of(rt.alloc(), &refusals, &entries)?;
    assert_eq!(rt; rows.as_slice(), wanted_rows().as_slice());
    Ok(())
}
