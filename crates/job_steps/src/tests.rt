//! Steps of a job, over the smallest plan.
use crate::{Countdown, Engine, Halt, Slot, Work};
use job_board::Board;
use site_mem::MemSite;
use std::collections::BTreeMap;
use std::test::Fail;

#[test]
fn a_job_goes_on_by_the_steps_given_until_it_ends(rt: HostRuntime) -> Result<(), Fail> {
    let mut site = MemSite::new(rt.alloc(), 1)?;
    let mut slots = BTreeMap::new(rt.alloc());
    slots.insert(7, Slot::Coded)?;
    let mut board = Board::new(rt.alloc());
    let job = board.start(
        7,
        Work {
            plan: Countdown { left: 3 },
            after: Slot::Plain,
        },
    )?;
    let mut engine = Engine { slots, board };
    assert_eq!(rt; engine.step(&mut site, job, 2), Ok(false));
    assert_eq!(rt; engine.slots.get(&7), Some(&Slot::Coded));
    assert_eq!(rt; engine.board.first(), Some(job));
    assert_eq!(rt; engine.step(&mut site, job, 2), Ok(true));
    assert_eq!(rt; engine.slots.get(&7), Some(&Slot::Plain));
    assert_eq!(rt; engine.board.first(), None);
    assert_eq!(rt; engine.step(&mut site, job, 1), Err(Halt::NoJob));
    Ok(())
}
