//! The first run, stopped within each of its calls.
use crate::{run_from_nothing, stop_in};
use site_mem::{FixedClock, MemSite, MemSource, Tear};
use std::test::Fail;
use weed_shell::{Status, weed};

const LINES: &[u8] =
    b"volume.create -volumeId=7 -server=0\nput 7 1 0000002a 313233343536373839\nget 7 1 0000002a\n";

const TWO_ANSWERS: &[u8] = b"ready\nOK\nOK\n";

const QUESTION: &[u8] = b"get 7 1 0000002a\n";

const FOUND: &[u8] = b"ready\nOK 313233343536373839\n";

#[test]
fn the_needle_is_found_behind_each_stop_after_its_answer(rt: HostRuntime) -> Result<(), Fail> {
    let alloc = rt.alloc();
    let words: Vec<String> = Vec::new(alloc);
    let mut clock = FixedClock { now: 0 };
    let mut site = MemSite::new(alloc, 1)?;
    let mut source = MemSource::new(alloc, LINES)?;
    let status = run_from_nothing(alloc, &words, &mut source, &mut site, &mut clock);
    assert_eq!(rt; status, Status::Done);
    let mut is_found = false;
    for call in 1..=site.calls() {
        let left = stop_in(alloc, &site, call, Tear::Half)?;
        let Some(mut left) = left else {
            continue;
        };
        if !left.said().starts_with(TWO_ANSWERS) {
            continue;
        }
        let mut question = MemSource::new(alloc, QUESTION)?;
        let status = weed(alloc, &words, &mut question, &mut left, &mut clock);
        assert_eq!(rt; status, Status::Done);
        assert!(rt; left.said().ends_with(FOUND));
        is_found = true;
    }
    assert!(rt; is_found);
    let none = stop_in(alloc, &site, 0, Tear::All)?;
    assert!(rt; none.is_none());
    Ok(())
}
