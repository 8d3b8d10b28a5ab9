//! What the program says at its end.
use crate::ending::Ending;
use std::test::Fail;
use weed_shell::Status;

#[test]
fn each_ending_has_its_number_and_its_line(rt: HostRuntime) -> Result<(), Fail> {
    let endings = [
        (Ending::Ran(Status::Done), 0, "done"),
        (Ending::Ran(Status::Usage), 1, "usage"),
        (
            Ending::Ran(Status::Fault { server: 63 }),
            2,
            "fault of server 63",
        ),
        (Ending::Ran(Status::Memory), 3, "memory"),
        (
            Ending::Ran(Status::Unsound { volume: 7, rule: 4 }),
            4,
            "volume 7 breaks rule 4",
        ),
        (Ending::Ran(Status::SourceFault), 5, "input fault"),
        (Ending::Ran(Status::SayFault), 6, "output fault"),
        (Ending::Ran(Status::TooMuch), 7, "input too long"),
        (Ending::NoSite, 8, "no site"),
    ];
    for (ending, number, line) in &endings {
        assert_eq!(rt; ending.number(), *number);
        let said = format!(in rt.alloc(); "{ending}")?;
        assert_eq!(rt; said.as_str(), *line);
    }
    Ok(())
}
