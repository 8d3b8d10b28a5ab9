//! Texts that are read and written.
use crate::{InfoFault, print_info, read_info};
use std::alloc::Global;
use std::process::Abort;
use std::test::Fail;
use stripe_layout::{Geometry, Info};
use world_model::types::Ratio;

// The text of a data file of 56 bytes in blocks of 16 and of 8, in 10 and 4 shards.
const TEXT: &str = r#"{"datSize":56,"large":16,"small":8,"version":3}"#;

// The same in 3 and 2 shards.
const THREE_TWO: &str = r#"{"datSize":56,"large":16,"ratio":"3+2","small":8,"version":3}"#;

fn info(ratio: Ratio) -> Info {
    Info {
        dat_size: 56,
        geometry: Geometry {
            ratio,
            large: 16,
            small: 8,
        },
    }
}

#[test]
fn what_is_printed_is_read(rt: HostRuntime) -> Result<(), Fail> {
    let alloc = rt.alloc();
    for (ratio, text) in [(Ratio::TenFour, TEXT), (Ratio::ThreeTwo, THREE_TWO)] {
        let info = info(ratio);
        assert_eq!(rt; print_info(alloc, &info)?.as_slice(), text.as_bytes());
        assert_eq!(rt; read_info(alloc, text.as_bytes()), Ok(info));
    }
    assert_eq!(rt; TEXT.len(), 47);
    assert_eq!(rt; THREE_TWO.len(), 61);
    Ok(())
}

#[test]
fn other_spellings_say_the_same(rt: HostRuntime) {
    let texts = [
        r#"{"datSize":56,"large":16,"ratio":"10+4","small":8,"version":3}"#,
        r#" { "version" : 3 , "small" : 8 , "large" : 16 , "datSize" : 56 , "more" : [1e3, {}] } "#,
        r#"{"datSize":"no","large":16,"small":8,"version":3,"dat\u0053ize":56}"#,
    ];
    for text in texts {
        let read = read_info(rt.alloc(), text.as_bytes());
        assert_eq!(rt; read, Ok(info(Ratio::TenFour)), "{text}");
    }
}

#[test]
fn each_fault_is_told_in_its_turn(rt: HostRuntime) {
    let cases = [
        ("", InfoFault::NotJson),
        ("{", InfoFault::NotJson),
        (
            r#"{"datSize":056,"large":16,"small":8,"version":3}"#,
            InfoFault::NotJson,
        ),
        ("{}", InfoFault::Field),
        ("[]", InfoFault::Field),
        (
            r#"{"datSize":56,"large":16,"small":8,"version":3.0}"#,
            InfoFault::Field,
        ),
        (
            r#"{"datSize":56,"large":16,"small":8,"version":3e0}"#,
            InfoFault::Field,
        ),
        (
            r#"{"datSize":56,"large":16,"small":-0,"version":3}"#,
            InfoFault::Field,
        ),
        (
            r#"{"datSize":18446744073709551616,"large":16,"small":8,"version":3}"#,
            InfoFault::Field,
        ),
        (
            r#"{"datSize":7,"large":16,"ratio":3,"small":8,"version":3}"#,
            InfoFault::Field,
        ),
        (
            r#"{"datSize":56,"large":16,"ratio":null,"small":8,"version":3}"#,
            InfoFault::Field,
        ),
        (
            r#"{"datSize":56,"large":16,"ratio":"5+2","small":8,"version":3}"#,
            InfoFault::Range,
        ),
        (
            r#"{"datSize":56,"large":16,"small":8,"version":2}"#,
            InfoFault::Range,
        ),
        (
            r#"{"datSize":7,"large":16,"small":8,"version":3}"#,
            InfoFault::Range,
        ),
        (
            r#"{"datSize":34359738369,"large":16,"small":8,"version":3}"#,
            InfoFault::Range,
        ),
        (
            r#"{"datSize":56,"large":1073741825,"small":1,"version":3}"#,
            InfoFault::Range,
        ),
        (
            r#"{"datSize":56,"large":16,"small":12,"version":3}"#,
            InfoFault::Range,
        ),
        (
            r#"{"datSize":56,"large":16,"small":0,"version":3}"#,
            InfoFault::Range,
        ),
    ];
    for (text, fault) in cases {
        let read = read_info(rt.alloc(), text.as_bytes());
        assert_eq!(rt; read, Err(fault), "{text}");
    }
}

// Reads a text of which a member has so many arrays within each other.
fn read_nested(alloc: Global, arrays: usize) -> Result<Result<Info, InfoFault>, Fail> {
    let mut text = Vec::from_slice(alloc, br#"{"a":"#)?;
    for _ in 0..arrays {
        text.push(b'[')?;
    }
    for _ in 0..arrays {
        text.push(b']')?;
    }
    text.extend_from_slice(br#","datSize":56,"large":16,"small":8,"version":3}"#)?;
    Ok(read_info(alloc, &text))
}

#[test]
fn a_text_may_nest_to_127(rt: HostRuntime) -> Result<(), Fail> {
    let read = read_nested(rt.alloc(), 126)?;
    assert_eq!(rt; read, Ok(info(Ratio::TenFour)));
    let refused = read_nested(rt.alloc(), 127)?;
    assert_eq!(rt; refused, Err(InfoFault::NotJson));
    Ok(())
}
