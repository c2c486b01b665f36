//! The numbers of faults, rules and statuses, and the names by which faults are printed.

use line_base::{LineFault, Reason, Rule, SetupFault, WordFault};
use std::test::Fail;

#[test]
fn faults_rules_and_reasons_have_their_numbers(rt: HostRuntime) {
    for (number, expected) in [
        (WordFault::Missing.number(), 1),
        (WordFault::NotBuilt.number(), 10),
        (LineFault::Order.number(), 9),
        // 10 isn't used again.
        (LineFault::Version.number(), 11),
        (SetupFault::Tick.number(), 1),
        (SetupFault::Lines.number(), 14),
        (Rule::NoCalibration.number(), 1),
        (Rule::Psi5Check.number(), 20),
        (Rule::StartPattern.number(), 28),
        (Reason::OutOfMemory.status(), 6),
    ] {
        assert!(rt; number == expected, "{number} and {expected}");
    }
}

#[test]
fn faults_are_printed_by_their_names(rt: HostRuntime) -> Result<(), Fail> {
    let word = WordFault::NotBuilt.to_string(rt.alloc())?;
    let line = LineFault::InputTooLong.to_string(rt.alloc())?;
    assert!(rt; word.as_str() == "NotBuilt" && line.as_str() == "InputTooLong");
    Ok(())
}
