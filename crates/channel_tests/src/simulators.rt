//! The words of the published generator, and the names of a simulator's faults.

use sim_base::{SimFault, Wobble};
use std::test::Fail;

/// The first 64 bits for the seed 0 are 18,195,738,587,432,868,099, low word first. A number above 2^32 changes no word.
#[test]
fn words_are_those_of_the_published_generator(rt: HostRuntime) {
    let mut wobble = Wobble::new(0);
    let mut other = Wobble::new(7);
    for (found, expected) in [
        (wobble.pick(1 << 32), 18_195_738_587_432_868_099 % (1 << 32)),
        (wobble.pick(1 << 32), 18_195_738_587_432_868_099 >> 32),
        (other.pick(1 << 33), 2_442_223_337),
    ] {
        assert!(rt; found == expected, "{found} and {expected}");
    }
}

#[test]
fn faults_have_numbers_and_are_printed_by_their_names(rt: HostRuntime) -> Result<(), Fail> {
    let name = SimFault::Kind.to_string(rt.alloc())?;
    assert!(rt; name.as_str() == "Kind" && SimFault::Late.number() == 4);
    Ok(())
}
