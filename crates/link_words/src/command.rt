//! The commands, and the words that they take.
ghost use Rattle.std.specs.Prelude.{◌≡◌, ◌≤◌, ◌<◌, None, IfOk, All, length, map, string_bytes};
ghost use Rattle.receiver_core.specs.Setups.{setup_fault_of};
ghost use Rattle.link_words.specs.Commands.{CountsFew, command_fault, count_at, spec_at, last_spec_at, loop_behind, loop_read, seed_at, setups_read, simulation_read, words_read, setups_of_command};

use crate::seed::seed_of;
use crate::setups::{MAX_CHANNELS, Setups};
use crate::spans::number_in;
use crate::spec::read_spec;
use crate::value::spells;
use line_base::WordFault;
use receiver_core::ChannelSetup;
use std::slice;

/// How many messages a loop counts at most.
const MAX_COUNT: u32 = 100_000;

/// What the words ask for.
#[derive(Clone, Copy, Debug, PartialEq, Eq)]
pub enum Command {
    /// Decode these channels, and write a line for each report and a total line for each channel.
    Decode(Setups),
    /// Decode these channels, and write a total line for each channel.
    Check(Setups),
    /// Simulate the sensor of one channel, and write the edges of the messages that it is told to send.
    Simulate {
        /// What its wobble is made from.
        seed: u64,
        /// The channel.
        setup: ChannelSetup,
    },
    /// Simulate and decode the messages of a script, and write a line of what came of them.
    Loop {
        /// What the wobble is made from; the script's is one more.
        seed: u64,
        /// How many frames, answers, bursts or downlink frames are sent, 0 to 100,000.
        count: u64,
        /// The channel.
        setup: ChannelSetup,
    },
}

/// The first word that is refused.
#[derive(Clone, Copy, Debug, PartialEq, Eq)]
pub struct WordsFault {
    /// Its number, from 1.
    pub place: u64,
    /// Why it is refused.
    pub fault: WordFault,
}

/// What the words ask for, or the first word that is refused: `Missing` for a word that isn't there;
/// `Command` for a first word that is no command, and `NotBuilt` for a command that isn't built yet; `Value` for a
/// seed that is no number from 0 to 2^64 - 1, and for a count that is none from 0 to 100,000; the first fault of a
/// SPEC; `Channels` for the seventeenth SPEC of `decode` and `check`, and `Extra` for a word behind the one SPEC of
/// `simulate` and `loop`.
#[tactic(auto, unfolding(crate::specs::Commands::words_read))]
pub fn read_words(words: &[String]) -> Result<Command, WordsFault>
    ensures value { result ≡ words_read (map string_bytes words.now) }
    ensures faultless { IfOk result (λ command. All (λ setup. setup_fault_of setup ≡ None) (setups_of_command command)) }
    ensures some { IfOk result (λ command. 1 ≤ length (setups_of_command command)) }
    ensures few { IfOk result (λ command. length (setups_of_command command) ≤ 16) }
    ensures count { IfOk result (λ command. CountsFew command) }
{
    let Some((command, words)) = words.split_first() else {
        return Err(WordsFault {
            place: 1,
            fault: WordFault::Missing,
        });
    };
    if spells(command.as_bytes(), b"decode") {
        return Ok(Command::Decode(read_setups(words)?));
    }
    if spells(command.as_bytes(), b"check") {
        return Ok(Command::Check(read_setups(words)?));
    }
    if spells(command.as_bytes(), b"simulate") {
        return read_simulation(words);
    }
    if spells(command.as_bytes(), b"loop") {
        return read_loop(words);
    }
    Err(WordsFault {
        place: 1,
        fault: fault_of_command(command.as_bytes()),
    })
}

/// The fault of a first word that is no command which is built.
#[tactic(auto, unfolding(crate::specs::Commands::command_fault))]
fn fault_of_command(command: &[u8]) -> WordFault
    ensures { result ≡ command_fault command.now }
{
    if spells(command, b"capture") {
        WordFault::NotBuilt
    } else {
        WordFault::Command
    }
}

/// The setup that a word names, or that the word is refused.
fn read_setup(place: u64, spec: &[u8]) -> Result<ChannelSetup, WordsFault>
    ensures value { result ≡ spec_at place spec.now }
    ensures faultless { IfOk result (λ setup. setup_fault_of setup ≡ None) }
{
    match read_spec(spec) {
        Ok(setup) => Ok(setup),
        Err(fault) => Err(WordsFault { place, fault }),
    }
}

/// The seed that a word writes, or that the word is refused.
fn read_seed(place: u64, text: &[u8]) -> Result<u64, WordsFault>
    ensures { result ≡ seed_at place text.now }
{
    seed_of(text).ok_or(WordsFault {
        place,
        fault: WordFault::Value,
    })
}

/// The setup that the word of this number, below 10, names, where it is the first of these and the only one; or
/// the first word of these that is refused.
#[tactic(auto, unfolding(crate::specs::Commands::last_spec_at))]
fn read_last_spec(place: u64, words: &[String]) -> Result<ChannelSetup, WordsFault>
    requires { place < 10 }
    ensures value { result ≡ last_spec_at place (map string_bytes words.now) }
    ensures faultless { IfOk result (λ setup. setup_fault_of setup ≡ None) }
{
    let Some((spec, others)) = words.split_first() else {
        return Err(WordsFault {
            place,
            fault: WordFault::Missing,
        });
    };
    let setup = read_setup(place, spec.as_bytes())?;
    if others.is_empty() {
        Ok(setup)
    } else {
        Err(WordsFault {
            place: place + 1,
            fault: WordFault::Extra,
        })
    }
}

/// The simulation that the words behind the command ask for, or the first word that is refused.
#[tactic(auto, unfolding(crate::specs::Commands::simulation_read))]
fn read_simulation(words: &[String]) -> Result<Command, WordsFault>
    ensures value { result ≡ simulation_read (map string_bytes words.now) }
    ensures faultless { IfOk result (λ command. All (λ setup. setup_fault_of setup ≡ None) (setups_of_command command)) }
    ensures one { IfOk result (λ command. length (setups_of_command command) ≡ 1) }
    ensures count { IfOk result (λ command. CountsFew command) }
{
    let Some((seed, words)) = words.split_first() else {
        return Err(WordsFault {
            place: 2,
            fault: WordFault::Missing,
        });
    };
    let seed = read_seed(2, seed.as_bytes())?;
    let setup = read_last_spec(3, words)?;
    Ok(Command::Simulate { seed, setup })
}

/// The count that a word writes, or that the word is refused.
fn read_count(place: u64, text: &[u8]) -> Result<u64, WordsFault>
    ensures value { result ≡ count_at place text.now }
    ensures few { IfOk result (λ count. count ≤ 100000) }
{
    match number_in(0, MAX_COUNT, text) {
        Some(count) => Ok(u64::from(count)),
        None => Err(WordsFault {
            place,
            fault: WordFault::Value,
        }),
    }
}

/// The loop by this seed that the words behind it ask for, or the first word that is refused.
#[tactic(auto, unfolding(crate::specs::Commands::loop_behind))]
fn read_loop_behind(seed: u64, words: &[String]) -> Result<Command, WordsFault>
    ensures value { result ≡ loop_behind seed (map string_bytes words.now) }
    ensures faultless { IfOk result (λ command. All (λ setup. setup_fault_of setup ≡ None) (setups_of_command command)) }
    ensures one { IfOk result (λ command. length (setups_of_command command) ≡ 1) }
    ensures count { IfOk result (λ command. CountsFew command) }
{
    let Some((count, words)) = words.split_first() else {
        return Err(WordsFault {
            place: 3,
            fault: WordFault::Missing,
        });
    };
    let count = read_count(3, count.as_bytes())?;
    let setup = read_last_spec(4, words)?;
    Ok(Command::Loop { seed, count, setup })
}

/// The loop that the words behind the command ask for, or the first word that is refused.
#[tactic(auto, unfolding(crate::specs::Commands::loop_read))]
fn read_loop(words: &[String]) -> Result<Command, WordsFault>
    ensures value { result ≡ loop_read (map string_bytes words.now) }
    ensures faultless { IfOk result (λ command. All (λ setup. setup_fault_of setup ≡ None) (setups_of_command command)) }
    ensures one { IfOk result (λ command. length (setups_of_command command) ≡ 1) }
    ensures count { IfOk result (λ command. CountsFew command) }
{
    let Some((seed, words)) = words.split_first() else {
        return Err(WordsFault {
            place: 2,
            fault: WordFault::Missing,
        });
    };
    read_loop_behind(read_seed(2, seed.as_bytes())?, words)
}

/// The setups that the words behind the command name, or the first word that is refused.
fn read_setups(words: &[String]) -> Result<Setups, WordsFault>
    ensures value { result ≡ setups_read (map string_bytes words.now) }
    ensures faultless { IfOk result (λ setups. All (λ setup. setup_fault_of setup ≡ None) setups) }
    ensures some { IfOk result (λ setups. 1 ≤ length setups) }
    ensures few { IfOk result (λ setups. length setups ≤ 16) }
{
    let Some((first, others)) = words.split_first() else {
        return Err(WordsFault {
            place: 2,
            fault: WordFault::Missing,
        });
    };
    let mut setups = Setups::new(read_setup(2, first.as_bytes())?);
    let mut rest = others;
    'specs: while let Some((spec, others)) = rest.split_first() {
        let count = setups.list().len();
        let place = count as u64 + 2;
        if count == MAX_CHANNELS {
            return Err(WordsFault {
                place,
                fault: WordFault::Channels,
            });
        }
        setups.push(read_setup(place, spec.as_bytes())?);
        rest = others;
    }
    Ok(setups)
}
