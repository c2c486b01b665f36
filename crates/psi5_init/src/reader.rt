//! The reader of an initialisation phase.
ghost use Rattle.std.specs.Prelude.{◌≡◌, ◌+◌, ◌<◌, ◌≤◌, ◌^◌, ◌++◌, [], ◌∷◌, List, length, ℕ};
ghost use Rattle.psi5_init.specs.Standings as standings;
ghost use Rattle.psi5_init.specs.Readings.{init_reading};
ghost use Rattle.psi5_init.specs.Kept.{IsState, block_of, blocks_in, standing_of};

use crate::code::Code;
use crate::step::InitStep;
use line_base::Rule;
use std::marker::Model;

/// A block that is being read.
#[derive(Clone, Copy, Debug, PartialEq, Eq)]
pub struct OpenBlock {
    /// Its ID, 1 to 16.
    id: u8,
    /// Whether its beginning wasn't seen.
    loose: bool,
    /// How many whole pairs of its ID and its value were seen.
    pairs: u8,
    /// The value of these pairs, where there are some.
    value: u8,
    /// How many blocks were told in the phase.
    blocks: u64,
}

/// Where a reader stands between two codes.
#[derive(Clone, Copy, Debug, PartialEq, Eq)]
pub enum State {
    /// No code yet that tells where a phase stands.
    Fresh,
    /// Outside a phase.
    Idle,
    /// In a block whose value comes next.
    AwaitsValue(OpenBlock),
    /// In a block, where an ID comes next.
    AwaitsId(OpenBlock),
}

/// In the block of this ID, none of whose pairs was seen.
fn begun(id: u8, loose: bool, blocks: u64) -> State
    ensures standing { standing_of result ≡ standings.begun id loose blocks }
    ensures valid { (repeats : ℕ) → 1 ≤ repeats → IsState repeats result }
    ensures blocks { blocks_in result ≡ blocks }
{
    State::AwaitsValue(OpenBlock {
        id,
        loose,
        pairs: 0,
        value: 0,
        blocks,
    })
}

/// Where a code leads that is the first to tell something.
fn after_fresh(code: Code) -> State
    ensures standing { standing_of result ≡ standings.after_fresh code }
    ensures valid { (repeats : ℕ) → 1 ≤ repeats → IsState repeats result }
    ensures blocks { blocks_in result ≡ 0 }
{
    match code {
        Code::Value(_) => State::Fresh,
        Code::Block(id) => begun(id, true, 0),
        Code::Signal(_) | Code::Ready | Code::Busy | Code::Defect | Code::Reserved(_) =>
            State::Idle,
    }
}

/// A rule is violated, and the same code is read as the first to tell something.
fn again(rule: Rule, code: Code) -> (State, InitStep)
    ensures led { record { step = result.1; next = standing_of result.0 } ≡ standings.again rule code }
    ensures valid { (repeats : ℕ) → 1 ≤ repeats → IsState repeats result.0 }
    ensures blocks { blocks_in result.0 ≡ 0 }
{
    (after_fresh(code), InitStep::Bad(rule))
}

/// Where a code leads outside a phase.
fn after_idle(code: Code) -> (State, InitStep)
    ensures led { record { step = result.1; next = standing_of result.0 } ≡ standings.after_idle code }
    ensures valid { (repeats : ℕ) → 1 ≤ repeats → IsState repeats result.0 }
    ensures blocks { blocks_in result.0 ≡ 0 }
{
    match code {
        Code::Block(1) => (begun(1, false, 0), InitStep::Nothing),
        Code::Block(_) | Code::Value(_) => again(Rule::InitOrder, code),
        Code::Signal(_) | Code::Ready | Code::Busy | Code::Defect | Code::Reserved(_) => {
            (State::Idle, InitStep::Nothing)
        }
    }
}

/// Where a code leads in a block whose value comes next.
fn after_id(repeats: u8, block: OpenBlock, code: Code) -> (State, InitStep)
    requires few { repeats ≤ 16 }
    requires pairs { block.pairs < repeats }
    requires blocks { block.blocks < 2 ^ 61 }
    ensures led { record { step = result.1; next = standing_of result.0 } ≡ standings.after_id repeats (block_of block) code }
    ensures valid { IsState repeats result.0 }
    ensures blocks { blocks_in result.0 ≤ block.blocks + 1 }
{
    let Code::Value(value) = code else {
        return again(Rule::InitOrder, code);
    };
    if block.pairs != 0 && value != block.value {
        return again(Rule::InitRepeat, code);
    }
    let mut next = block;
    next.value = value;
    next.pairs += 1;
    if next.pairs != repeats {
        return (State::AwaitsId(next), InitStep::Nothing);
    }
    next.blocks += 1;
    let id = next.id;
    (State::AwaitsId(next), InitStep::Block { id, value })
}

/// The ID after this one: 16 is followed by 1.
fn next_id(id: u8) -> u8
    ensures { result ≡ standings.next_id id }
{
    id % 16 + 1
}

/// Where a code leads in a block, where an ID comes next.
fn after_value(repeats: u8, block: OpenBlock, code: Code) -> (State, InitStep)
    requires some { 1 ≤ repeats }
    requires pairs { block.pairs ≤ repeats }
    ensures led { record { step = result.1; next = standing_of result.0 } ≡ standings.after_value repeats (block_of block) code }
    ensures valid { IsState repeats result.0 }
    ensures blocks { blocks_in result.0 ≤ block.blocks }
{
    let may_end = block.pairs == repeats || block.loose;
    match code {
        Code::Block(id) => {
            if id == block.id {
                if block.pairs < repeats {
                    return (State::AwaitsValue(block), InitStep::Nothing);
                }
                return again(Rule::InitRepeat, code);
            }
            if id != next_id(block.id) {
                return again(Rule::InitOrder, code);
            }
            if may_end {
                return (begun(id, false, block.blocks), InitStep::Nothing);
            }
            again(Rule::InitRepeat, code)
        }
        Code::Ready => {
            if may_end {
                let blocks = block.blocks;
                return (State::Idle, InitStep::Done { blocks });
            }
            again(Rule::InitRepeat, code)
        }
        _ => again(Rule::InitOrder, code),
    }
}

/// Where a code leads, and what it ends.
#[tactic(auto, unfolding(crate::specs::Standings::led_by))]
fn after_code(repeats: u8, state: State, code: Code) -> (State, InitStep)
    requires some { 1 ≤ repeats }
    requires few { repeats ≤ 16 }
    requires valid { IsState repeats state }
    requires blocks { blocks_in state < 2 ^ 61 }
    ensures led { record { step = result.1; next = standing_of result.0 } ≡ standings.led_by repeats (standing_of state) code }
    ensures valid { IsState repeats result.0 }
    ensures blocks { blocks_in result.0 ≤ blocks_in state + 1 }
{
    match state {
        State::Fresh => (after_fresh(code), InitStep::Nothing),
        State::Idle => after_idle(code),
        State::AwaitsValue(block) => after_id(repeats, block, code),
        State::AwaitsId(block) => after_value(repeats, block, code),
    }
}

/// Reads the blocks of an initialisation phase from codes, one at a time. Contracts see how often a block is
/// sent and where the reader stands, and say by `StandsFor` which list of codes it stands for. After a fault
/// it stands where the reading goes on.
#[derive(Clone, Copy, Debug, PartialEq, Eq)]
pub struct InitReader {
    repeats: u8,
    state: State,
}

impl Model for InitReader {
    ghost use Rattle.std.specs.Prelude.{ℕ};
    ghost use Rattle.psi5_init.specs.declared.reader.State.{State};
    ghost use Rattle.psi5_init.specs.Kept.{IsKept};

    ghost Value = { ℕ × State };

    ghost view = { λ r. (r.repeats, r.state) };

    ghost invariant = { λ r. IsKept r.repeats r.state };

    ghost inverse = { λ v. record { repeats = v.0; state = v.1 } };
}

impl InitReader {
    ghost use Rattle.psi5_init.specs.Readers.{StandsFor};

    /// A reader of phases that send each block `repeats` times, 1 to 16, which has seen no code.
    pub fn new(repeats: u8) -> InitReader
        requires some { 1 ≤ repeats }
        requires few { repeats ≤ 16 }
        ensures { StandsFor repeats result [] }
    {
        InitReader {
            repeats,
            state: State::Fresh,
        }
    }

    /// Takes the next code, before which fewer than 2^60 were taken since the reader was new or reset, and
    /// answers what it ends.
    pub fn push(&mut self, code: Code) -> InitStep
        requires { (repeats : ℕ) × (seen : List Code) × StandsFor repeats self.old seen × (length seen < 2 ^ 60) }
        ensures stands { (repeats : ℕ) (seen : List Code) → StandsFor repeats self.old seen → StandsFor repeats self.new (seen ++ code ∷ []) }
        ensures grows { (repeats : ℕ) (seen : List Code) → StandsFor repeats self.old seen → init_reading repeats (seen ++ code ∷ []) ≡ init_reading repeats seen ++ result ∷ [] }
    {
        let (state, step) = after_code(self.repeats, self.state, code);
        self.state = state;
        step
    }

    /// Forgets all codes: the phase may be at any place.
    pub fn reset(&mut self)
        ensures { (repeats : ℕ) (seen : List Code) → StandsFor repeats self.old seen → StandsFor repeats self.new [] }
    {
        self.state = State::Fresh;
    }
}
