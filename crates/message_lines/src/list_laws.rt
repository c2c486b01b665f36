//! What holds of all message lines, over the definitions of their answers.
ghost use Rattle.std.specs.Prelude.{◌≡◌, ℕ, Some, Ok, true, List, ◌++◌, All};
ghost use Rattle.line_base.specs.Streams.{IsFrontOf};
ghost use Rattle.line_base.specs.declared.faults.LineFault.{LineFault};
ghost use Rattle.receiver_core.specs.declared.message.Message.{Message};
ghost use Rattle.receiver_core.specs.declared.setup.ChannelSetup.{ChannelSetup};
ghost use Rattle.message_lines.specs.Inputs.{FitsIn, fault_of, answers_of, whole_answers_of};
ghost use Rattle.message_lines.specs.Lines.{message_in, message_text};
ghost use Rattle.message_lines.specs.Messages.{HasNibbles, IsMade, message_fits};

/// Does nothing; its contract is a law. The line that is written of a message that fits a channel is read as that
/// message.
pub fn written_messages_are_read_back()
    ensures { (setup : ChannelSetup) (message : Message) → IsMade setup → HasNibbles message → message_fits setup message ≡ true → message_in setup (message_text message) ≡ Ok message }
{}

/// Does nothing; its contract is a law. What was answered stands when more bytes come and when the input ends.
pub fn answers_grow()
    ensures when_more_come { (setup : ChannelSetup) (bytes more : List ℕ) → IsFrontOf (answers_of setup bytes) (answers_of setup (bytes ++ more)) }
    ensures at_the_end { (setup : ChannelSetup) (bytes : List ℕ) → IsFrontOf (answers_of setup bytes) (whole_answers_of setup bytes) }
{}

/// Does nothing; its contract is a law. Behind a fault nothing more is answered, whatever follows, and the fault
/// stays the same.
pub fn faults_stay()
    ensures answers { (setup : ChannelSetup) (bytes more : List ℕ) (number : ℕ) (fault : LineFault) → fault_of setup bytes ≡ Some (number, fault) → answers_of setup (bytes ++ more) ≡ answers_of setup bytes }
    ensures fault { (setup : ChannelSetup) (bytes more : List ℕ) (number : ℕ) (fault : LineFault) → fault_of setup bytes ≡ Some (number, fault) → fault_of setup (bytes ++ more) ≡ Some (number, fault) }
{}

/// Does nothing; its contract is a law. Each message that is answered fits the channel: so far, and of a whole
/// input.
pub fn answered_messages_fit()
    ensures so_far { (setup : ChannelSetup) (bytes : List ℕ) → All (FitsIn setup) (answers_of setup bytes) }
    ensures whole { (setup : ChannelSetup) (bytes : List ℕ) → All (FitsIn setup) (whole_answers_of setup bytes) }
{}
