//! What is read of the serial messages that a sensor sends.
ghost use Rattle.std.specs.Prelude.{◌≡◌, [], List, ℕ, drop, take};
ghost use Rattle.sent_serial.specs.Short.{short_reading};
ghost use Rattle.sent_serial.specs.Enhanced.{enhanced_reading};
ghost use Rattle.sent_serial.specs.Sendings.{FitsFrom, IsEnhanced, IsShort, Sending, messages_told, sent_statuses, statuses_in};

/// Does nothing; its contract is a law. Wherever a list of statuses begins and ends among those that a
/// sensor sends of short messages, with other frames between them, exactly those messages are read of it
/// whose sixteen frames it has, and no rule is violated.
pub fn short_messages_are_read()
    ensures { (sendings : List Sending) (cut count : ℕ) → FitsFrom IsShort [] sendings
        → short_reading (statuses_in (take count (drop cut (sent_statuses sendings)))) ≡ messages_told 0 (take count (drop cut (sent_statuses sendings))) }
{}

/// Does nothing; its contract is a law. Wherever a list of statuses begins and ends among those that a
/// sensor sends of enhanced messages, with other frames between them, exactly those messages are read of it
/// whose eighteen frames it has, and no rule is violated.
pub fn enhanced_messages_are_read()
    ensures { (sendings : List Sending) (cut count : ℕ) → FitsFrom IsEnhanced [] sendings
        → enhanced_reading (statuses_in (take count (drop cut (sent_statuses sendings)))) ≡ messages_told 0 (take count (drop cut (sent_statuses sendings))) }
{}
