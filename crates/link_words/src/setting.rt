//! The keys of SPECs, and what the pairs of one SPEC have set so far.
ghost use Rattle.std.specs.Prelude.{◌≡◌, ◌<◌, List, [], ◌∷◌};
ghost use Rattle.link_words.specs.Settings.{place_of, value_at, count_at, time_at, answer_at, crc_at, layout_at, serial_at, span_at, spans_at, check_at, form_at, cover_at};

use crate::value::{Value, Values};
use line_base::{Span, Spans};
use psi5_downlink::Form;
use psi5_frame::Check;
use receiver_core::Serial;
use sent_fast::Layout;
use sent_frame::{Cover, CrcForm};

/// How many keys there are.
const KEYS: usize = 24;

/// What can be set of a channel.
#[derive(Clone, Copy)]
pub(crate) enum Key {
    /// The line.
    Line,
    /// The nominal tick.
    Tick,
    /// The jitter of an edge.
    Jitter,
    /// How many data nibbles a frame has.
    Nibbles,
    /// Whether a pause pulse follows each frame.
    Pause,
    /// The form of the CRC.
    Crc,
    /// The layout of the data nibbles.
    Layout,
    /// Which serial messages the status nibbles carry.
    Serial,
    /// How many bits a PSI5 line carries in a second.
    Rate,
    /// How many messaging bits a PSI5 frame has.
    Messaging,
    /// How many frame control bits it has.
    Control,
    /// How many status bits it has.
    Status,
    /// How many bits its data B has.
    DataB,
    /// How many bits its data A has.
    DataA,
    /// What it ends with.
    Check,
    /// The sync line.
    Sync,
    /// The windows of the slots behind a sync pulse.
    Slots,
    /// How often a block of an initialisation is sent.
    Init,
    /// What the CRC of an SPC answer covers.
    Cover,
    /// The windows of a trigger's width.
    Windows,
    /// The delay of an answer.
    Delay,
    /// The quiet time before a trigger.
    Quiet,
    /// The nominal sync period of a downlink.
    Period,
    /// The form of a downlink frame.
    Form,
}

/// A key of a kind of channel, and what its value may be.
#[derive(Clone, Copy)]
pub(crate) struct Row {
    /// The key.
    pub key: Key,
    /// What its value may be.
    pub values: Values,
}

/// A key with its value.
#[derive(Clone, Copy)]
pub(crate) struct Setting {
    /// The key.
    pub key: Key,
    /// Its value.
    pub value: Value,
}

/// The place at which the value of a key is kept.
#[tactic(auto, unfolding(crate::specs::Settings::place_of))]
fn place_of(key: Key) -> usize
    ensures value { result ≡ place_of key }
    ensures within { result < 24 }
{
    match key {
        Key::Line => 0,
        Key::Tick => 1,
        Key::Jitter => 2,
        Key::Nibbles => 3,
        Key::Pause => 4,
        Key::Crc => 5,
        Key::Layout => 6,
        Key::Serial => 7,
        Key::Rate => 8,
        Key::Messaging => 9,
        Key::Control => 10,
        Key::Status => 11,
        Key::DataB => 12,
        Key::DataA => 13,
        Key::Check => 14,
        Key::Sync => 15,
        Key::Slots => 16,
        Key::Init => 17,
        Key::Cover => 18,
        Key::Windows => 19,
        Key::Delay => 20,
        Key::Quiet => 21,
        Key::Period => 22,
        Key::Form => 23,
    }
}

/// What the pairs of a SPEC have set so far.
#[derive(Clone, Copy)]
pub(crate) struct Chosen {
    values: [Option<Value>; KEYS],
}

impl Chosen {
    ghost use Rattle.link_words.specs.declared.setting.Setting.{Setting};
    ghost use Rattle.link_words.specs.Choices.{Holds};

    /// Nothing is set.
    pub(crate) fn new() -> Chosen
        ensures { Holds result [] }
    {
        Chosen {
            values: [None; KEYS],
        }
    }

    /// The value that was set for the key.
    pub(crate) fn value(&self, key: Key) -> Option<Value>
        ensures { (settings : List Setting) → Holds self.now settings → result ≡ value_at key settings }
    {
        self.values[place_of(key)]
    }

    /// Takes one more setting.
    pub(crate) fn put(&mut self, setting: Setting)
        ensures { (settings : List Setting) → Holds self.old settings → Holds self.new (setting ∷ settings) }
    {
        self.values[place_of(setting.key)] = Some(setting.value);
    }

    /// The number that was set for the key.
    pub(crate) fn count(&self, key: Key) -> Option<u8>
        ensures { (settings : List Setting) → Holds self.now settings → result ≡ count_at key settings }
    {
        match self.value(key) {
            Some(Value::Count(count)) => Some(count),
            _ => None,
        }
    }

    /// The time that was set for the key, in its unit.
    pub(crate) fn time(&self, key: Key) -> Option<u32>
        ensures { (settings : List Setting) → Holds self.now settings → result ≡ time_at key settings }
    {
        match self.value(key) {
            Some(Value::Time(time)) => Some(time),
            _ => None,
        }
    }

    /// The answer that was set for the key.
    pub(crate) fn answer(&self, key: Key) -> Option<bool>
        ensures { (settings : List Setting) → Holds self.now settings → result ≡ answer_at key settings }
    {
        match self.value(key) {
            Some(Value::Answer(answer)) => Some(answer),
            _ => None,
        }
    }

    /// The form of the CRC that was set for the key.
    pub(crate) fn crc(&self, key: Key) -> Option<CrcForm>
        ensures { (settings : List Setting) → Holds self.now settings → result ≡ crc_at key settings }
    {
        match self.value(key) {
            Some(Value::Crc(form)) => Some(form),
            _ => None,
        }
    }

    /// The layout that was set for the key.
    pub(crate) fn layout(&self, key: Key) -> Option<Layout>
        ensures { (settings : List Setting) → Holds self.now settings → result ≡ layout_at key settings }
    {
        match self.value(key) {
            Some(Value::Layout(layout)) => Some(layout),
            _ => None,
        }
    }

    /// The serial messages that were set for the key.
    pub(crate) fn serial(&self, key: Key) -> Option<Serial>
        ensures { (settings : List Setting) → Holds self.now settings → result ≡ serial_at key settings }
    {
        match self.value(key) {
            Some(Value::Serial(serial)) => Some(serial),
            _ => None,
        }
    }

    /// The span that was set for the key.
    pub(crate) fn span(&self, key: Key) -> Option<Span>
        ensures { (settings : List Setting) → Holds self.now settings → result ≡ span_at key settings }
    {
        match self.value(key) {
            Some(Value::Span(span)) => Some(span),
            _ => None,
        }
    }

    /// The spans that were set for the key.
    pub(crate) fn spans(&self, key: Key) -> Option<Spans>
        ensures { (settings : List Setting) → Holds self.now settings → result ≡ spans_at key settings }
    {
        let value = self.value(key)?;
        match value {
            Value::Spans(spans) => Some(spans),
            _ => None,
        }
    }

    /// The check of a PSI5 frame that was set for the key.
    pub(crate) fn check(&self, key: Key) -> Option<Check>
        ensures { (settings : List Setting) → Holds self.now settings → result ≡ check_at key settings }
    {
        match self.value(key) {
            Some(Value::Check(check)) => Some(check),
            _ => None,
        }
    }

    /// The form of a downlink frame that was set for the key.
    pub(crate) fn form(&self, key: Key) -> Option<Form>
        ensures { (settings : List Setting) → Holds self.now settings → result ≡ form_at key settings }
    {
        match self.value(key) {
            Some(Value::Form(form)) => Some(form),
            _ => None,
        }
    }

    /// What the CRC covers, where it was set for the key.
    pub(crate) fn cover(&self, key: Key) -> Option<Cover>
        ensures { (settings : List Setting) → Holds self.now settings → result ≡ cover_at key settings }
    {
        match self.value(key) {
            Some(Value::Cover(cover)) => Some(cover),
            _ => None,
        }
    }
}
