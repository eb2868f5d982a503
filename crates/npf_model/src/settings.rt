// What the `set` statements of a configuration choose.
ghost use Rattle.std.specs.Prelude.{◌≡◌, ◌<◌, ◌^◌, true};
ghost use Rattle.npf_model.specs.Settings.{chosen_number, chosen_word, choice_by_number, choice_by_word, choice_in, drawn_ports, is_port, parameter_name, parameter_named, parameter_of, set_in, switch_number, switch_word};

use npf_timeouts::{Timeout, Timeouts, is_timeout};

/// What the `set` statements of a configuration choose (npf.conf(5), "Settings"). A dynamic map whose right side has no
/// ports draws from `min_port` to `max_port`. A connection keeps the `timeouts` under which it was opened.
#[derive(Clone, Copy, Debug, PartialEq, Eq)]
pub struct Settings {
    pub strict_rst: bool,
    pub key_interface: bool,
    pub min_port: u16,
    pub max_port: u16,
    pub timeouts: Timeouts,
}

/// A parameter that is on or off.
#[derive(Clone, Copy, Debug, PartialEq, Eq)]
pub enum Switch {
    StrictRst,
    KeyInterface,
}

/// An end of the range of ports to draw from.
#[derive(Clone, Copy, Debug, PartialEq, Eq)]
pub enum PortBound {
    Least,
    Greatest,
}

/// A parameter with an effect.
#[derive(Clone, Copy, Debug, PartialEq, Eq)]
pub enum Parameter {
    Switch(Switch),
    Port(PortBound),
    Timeout(Timeout),
}

/// A parameter with what it is set to.
#[derive(Clone, Copy, Debug, PartialEq, Eq)]
pub enum Choice {
    Switch(Switch, bool),
    Port(PortBound, u16),
    /// A time in seconds, from 1 to 4,294,967.
    Timeout(Timeout, u32),
}

/// The least port that is drawn: those below it are the well-known ones.
const LEAST_PORT: u16 = 1024;

impl Settings {
    /// What holds where no statement says anything else.
    pub const DEFAULT: Settings = Settings {
        strict_rst: false,
        key_interface: true,
        min_port: LEAST_PORT,
        max_port: u16::MAX,
        timeouts: Timeouts::DEFAULT,
    };

    /// These settings with a parameter set to another value.
    pub fn with(self, choice: Choice) -> Settings
        ensures { result ≡ set_in choice self }
    {
        match choice {
            Choice::Switch(Switch::StrictRst, value) => Settings {
                strict_rst: value,
                ..self
            },
            Choice::Switch(Switch::KeyInterface, value) => Settings {
                key_interface: value,
                ..self
            },
            Choice::Port(PortBound::Least, port) => Settings {
                min_port: port,
                ..self
            },
            Choice::Port(PortBound::Greatest, port) => Settings {
                max_port: port,
                ..self
            },
            Choice::Timeout(timeout, seconds) => Settings {
                timeouts: self.timeouts.with(timeout, seconds),
                ..self
            },
        }
    }

    /// A parameter with what these settings have for it.
    pub fn choice(self, parameter: Parameter) -> Choice
        ensures { result ≡ choice_in self parameter }
    {
        match parameter {
            Parameter::Switch(Switch::StrictRst) => {
                Choice::Switch(Switch::StrictRst, self.strict_rst)
            }
            Parameter::Switch(Switch::KeyInterface) => {
                Choice::Switch(Switch::KeyInterface, self.key_interface)
            }
            Parameter::Port(PortBound::Least) => Choice::Port(PortBound::Least, self.min_port),
            Parameter::Port(PortBound::Greatest) => {
                Choice::Port(PortBound::Greatest, self.max_port)
            }
            Parameter::Timeout(timeout) => Choice::Timeout(timeout, self.timeouts.get(timeout)),
        }
    }

    /// The first and the last of the ports that a dynamic map draws from where its right side has none.
    pub fn drawn_ports(self) -> (u16, u16)
        ensures { result ≡ drawn_ports self }
    {
        (self.min_port, self.max_port)
    }
}

impl Parameter {
    /// All parameters, in the order of a canonical text.
    pub const ALL: [Parameter; 11] = [
        Parameter::Switch(Switch::StrictRst),
        Parameter::Switch(Switch::KeyInterface),
        Parameter::Port(PortBound::Least),
        Parameter::Port(PortBound::Greatest),
        Parameter::Timeout(Timeout::TcpNew),
        Parameter::Timeout(Timeout::TcpEstablished),
        Parameter::Timeout(Timeout::TcpHalfClose),
        Parameter::Timeout(Timeout::TcpTimeWait),
        Parameter::Timeout(Timeout::TcpClose),
        Parameter::Timeout(Timeout::OtherNew),
        Parameter::Timeout(Timeout::OtherEstablished),
    ];

    /// The parameter of this name in a configuration's text; None where none has it.
    pub fn named(name: &[u8]) -> Option<Parameter>
        ensures { result ≡ parameter_named name.now }
    {
        Parameter::ALL
            .iter()
            .copied()
            .find(|parameter| parameter.name().as_bytes() == name)
    }

    /// Its name in a configuration's text.
    pub fn name(self) -> &'static str
        ensures { result.now ≡ parameter_name self }
    {
        match self {
            Parameter::Switch(Switch::StrictRst) => "state.tcp.strict_order_rst",
            Parameter::Switch(Switch::KeyInterface) => "state.key.interface",
            Parameter::Port(PortBound::Least) => "portmap.min_port",
            Parameter::Port(PortBound::Greatest) => "portmap.max_port",
            Parameter::Timeout(Timeout::TcpNew) => "state.tcp.timeout.new",
            Parameter::Timeout(Timeout::TcpEstablished) => "state.tcp.timeout.established",
            Parameter::Timeout(Timeout::TcpHalfClose) => "state.tcp.timeout.half_close",
            Parameter::Timeout(Timeout::TcpTimeWait) => "state.tcp.timeout.time_wait",
            Parameter::Timeout(Timeout::TcpClose) => "state.tcp.timeout.close",
            Parameter::Timeout(Timeout::OtherNew) => "state.generic.timeout.new",
            Parameter::Timeout(Timeout::OtherEstablished) => "state.generic.timeout.established",
        }
    }
}

impl Choice {
    /// What a word sets the parameter of this name to; None where there is no such parameter, or the word sets it to nothing.
    pub fn by_word(name: &[u8], word: &[u8]) -> Option<Choice>
        ensures { result ≡ choice_by_word name.now word.now }
    {
        chosen_word(Parameter::named(name)?, word)
    }

    /// What a number sets the parameter of this name to; None where there is no such parameter, or the number isn't one of its own.
    pub fn by_number(name: &[u8], number: u32) -> Option<Choice>
        ensures { result ≡ choice_by_number name.now number }
    {
        chosen_number(Parameter::named(name)?, number)
    }

    /// The parameter.
    pub fn parameter(self) -> Parameter
        ensures { result ≡ parameter_of self }
    {
        match self {
            Choice::Switch(switch, _) => Parameter::Switch(switch),
            Choice::Port(bound, _) => Parameter::Port(bound),
            Choice::Timeout(timeout, _) => Parameter::Timeout(timeout),
        }
    }
}

fn chosen_word(parameter: Parameter, word: &[u8]) -> Option<Choice>
    ensures { result ≡ chosen_word parameter word.now }
{
    match parameter {
        Parameter::Switch(switch) => Some(Choice::Switch(switch, switch_word(word)?)),
        Parameter::Port(_) | Parameter::Timeout(_) => None,
    }
}

fn chosen_number(parameter: Parameter, number: u32) -> Option<Choice>
    ensures { result ≡ chosen_number parameter number }
{
    match parameter {
        Parameter::Switch(switch) => Some(Choice::Switch(switch, switch_number(number)?)),
        Parameter::Port(bound) if is_port(number) => Some(Choice::Port(bound, number as u16)),
        Parameter::Timeout(timeout) if is_timeout(number) => {
            Some(Choice::Timeout(timeout, number))
        }
        Parameter::Port(_) | Parameter::Timeout(_) => None,
    }
}

/// What a word sets a switch to, if it is one of the two that do.
pub fn switch_word(text: &[u8]) -> Option<bool>
    ensures { result ≡ switch_word text.now }
{
    if text == "on".as_bytes() {
        return Some(true);
    }
    if text == "off".as_bytes() {
        return Some(false);
    }
    None
}

/// What a number sets a switch to, if it is one of the two that do.
pub fn switch_number(number: u32) -> Option<bool>
    ensures { result ≡ switch_number number }
{
    match number {
        0 => Some(false),
        1 => Some(true),
        _ => None,
    }
}

/// Whether the number is a port that may be drawn.
fn is_port(number: u32) -> bool
    ensures value { result ≡ is_port number }
    ensures fits { result ≡ true → number < 2 ^ 16 }
{
    u32::from(LEAST_PORT) <= number && number <= u32::from(u16::MAX)
}
