// Where a script stands, and which commands may come next.
ghost use Rattle.std.specs.Prelude.{◌≡◌};
ghost use Rattle.npf_ctl_script.specs.Commands.{command_of};
ghost use Rattle.npf_ctl_script.specs.Sections.{after_command, takes};

use crate::command::LineCommand;
use crate::script::ScriptLine;

/// Where a script stands.
#[derive(Clone, Copy)]
pub(crate) enum Section {
    /// No phase has begun.
    Captures,
    /// In a phase of which it isn't said how many packets it has.
    Phase,
    /// In a phase of which it is.
    PhaseWithPackets,
}

impl Section {
    /// Whether a line with this command may come next.
    pub(crate) fn takes(self, command: LineCommand) -> bool
        ensures { result ≡ takes self command }
    {
        match self {
            Section::Captures => matches!(command, LineCommand::Capture | LineCommand::Phase),
            Section::Phase => !matches!(command, LineCommand::Capture),
            Section::PhaseWithPackets => !matches!(
                command,
                LineCommand::Capture | LineCommand::Packets
            ),
        }
    }

    /// Where the script stands behind the line.
    pub(crate) fn after(self, line: &ScriptLine) -> Section
        ensures { result ≡ after_command self (command_of line.now) }
    {
        match line {
            ScriptLine::Phase => Section::Phase,
            ScriptLine::Packets(_) => Section::PhaseWithPackets,
            _ => self,
        }
    }
}
