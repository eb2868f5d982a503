// The first word of a line.
ghost use Rattle.std.specs.Prelude.{◌≡◌, ◌≢◌, MatchOption};
ghost use Rattle.npf_ctl_script.specs.declared.command.LineCommand.{LineCommand as CommandType};
ghost use Rattle.npf_ctl_script.specs.Commands.{command_text};

/// The command of a line.
#[derive(Clone, Copy)]
pub(crate) enum LineCommand {
    Capture,
    Phase,
    Packets,
    Reload,
    Rule,
    Table,
    Expire,
}

/// The command that the word is.
pub(crate) fn command_of(word: &[u8]) -> Option<LineCommand>
    ensures { MatchOption result ((command : CommandType) → word.now ≢ command_text command) (λ command. word.now ≡ command_text command) }
{
    match word {
        b"capture" => Some(LineCommand::Capture),
        b"phase" => Some(LineCommand::Phase),
        b"packets" => Some(LineCommand::Packets),
        b"reload" => Some(LineCommand::Reload),
        b"rule" => Some(LineCommand::Rule),
        b"table" => Some(LineCommand::Table),
        b"expire" => Some(LineCommand::Expire),
        _ => None,
    }
}
