// Parameters and the gateway of ICMP.
ghost use Rattle.std.specs.Prelude.{◌≡◌, ◌++◌, OnOk};
ghost use Rattle.std.specs.List.{flat_map};
ghost use Rattle.npf_show.specs.Piece.{spaced, spelled};
ghost use Rattle.npf_show.specs.Setting.{alg_line, changed_setting, has_same_value, set_line, shown_settings, switch_text, value_piece};

use crate::page::Page;
use npf_model::{Choice, Parameter, Settings};
use npf_types::NoMemory;

/// A line for each parameter that isn't as it is without a statement.
pub(crate) fn show_settings(settings: Settings, page: &mut Page) -> Result<(), NoMemory>
    ensures { OnOk result (page.new ≡ page.old ++ spelled (flat_map set_line (shown_settings settings))) }
{
    for parameter in &Parameter::ALL {
        show_changed(settings, *parameter, page)?;
    }
    Ok(())
}

fn show_changed(settings: Settings, parameter: Parameter, page: &mut Page) -> Result<(), NoMemory>
    ensures { OnOk result (page.new ≡ page.old ++ spelled (flat_map set_line (changed_setting settings parameter))) }
{
    let choice = settings.choice(parameter);
    if has_same_value(choice, Settings::DEFAULT.choice(parameter)) {
        return Ok(());
    }
    show_set(choice, page)
}

fn has_same_value(one: Choice, other: Choice) -> bool
    ensures { result ≡ has_same_value one other }
{
    match (one, other) {
        (Choice::Switch(_, one), Choice::Switch(_, other)) => one == other,
        (Choice::Port(_, one), Choice::Port(_, other)) => one == other,
        (Choice::Timeout(_, one), Choice::Timeout(_, other)) => one == other,
        _ => false,
    }
}

fn show_set(choice: Choice, page: &mut Page) -> Result<(), NoMemory>
    ensures { OnOk result (page.new ≡ page.old ++ spelled (set_line choice)) }
{
    page.glued_word(b"set")?;
    page.word(choice.parameter().name())?;
    show_value(choice, page)?;
    page.end_line()?;
    Ok(())
}

fn show_value(choice: Choice, page: &mut Page) -> Result<(), NoMemory>
    ensures { OnOk result (page.new ≡ page.old ++ spelled (spaced (value_piece choice))) }
{
    match choice {
        Choice::Switch(_, value) => page.word(switch_text(value)),
        Choice::Port(_, port) => page.number(u32::from(port)),
        Choice::Timeout(_, seconds) => page.number(seconds),
    }
}

fn switch_text(value: bool) -> &'static str
    ensures { result.now ≡ switch_text value }
{
    match value {
        true => "on",
        false => "off",
    }
}

/// The line of the gateway, where it is asked for.
pub(crate) fn show_alg(is_asked: bool, page: &mut Page) -> Result<(), NoMemory>
    ensures { OnOk result (page.new ≡ page.old ++ spelled (alg_line is_asked)) }
{
    if is_asked {
        page.glued_word(b"alg")?;
        page.quoted(b"icmp")?;
        page.end_line()?;
    }
    Ok(())
}
