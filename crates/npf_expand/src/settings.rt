// What a configuration chooses for the whole of it.
ghost use Rattle.std.specs.Prelude.{◌≡◌, codes};
ghost use Rattle.std.specs.List.{list_any};
ghost use Rattle.std.specs.Str.{bytes_eq};
ghost use Rattle.npf_model.specs.Settings.{with_settings};
ghost use Rattle.npf_expand.specs.Settings.{algs_in, asks_icmp, choice_of, settings_in, settings_of};

use npf_model::{Choice, Settings};
use npf_syntax::{Setting, Stmt};

/// The settings of these statements; of those that set one parameter the last counts.
pub(crate) fn settings_of(stmts: &[Stmt]) -> Settings
    ensures { result ≡ settings_of stmts.now }
{
    let mut settings = Settings::DEFAULT;
    for stmt in stmts {
        settings = settings_behind(settings, stmt);
    }
    settings
}

fn settings_behind(settings: Settings, stmt: &Stmt) -> Settings
    ensures { result ≡ with_settings settings (settings_in stmt.now) }
{
    let Stmt::Set { name, value, .. } = stmt else {
        return settings;
    };
    match choice_of(name.text.as_slice(), value) {
        Some(choice) => settings.with(choice),
        None => settings,
    }
}

fn choice_of(name: &[u8], value: &Setting) -> Option<Choice>
    ensures { result ≡ choice_of name.now value.now }
{
    match value {
        Setting::Word { word, .. } => Choice::by_word(name, word.text.as_slice()),
        Setting::Number { number, .. } => Choice::by_number(name, number.value),
    }
}

/// Whether one of these statements asks for the gateway of ICMP.
pub(crate) fn asks_icmp(stmts: &[Stmt]) -> bool
    ensures { result ≡ asks_icmp stmts.now }
{
    for stmt in stmts {
        if is_alg_icmp(stmt) {
            return true;
        }
    }
    false
}

fn is_alg_icmp(stmt: &Stmt) -> bool
    ensures { result ≡ list_any (bytes_eq (codes "icmp")) (algs_in stmt.now) }
{
    match stmt {
        Stmt::Alg { name, .. } => "icmp".as_bytes() == name.text.as_slice(),
        _ => false,
    }
}
