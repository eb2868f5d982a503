// What isn't built of the settings of npf.conf(5).
ghost use Rattle.std.specs.Prelude.{◌≡◌, not};
ghost use Rattle.npf_faults.specs.First.{fault_if, first_fault};
ghost use Rattle.npf_faults.specs.declared.fault.Fault.TheVariants.{Unbuilt};
ghost use Rattle.npf_model.specs.Settings.{default_settings};
ghost use Rattle.npf_check.specs.Parameter.{chosen_by, is_built_set, is_idle_setting, is_reassembly, is_switch_word, leaves_none, range_fault, range_faults, says_number, says_on, set_by, set_chosen};

use npf_faults::{ConfFault, Fault, earlier, fault_if};
use npf_model::{Choice, Settings, switch_word};
use npf_syntax::{Setting, Stmt};

/// Whether a `set` is built: it is accepted without an effect, or sets a parameter that has one.
pub(crate) fn is_built_set(stmt: &Stmt) -> bool
    ensures { result ≡ is_built_set stmt.now }
{
    match stmt {
        Stmt::Set { name, value, .. } => {
            is_idle_setting(name.text.as_slice(), value) || chosen_by(stmt).is_some()
        }
        _ => true,
    }
}

fn is_idle_setting(name: &[u8], value: &Setting) -> bool
    ensures { result ≡ is_idle_setting name.now value.now }
{
    if name == "bpf.jit".as_bytes() {
        return is_switch_word(value);
    }
    if is_reassembly(name) {
        return says_on(value);
    }
    name == "gc.step".as_bytes() && says_number(value)
}

fn is_reassembly(name: &[u8]) -> bool
    ensures { result ≡ is_reassembly name.now }
{
    name == "ip4.reassembly".as_bytes() || name == "ip6.reassembly".as_bytes()
}

fn is_switch_word(value: &Setting) -> bool
    ensures { result ≡ is_switch_word value.now }
{
    match value {
        Setting::Word { word, .. } => switch_word(word.text.as_slice()).is_some(),
        Setting::Number { .. } => false,
    }
}

fn says_on(value: &Setting) -> bool
    ensures { result ≡ says_on value.now }
{
    match value {
        Setting::Word { word, .. } => word.text.as_slice() == "on".as_bytes(),
        Setting::Number { number, .. } => number.value == 1,
    }
}

fn says_number(value: &Setting) -> bool
    ensures { result ≡ says_number value.now }
{
    matches!(value, Setting::Number { .. })
}

/// What a statement sets a parameter with an effect to.
fn chosen_by(stmt: &Stmt) -> Option<Choice>
    ensures { result ≡ chosen_by stmt.now }
{
    let Stmt::Set { name, value, .. } = stmt else {
        return None;
    };
    let name = name.text.as_slice();
    match value {
        Setting::Word { word, .. } => Choice::by_word(name, word.text.as_slice()),
        Setting::Number { number, .. } => Choice::by_number(name, number.value),
    }
}

/// The first statement by which, with those before it, there is no port to draw from.
pub(crate) fn range_fault(stmts: &[Stmt]) -> Option<ConfFault>
    ensures { result ≡ first_fault (range_faults default_settings stmts.now) }
{
    let mut settings = Settings::DEFAULT;
    let mut first = None;
    for stmt in stmts {
        settings = set_by(stmt, settings);
        first = earlier(first, range_fault_at(settings, stmt));
    }
    first
}

/// The settings behind a statement.
fn set_by(stmt: &Stmt, settings: Settings) -> Settings
    ensures { result ≡ set_by stmt.now settings }
{
    set_chosen(chosen_by(stmt), settings)
}

fn set_chosen(choice: Option<Choice>, settings: Settings) -> Settings
    ensures { result ≡ set_chosen choice settings }
{
    match choice {
        Some(choice) => settings.with(choice),
        None => settings,
    }
}

fn range_fault_at(settings: Settings, stmt: &Stmt) -> Option<ConfFault>
    ensures { result ≡ first_fault (range_fault settings stmt.now) }
{
    match stmt {
        Stmt::Set { span, .. } => {
            let leaves_none = leaves_none(chosen_by(stmt), settings);
            fault_if(leaves_none, *span, Fault::Unbuilt)
        }
        _ => None,
    }
}

fn leaves_none(choice: Option<Choice>, settings: Settings) -> bool
    ensures { result ≡ leaves_none choice settings }
{
    matches!(choice, Some(Choice::Port(..))) && settings.max_port < settings.min_port
}
