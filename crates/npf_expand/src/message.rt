// What a filter says of ICMP's messages: their type and code, as numbers.
ghost use Rattle.std.specs.Prelude.{◌≡◌};
ghost use Rattle.npf_faults.specs.First.{first_fault};
ghost use Rattle.npf_expand_values.specs.Scope.{env_of_scope};
ghost use Rattle.npf_expand.specs.Rule.{code_faults, code_of, detail_faults, icmp_of_detail, message_detail_faults};

use npf_expand_values::Scope;
use npf_faults::ConfFault;
use npf_names::{IcmpNames, IcmpTable};
use npf_syntax::{Detail, One};

fn code_fault<'a>(
    scope: &Scope<'_, 'a, '_>,
    names: IcmpNames,
    kind: Option<u8>,
    code: &'a Option<One>,
) -> Option<ConfFault>
    ensures { result ≡ first_fault (code_faults (env_of_scope scope.now) names kind code.now) }
{
    match (kind, code) {
        (Some(kind), Some(code)) => scope.message_fault(IcmpTable::Codes(names, kind), code),
        _ => None,
    }
}

fn message_fault<'a>(
    scope: &Scope<'_, 'a, '_>,
    names: IcmpNames,
    kind: &'a One,
    code: &'a Option<One>,
) -> Option<ConfFault>
    ensures { result ≡ first_fault (message_detail_faults (env_of_scope scope.now) names kind.now code.now) }
{
    let types = IcmpTable::Types(names);
    match scope.message_fault(types, kind) {
        Some(fault) => Some(fault),
        None => code_fault(scope, names, scope.message_number(types, kind), code),
    }
}

/// The first fault of what a filter says of messages that have these names.
pub(crate) fn detail_fault<'a>(
    scope: &Scope<'_, 'a, '_>,
    names: IcmpNames,
    detail: &'a Option<Detail>,
) -> Option<ConfFault>
    ensures { result ≡ first_fault (detail_faults (env_of_scope scope.now) names detail.now) }
{
    match detail {
        Some(Detail::IcmpType { kind, code, .. }) => message_fault(scope, names, kind, code),
        _ => None,
    }
}

fn code_of<'a>(
    scope: &Scope<'_, 'a, '_>,
    names: IcmpNames,
    kind: u8,
    code: &'a Option<One>,
) -> Option<u8>
    ensures { result ≡ code_of (env_of_scope scope.now) names kind code.now }
{
    match code {
        Some(code) => scope.message_number(IcmpTable::Codes(names, kind), code),
        None => None,
    }
}

/// The type of ICMP, and the code where one is written.
pub(crate) fn icmp_of<'a>(
    scope: &Scope<'_, 'a, '_>,
    names: IcmpNames,
    detail: &'a Option<Detail>,
) -> Option<(u8, Option<u8>)>
    ensures { result ≡ icmp_of_detail (env_of_scope scope.now) names detail.now }
{
    let Some(Detail::IcmpType { kind, code, .. }) = detail else {
        return None;
    };
    match scope.message_number(IcmpTable::Types(names), kind) {
        Some(kind) => Some((kind, code_of(scope, names, kind, code))),
        None => None,
    }
}
