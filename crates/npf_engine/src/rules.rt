// What a configuration makes of a packet that no connection took. All are inlined, as an answer is.
ghost use Rattle.std.specs.Prelude.{◌≡◌, ◌↔◌, IsTrue, Some};
ghost use Rattle.npf_packet.specs.declared.decoded.Decoded.TheVariants.{Ip};
ghost use Rattle.npf_packet.specs.Decoder.{Decodes};
ghost use Rattle.npf_ruleset.specs.Configuration.{configuration};
ghost use Rattle.npf_engine.specs.Rules.{OpensOne, bound_interface, flow_settings, static_change, key_interface, mapping, mapping_of, plan_of, ruling_of, unchanged};

use crate::crossing::Crossing;
use npf_flow::FlowSettings;
use npf_model::{Algo, Settings, StateOpt};
use npf_nat::{MapPlan, plan};
use npf_packet::decoded_is_packet;
use npf_proc::rule_action;
use npf_ruleset::{Config, map_for, walk};
use npf_types::{Action, Change, Decision, IfId};

/// What the rule at a place, counted from 0 in the order of inspection, makes of a packet; `action` is that of its procedure,
/// and `settings` are those of its configuration.
#[derive(Clone, Copy, Debug, PartialEq, Eq)]
pub struct Ruling {
    pub place: u32,
    pub decision: Decision,
    pub state: StateOpt,
    pub settings: Settings,
    pub action: Action,
}

/// What a configuration's maps make of a packet, there and back. A dynamic map translates the packets of its connections alone.
#[derive(Clone, Copy, Debug, PartialEq, Eq)]
pub enum Mapping {
    Unmapped,
    Static { there: Change, back: Change },
    Dynamic(MapPlan),
}

/// A change that names nothing.
pub(crate) const UNCHANGED: Change = Change {
    src: None,
    dst: None,
    neutral: false,
};

/// The rule that decides on the packet, if one does.
#[inline(always)]
pub(crate) fn ruling_of(config: &Config, crossing: &Crossing) -> Option<Ruling>
    requires { Decodes crossing.now.link crossing.now.bytes.now (Ip crossing.now.facts.now) }
    ensures { result ≡ ruling_of (configuration config.now) crossing.now.facts.now crossing.now.ifid crossing.now.dir }
{
    decoded_is_packet();
    let ip = crossing.packet();
    let Some(place) = walk(config, crossing.facts, ip, crossing.ifid, crossing.dir) else {
        return None;
    };
    let rule = config.rule(place);
    Some(Ruling {
        place,
        decision: rule.decision,
        state: rule.state,
        settings: config.model().settings,
        action: rule_action(config.model(), rule),
    })
}

/// The map that translates the packet, if one does.
#[inline(always)]
pub(crate) fn mapping_of(config: &Config, crossing: &Crossing) -> Mapping
    requires { Decodes crossing.now.link crossing.now.bytes.now (Ip crossing.now.facts.now) }
    ensures { result ≡ mapping_of (configuration config.now) crossing.now.facts.now crossing.now.ifid crossing.now.dir }
{
    let ip = crossing.packet();
    let Some(place) = map_for(config, crossing.facts, ip, crossing.ifid, crossing.dir) else {
        return Mapping::Unmapped;
    };
    let map = config.map(place);
    let unsaid = config.model().settings.drawn_ports();
    match plan(unsaid, map, crossing.facts, crossing.dir) {
        Some(made) => mapping_by_algo(map.algo, made),
        None => Mapping::Unmapped,
    }
}

/// A map by its algorithm, with what it makes of the packet.
#[inline(always)]
fn mapping_by_algo(algo: Algo, made: MapPlan) -> Mapping
    ensures { result ≡ mapping algo made }
{
    match (algo, made) {
        (Algo::Netmap | Algo::Npt66, MapPlan::Fixed { there, back }) => {
            Mapping::Static { there, back }
        }
        _ => Mapping::Dynamic(made),
    }
}

/// How the packets of a connection that the packet would open are translated.
#[inline(always)]
pub(crate) fn plan_of(mapping: &Mapping) -> MapPlan
    ensures { result ≡ plan_of mapping.now }
{
    match *mapping {
        Mapping::Unmapped => MapPlan::Fixed {
            there: UNCHANGED,
            back: UNCHANGED,
        },
        Mapping::Static { there, back } => MapPlan::Fixed { there, back },
        Mapping::Dynamic(made) => made,
    }
}

/// The change of a packet that opens no connection.
#[inline(always)]
pub(crate) fn static_change(mapping: &Mapping) -> Change
    ensures { result ≡ static_change mapping.now }
{
    match *mapping {
        Mapping::Static { there, .. } => there,
        Mapping::Unmapped | Mapping::Dynamic(_) => UNCHANGED,
    }
}

/// Whether a packet that passes opens a connection.
#[inline(always)]
pub(crate) fn opens_one(ruling: &Ruling, mapping: &Mapping) -> bool
    ensures { IsTrue result ↔ OpensOne ruling.now mapping.now }
{
    ruling.state != StateOpt::Not || matches!(mapping, Mapping::Dynamic(_))
}

/// The interface of the keys: that of every interface exactly where the rule is `stateful-all`, or the configuration binds no
/// key to its interface.
#[inline(always)]
pub(crate) fn key_interface(settings: Settings, state: StateOpt, ifid: IfId) -> IfId
    ensures { result ≡ key_interface settings state ifid }
{
    match state {
        StateOpt::Not | StateOpt::OnInterface => bound_interface(settings.key_interface, ifid),
        StateOpt::Everywhere => IfId::EVERY,
    }
}

/// What a configuration's settings say of the connections that open under it.
#[inline(always)]
pub(crate) fn flow_settings(settings: Settings) -> FlowSettings
    ensures { result ≡ flow_settings settings }
{
    FlowSettings {
        strict: settings.strict_rst,
        timeouts: settings.timeouts,
    }
}

#[inline(always)]
fn bound_interface(is_bound: bool, ifid: IfId) -> IfId
    ensures { result ≡ bound_interface is_bound ifid }
{
    if is_bound { ifid } else { IfId::EVERY }
}
