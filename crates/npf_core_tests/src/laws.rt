use crate::datagrams::Datagrams;
use crate::sum::Sum;

/// Calls each law once, those of every flow's law at a law of this program. A law does nothing: it is its contract.
pub fn call_all() {
    of_segments();
    of_flows();
    of_histories();
    of_stores();
    of_keys();
}

fn of_segments() {
    npf_tcp::laws::refused_changes_nothing();
    npf_tcp::laws::reset_closes();
    npf_tcp::laws::strictness_stays();
    npf_tcp::laws::closed_takes_only_reset();
    npf_tcp::laws::invalid_is_refused();
    npf_tcp::laws::seen_stays_seen();
    npf_tcp::laws::maxwin_never_falls();
    npf_tcp::laws::table_is_symmetric();
    npf_tcp::laws::sides_exchange();
    npf_tcp::laws::sequence_numbers_go_round();
}

fn of_flows() {
    npf_flow::laws::meaning_is_flow_law();
    npf_flow::laws::refused_leaves_flow();
    npf_flow::laws::peek_leaves_flow();
    npf_flow::laws::last_never_falls();
    npf_flow::laws::opening_stays();
    npf_flow::laws::protocol_stays();
    npf_flow::laws::stays_answered();
    npf_flow::laws::due_by_idle_time();
    npf_flow::laws::flow_is_as_its_packets();
    npf_flow::laws::windows_stay_up();
}

fn of_histories() {
    npf_core::laws::replay_law::<Sum>();
    npf_core::laws::key_law::<Sum>();
    npf_core::laws::identity_law::<Sum>();
    npf_core::laws::stale_look_up_law::<Sum>();
    npf_core::laws::building_law::<Sum>();
    npf_core::laws::claimed_law::<Sum>();
    npf_core::laws::holder_law::<Sum>();
    npf_core::laws::history_law::<Sum>();
}

fn of_stores() {
    npf_oneturn_store::laws::state_law::<Datagrams>();
    npf_oneturn_store::laws::look_law::<Datagrams>();
    npf_oneturn_store::laws::claim_law::<Datagrams>();
    npf_oneturn_store::laws::hold_law::<Datagrams>();
    npf_oneturn_store::laws::start_law::<Datagrams>();
    npf_oneturn_store::laws::step_law::<Datagrams>();
    npf_oneturn_store::laws::kill_law::<Datagrams>();
    npf_oneturn_store::laws::unhold_law::<Datagrams>();
    npf_oneturn_store::laws::free_law::<Datagrams>();
    npf_oneturn_store::laws::held_law::<Datagrams>();
}

fn of_keys() {
    npf_key::laws::keys_tell_apart();
    npf_key::laws::port_keys_stand_apart();
    npf_key::laws::backward_keys_tell_apart();
    npf_key::laws::answers_come_back();
}
