// What treatments are for: what the engine makes of a packet that no connection took is told by its treatment and by the settings. So a packet
// that two configurations treat alike is handled alike by both. The functions do nothing: each is a theorem.
#![tactic(auto)]

ghost use Rattle.npf_treatment_law.specs.TreatmentLaw.{EffectsPlanAlike, EngineFollowsTreatment};

/// Maps with one effect in a direction make one plan of each packet, and what the engine makes of a packet follows from its treatment and the
/// settings: what its rule does, and where that passes it, how it is translated.
pub fn engine_follows_treatment()
    ensures plans { EffectsPlanAlike }
    ensures engine { EngineFollowsTreatment }
{}
