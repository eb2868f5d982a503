// What is possible is what packets have, and of it rules and maps see what they test. The functions do nothing: each is a theorem.
ghost use Rattle.npf_possible.specs.PossibleLaw.{DecodedIsPossible, MapPlacesAlike, MapsTestAlike, PossibleHasWitness, RulesTestAlike, VerdictsAlike};

/// The facts of every packet that is decoded are possible.
pub fn decoded_is_possible()
    ensures { DecodedIsPossible }
{}

/// What is possible is a packet: its witness has at most 60 bytes and decodes to it, up to what no rule tests.
pub fn possible_has_witness()
    ensures { PossibleHasWitness }
{}

/// Of packets that agree in what is tested, a rule describes each or none, and a map applies to each or none.
pub fn tested_alike()
    ensures rules { RulesTestAlike }
    ensures maps { MapsTestAlike }
{}

/// So one rule decides on all of them, or none does, and one map translates them, or none.
pub fn decided_alike()
    ensures verdicts { VerdictsAlike }
    ensures maps { MapPlacesAlike }
{}
