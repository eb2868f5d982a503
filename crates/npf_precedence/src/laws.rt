// What the order of rules is for. The functions do nothing: each is a theorem.
ghost use Rattle.npf_precedence.specs.PrecedenceLaw.{EachRuleOnce, FirstMatchDecides};

/// The rule that decides on a packet is the first that matches it, in the order of precedence.
pub fn first_match_decides()
    ensures { FirstMatchDecides }
{}

/// Each rule of a configuration is in the order of precedence once, at its place.
pub fn each_rule_once()
    ensures { EachRuleOnce }
{}
