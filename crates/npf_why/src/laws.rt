// What holds of the candidates and of the names of settings, whatever the text.
ghost use Rattle.std.specs.Prelude.{◌≡◌, true};
ghost use Rattle.npf_parser.specs.Stmt.{file};
ghost use Rattle.npf_why.specs.Candidate.{candidate_kinds, lists_all, examples};
ghost use Rattle.npf_why.specs.Laws.{IdleSettingsAreAccepted};

/// No word, sign or kind of token that the grammar speaks of is lacking among the candidates.
pub fn candidates_cover_the_grammar()
    ensures { lists_all (examples file) candidate_kinds ≡ true }
{}

/// The settings without an effect are those that a check accepts so.
pub fn idle_settings_are_accepted()
    ensures { IdleSettingsAreAccepted }
{}
