// What holds of the texts of all tables. The function does nothing: it is a theorem.
ghost use Rattle.npf_connsave.specs.Laws.{OneSavedText, SavesAsLoaded};

/// A table has one text after each legal history; so what is saved after a text was loaded is that
/// text.
pub fn saved_text_law()
    ensures one { OneSavedText }
    ensures again { SavesAsLoaded }
{}
