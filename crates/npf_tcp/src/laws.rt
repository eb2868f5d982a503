// What follows of the segment law, whatever the state and the segment: each is a theorem about the definitions that
// `open_tcp` and `step_tcp` equal.
ghost use Rattle.npf_tcp.specs.Laws.{RefusedChangesNothing, ResetCloses, ResetIsBounded, StrictResetIsInOrder, StrictStays, ClosedTakesOnlyReset, InvalidIsRefused, SeenStaysSeen, SeenMaxwinNeverFalls, OpeningIsQuiet, StepKeepsQuiet, MaxwinNeverFalls, OneSidedExactly, SymmetricExactly, SidesExchange, ClassesExchange, OrderIsByDistance, LessIsInverse};

/// A refused segment changes nothing.
pub fn refused_changes_nothing()
    ensures { RefusedChangesNothing }
{}

/// A reset leads to CLOSED from every phase, and no phase refuses it: it is accepted exactly where it is within the
/// bounds. In a strict connection one from a side of which something is known is accepted only at the end of what that
/// side sent, or one byte before it.
pub fn reset_closes()
    ensures closes { ResetCloses }
    ensures bounded { ResetIsBounded }
    ensures in_order { StrictResetIsInOrder }
{}

/// A connection is as strict about resets after a segment as before it.
pub fn strictness_stays()
    ensures { StrictStays }
{}

/// From CLOSED nothing is accepted but a reset.
pub fn closed_takes_only_reset()
    ensures { ClosedTakesOnlyReset }
{}

/// SYN with FIN, and a segment with none of RST, SYN, FIN and ACK, is refused in every state.
pub fn invalid_is_refused()
    ensures { InvalidIsRefused }
{}

/// A side that is seen stays seen.
pub fn seen_stays_seen()
    ensures { SeenStaysSeen }
{}

/// The greatest window of a side that is seen never falls. In a state that comes from an opening, a side that isn't
/// seen has offered none, and so no side's greatest window falls there.
pub fn maxwin_never_falls()
    ensures seen { SeenMaxwinNeverFalls }
    ensures opening { OpeningIsQuiet }
    ensures step { StepKeepsQuiet }
    ensures all { MaxwinNeverFalls }
{}

/// The table of phases is symmetric, where FIN_SENT mirrors FIN_RECEIVED and FIN_WAIT mirrors CLOSE_WAIT, in all phases
/// but those of the opening: SYN_SENT (at SYN and SYN with ACK), SIMSYN_SENT (at FIN), SYN_RECEIVED (at SYN and ACK) and
/// ESTABLISHED (at SYN with ACK). At all other classes it is symmetric in these too.
pub fn table_is_symmetric()
    ensures cells { OneSidedExactly }
    ensures phases { SymmetricExactly }
{}

/// Exchanging the sides of a state in a symmetric phase and the way of the segment exchanges the answer; in the other
/// phases it does so for a class at which the table is symmetric.
pub fn sides_exchange()
    ensures phases { SidesExchange }
    ensures classes { ClassesExchange }
{}

/// Sequence numbers by whole numbers: x is at or before y exactly where y comes fewer than 2^31 bytes after x, and
/// x less n is the number to which n is added, modulo 2^32, to give x.
pub fn sequence_numbers_go_round()
    ensures order { OrderIsByDistance }
    ensures less { LessIsInverse }
{}
