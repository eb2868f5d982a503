// What holds of the seats of every such object. The function does nothing: it is a theorem.
ghost use Rattle.std.specs.Prelude.{ℕ, List};
ghost use Rattle.npf_seats.specs.declared.side.SeatSide.{SeatSide};
ghost use Rattle.npf_seats.specs.SeatsLaw.{OwnsPlaceAlone, AnswersForAll};

/// The seats law: a place has one owner at most, and who owns all places answers for each number that has an entry.
pub fn seats_law<K, E>()
    ensures alone { (seat_of : E → ℕ) (about : K) (all : ℕ) (log : List E) (sides : List (SeatSide K E)) → OwnsPlaceAlone seat_of about all log sides }
    ensures answers { (seat_of : E → ℕ) (about : K) (all : ℕ) (log : List E) (sides : List (SeatSide K E)) → AnswersForAll seat_of about all log sides }
{}
