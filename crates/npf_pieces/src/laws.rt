// What holds of every packet that is seen, and of every set. The functions do nothing: each is a theorem.
ghost use Rattle.npf_pieces.specs.Datagram.{CompleteIsWhole};
ghost use Rattle.npf_pieces.specs.Piece.{OneSeeing};

use npf_packet::one_fragment;

/// For each packet there is one answer.
pub fn one_seeing()
    ensures { OneSeeing }
{
    one_fragment();
}

/// A set that ends complete is whole: its datagram can be laid out.
pub fn complete_set_is_whole()
    ensures { CompleteIsWhole }
{}
