//! What the recovered cells are where a drive keeps within the bounds of disturbance.
ghost use Rattle.phase_loop.specs.Pieces.{RecoversRings, RecoversPieces, RecoversPiecesOfTurns, RecoversSteadyRings};
ghost use Rattle.phase_loop.specs.Pieces.{RecoversSteadyPieces, RecoversSteadyPiecesOfTurns};

/// Where a track's transitions carry a ring within the bounds of disturbance, the recovered cells are the ring's from
/// the first place to the last. Where they carry it in pieces, the cells are those of the pieces, with 31 zeros between
/// two; so it is also where the loop starts with the mean cell of the first turn.
pub fn disturbed_rings_are_recovered()
    ensures ring { RecoversRings }
    ensures pieces { RecoversPieces }
    ensures turns { RecoversPiecesOfTurns }
{}

/// The same where the loop holds its first period and the drive keeps its speed: where besides each local period is
/// within a 45th of the nominal cell of the period that is held, so of the mean cell of the first turn.
pub fn steady_rings_are_recovered()
    ensures ring { RecoversSteadyRings }
    ensures pieces { RecoversSteadyPieces }
    ensures turns { RecoversSteadyPiecesOfTurns }
{}
