//! What the contracts refuse: the body is empty, and the contract states a law.

ghost use Rattle.pmt_recorder.specs.Scripts.{RefusesALostOp};

/// Of two scripts of one op each, a trace that has the first one's alone is no recording.
pub fn refuses_a_lost_op()
    ensures { RefusesALostOp }
{}
