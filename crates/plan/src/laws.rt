ghost use Rattle.plan.specs.Laws.{AcceptedAreEncodings, EncodingsAreAccepted, OneEncoding, OneToOne};
ghost use Rattle.plan.specs.Laws.{RefusedWhereBroken, RefusedThere, BrokenAreRefused, NeverBoth, WidthsOneToEight};

// What holds of all bytes and nodes. The functions do nothing: their contracts are the laws.

pub fn accepted_bytes_are_encodings()
    ensures { AcceptedAreEncodings }
{}

pub fn encodings_are_accepted()
    ensures { EncodingsAreAccepted }
{}

pub fn each_plan_has_one_encoding()
    ensures { OneEncoding }
{}

pub fn encoding_is_one_to_one()
    ensures { OneToOne }
{}

pub fn refused_bytes_break_at_the_node()
    ensures { RefusedWhereBroken }
{}

pub fn refused_bytes_break_there()
    ensures { RefusedThere }
{}

pub fn broken_bytes_are_refused()
    ensures { BrokenAreRefused }
{}

pub fn accepted_bytes_are_not_broken()
    ensures { NeverBoth }
{}

pub fn widths_are_one_to_eight()
    ensures { WidthsOneToEight }
{}
