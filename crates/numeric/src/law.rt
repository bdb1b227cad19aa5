// What is written for a fraction, and what that says of it. The functions do nothing: each stands for the law that it ensures.
ghost use Rattle.numeric.specs.Faithful.{WritingFaithful};
ghost use Rattle.numeric.specs.Worked.{WorkedDepths};

// Every fraction with a denominator above 0 is written as its sign and n over d, cut at the scale.
pub fn writing_is_faithful()
    ensures { WritingFaithful }
{}

// The worked depths are written so.
pub fn worked_depths()
    ensures { WorkedDepths }
{}
