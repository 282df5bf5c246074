// Laws of the rules. Each function does nothing: its contract is the law, so the check asks for the proof.
ghost use Rattle.sheet.specs.Serving.{ServingLaws};
ghost use Rattle.sheet.specs.Words.{ClaimLaws};

// Claims meet exactly where they share a sample, and what place answers is the first free spot in words.
pub fn claim_laws()
    ensures { ClaimLaws }
{}

// Centre samples lie in the rectangle and served places in the body; for fine and coarse rows one undoes the other.
pub fn serving_laws()
    ensures { ServingLaws }
{}
