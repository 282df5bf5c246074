// Laws of the box. The function does nothing: its contract is the laws, so the check asks for their proof.
ghost use Rattle.rwpk.specs.Laws.{BoxLaws};

// The inputs that load grants are exactly the boxes of sound contents with at least one row, and each is read back as it was.
pub fn box_laws()
    ensures { BoxLaws }
{}
