// Laws over any numbers. Each function does nothing: its contract is the law, so the check asks for the proof.
ghost use Rattle.geometry.specs.Centre.{CentreLaws};
ghost use Rattle.geometry.specs.FirstFree.{SearchLaw};
ghost use Rattle.geometry.specs.Standard.{PositionLaws};
ghost use Rattle.geometry.specs.TurnLaws.{TurnLaws};

// The table of the eight codes, and that forwards and backwards undo each other and stay inside.
pub fn turn_laws()
    ensures { TurnLaws }
{}

// A centre lies inside, returns where there are at least as many cells as samples, and is a position's whole part.
pub fn centre_laws()
    ensures { CentreLaws }
{}

// A position is the standard's formula, and its whole parts are centres.
pub fn position_laws()
    ensures { PositionLaws }
{}

// What the search answers is free, and every other free spot is lower, or level and further right; none if none is free.
pub fn search_law()
    ensures { SearchLaw }
{}
