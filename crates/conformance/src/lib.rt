// What the rules give for one small film that was worked through by hand.
#![tactic(auto)]

ghost use Rattle.conformance.specs.Film.{WorkedFilm};

// Does nothing: its contract is all the worked lines together, so the check asks for their proof.
pub fn worked_film()
    ensures { WorkedFilm }
{}
