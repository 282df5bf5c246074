// Laws over any states. Each function does nothing: its contract is the law, so the check asks for the proof.
ghost use Rattle.picture.specs.KeptLaws.{RunsFixed, BelowFixed};

use crate::store::Store;

// That picture and remainder of a bottom together fix its sides and its run.
pub fn run_laws<T: Copy>()
    ensures { RunsFixed T }
{}

// That picture and remainder of a layer together fix the picture and the remainder of the store below.
pub fn layer_laws<S: Store>()
    ensures { BelowFixed S.Store.shown S.Store.kept }
{}
