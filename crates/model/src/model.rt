ghost use Rattle.std.specs.Prelude.{◌≡◌, true};
ghost use Rattle.model.specs.Drafted.{drafted};
ghost use Rattle.model.specs.Reading.{is_valid};

use crate::draft::Draft;

// The place of a model. Whatever it holds is valid: above all, a record names only variables that are there, and none twice.
#[derive(Drop)]
pub struct Model {
    draft: Draft,
    ghost valid: { is_valid (drafted draft) ≡ true },
}

pub mod calls;
