//! What a prediction keeps.
ghost use Rattle.predict_top.specs.Text.{PredictionLaws};

use client_predict::{accepted_changes_nothing, offset_settles};
use predict_match::value_is_servers;

/// What a prediction keeps of what came, and what it has that the server has too.
pub fn laws_of_predictions()
    ensures { PredictionLaws }
{
    accepted_changes_nothing();
    offset_settles();
    value_is_servers();
}
