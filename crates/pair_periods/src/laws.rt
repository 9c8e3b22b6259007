//! What is proved of the definitions. Each law is the clause of a function with an empty body.
ghost use Rattle.std.specs.Prelude.{◌≡◌, ℕ, ◌||◌, true, List, ◌∷◌};
ghost use Rattle.tn_types.specs.declared.choices.Drain.{Drain};
ghost use Rattle.tn_types.specs.declared.choices.Read.{Read};
ghost use Rattle.ghost_model.specs.Scope.{shows};
ghost use Rattle.ghost_model.specs.Ghosts.{scope_log};
ghost use Rattle.ghost_model.specs.Legal.{IsUp};
ghost use Rattle.ghost_masks.specs.Plan.{kind_of};
ghost use Rattle.stream_manager.specs.Limits.{Terms};
ghost use Rattle.stream_manager.specs.Server.{ghost_log};
ghost use Rattle.pair_steps.specs.pair_core.History.{PairStep, Pack};
ghost use Rattle.lane_periods.specs.Periods.{has};
ghost use Rattle.lane_periods.specs.Views.{is_drained};
ghost use Rattle.pair_steps.specs.Steps.{shows_in, up_in, traits_in, IsNoPack};
ghost use Rattle.pair_periods.specs.Agreement.{server_log, is_due_after, LeavesUnread};

/// What a list of steps says of periods is what the server's list says.
pub fn steps_tell_periods()
    ensures count { (t : Terms) (steps : List PairStep) → shows (scope_log (ghost_log (server_log t steps))) ≡ shows_in steps }
    ensures kinds { (t : Terms) (steps : List PairStep) (n : ℕ) → kind_of (ghost_log (server_log t steps)) n ≡ (traits_in steps n).kind }
    ensures up { (t : Terms) (steps : List PairStep) (n : ℕ) → IsUp (ghost_log (server_log t steps)) n → has n (up_in steps) ≡ true }
    ensures listed { (t : Terms) (steps : List PairStep) (n : ℕ) → has n (up_in steps) ≡ true → IsUp (ghost_log (server_log t steps)) n }
{}

/// A field stays due after each step but a pack; and what was due or is drained is due after a pack that doesn't read it.
pub fn fields_stay_due()
    ensures steps { (t : Terms) (steps : List PairStep) (step : PairStep) (n field : ℕ) → IsNoPack step
        → is_due_after t steps n field ≡ true → is_due_after t (step ∷ steps) n field ≡ true }
    ensures packs { (t : Terms) (steps : List PairStep) (drains : List Drain) (reads : List Read) (n field : ℕ)
        → LeavesUnread t steps drains reads n field → (is_due_after t steps n field || is_drained drains n field) ≡ true
        → is_due_after t (Pack drains reads ∷ steps) n field ≡ true }
{}
