//! What holds of the messages of every scan.
ghost use Rattle.std.specs.Prelude.{◌≡◌, ℕ, List, map};
ghost use Rattle.world_sim.specs.Worlds.{Worlds};
ghost use Rattle.world_scope.specs.declared.viewer.Seen.{Seen};
ghost use Rattle.client_scope.specs.Changes.{hides, nears, shows};
ghost use Rattle.own_lists.specs.Course.{scan_steps};
ghost use Rattle.own_lists.specs.Past.{showing_of};
ghost use Rattle.race_messages.specs.Steps.{step_for};
ghost use Rattle.race_course.specs.Messages.{scan_messages};

/// The steps of a scan's messages are the steps that the same scan is in a match on one thread.
pub fn messages_are_scan_steps()
    ensures { (w : Worlds) → (client : ℕ) → (scans : List (List Seen)) → map step_for (scan_messages w client scans)
        ≡ scan_steps (hides scans) (nears scans) (map (showing_of w client) (shows scans)) }
{}
