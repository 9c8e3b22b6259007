//! Laws of what a window saw, which the layers above rest on.

ghost use Rattle.std.specs.Prelude.{◌≡◌, ◌≢◌, ℕ, ◌<◌, ◌≤◌, List, ◌++◌, false};
ghost use Rattle.notify_window.specs.Log.{WindowEvent, Unjudged, fate_of, judged_of, is_processed, horizon_of, AreFresh, KeepsProcessed};

/// A verdict never changes, whatever comes later; all packets from 1 to the greatest judged number have one,
/// and no packet above has.
pub fn verdict_is_final()
    ensures same { (s : ℕ) (later log : List WindowEvent) → fate_of s log ≢ Unjudged → fate_of s (later ++ log) ≡ fate_of s log }
    ensures judged { (s : ℕ) (log : List WindowEvent) → 0 < s → s ≤ judged_of log → fate_of s log ≢ Unjudged }
    ensures above { (s : ℕ) (log : List WindowEvent) → judged_of log < s → fate_of s log ≡ Unjudged }
{}

/// At or below the horizon nothing changes any more: what was processed stays so, and what was not never will
/// be. Above the horizon nothing is processed.
pub fn horizon_is_final()
    ensures same { (s : ℕ) (later log : List WindowEvent) → AreFresh later log → s ≤ horizon_of log → KeepsProcessed s later log }
    ensures above { (s : ℕ) (log : List WindowEvent) → horizon_of log < s → is_processed s log ≡ false }
{}
