//! Laws of the definitions. Each law is the contract of a public function with an empty body.
ghost use Rattle.std.specs.Prelude.{◌≡◌, ◌<◌, ◌^◌, ℕ, All, List, Option, None, Some, length};
ghost use Rattle.dt_edges.specs.Sinks.{SinkSight};
ghost use Rattle.dt_edges.specs.Wires.{Datagram};
ghost use Rattle.dt_log.specs.Logs.{log_text};
ghost use Rattle.dt_node.specs.declared.outcomes.NodeOutcome.{NodeOutcome};
ghost use Rattle.dt_node.specs.declared.output_forms.OutputForm.TheVariants.{Trace};
ghost use Rattle.dt_node.specs.Acts.{fates, log_lines};
ghost use Rattle.dt_node.specs.HandingIn.{IsAgainOf, handed_again, handed_over};
ghost use Rattle.dt_node.specs.InOrder.{InOrder};
ghost use Rattle.dt_node.specs.Repeating.{Repeats, joined};
ghost use Rattle.dt_node.specs.Retracing.{Retraces};
ghost use Rattle.dt_node.specs.Runs.{node_run};
ghost use Rattle.dt_node.specs.Serving.{Edges, IsWhole, Serves};
ghost use Rattle.dt_node.specs.Waiting.{IsShort, Pause, wait_in};
ghost use Rattle.dt_script.specs.Drafts.{script_of};
ghost use Rattle.dt_script.specs.Orders.{Orders};

/// A run tells no `unsent` line of its own, and each frame stands directly after the `put` line of
/// its link. So in a log, where an `unsent` line stands in the place of a frame that was lost, each
/// `unsent` line follows the `put` line of its link directly.
pub fn lines_stand_in_order()
    ensures { (o : Orders) (readings : List ℕ) (takes : List (Option Datagram)) → InOrder None (node_run o readings takes).acts }
{}

/// Each frame that a run hands in again from its shelf is one that a take of the run handed over, on the
/// same link. Its life is less by more than the time since that frame was handed in first, in ms, and
/// nothing else has changed. So its life and its age together don't grow.
pub fn frames_go_in_again_with_less_life()
    ensures { (o : Orders) (readings : List ℕ) (takes : List (Option Datagram))
        → All (IsAgainOf (handed_over readings takes)) (handed_again o readings takes) }
{}

/// A take of a node waits at least 1 ms and at most 1,000 ms, and no longer than to the station's wake and
/// to the next command or the stop, where these are to come; else 1 ms. It waits no shorter than that.
pub fn take_waits_to_what_is_due_first()
    ensures { (pause : Pause) → IsShort pause (wait_in pause) }
{}

/// A run of an accepted script that wrote its trace ended with `Done`, `WireFault` or `ClockStill`, and
/// gave fewer than 2^64 frames. Then [`retrace`](crate::retrace), over the lines of the script, a line
/// `trace` and that trace, ends with the same answer and writes the log of that run octet for octet: the
/// lines of what was done, and an `unsent` line for each frame that was lost. Or it ends with `NoMemory`,
/// or with `WriteFault`, for which the count of faults of the sink rose.
pub fn traced_run_is_run_again()
    ensures { (script : List ℕ) (o : Orders) (outcome : NodeOutcome) (before after : Edges) → script_of script ≡ Some o → (run : Serves Trace o outcome before after) → IsWhole outcome → length (fates run.deeds) < 2 ^ 64
        → (again : NodeOutcome) (old new : SinkSight) → Retraces (joined script run.text) again old new → Repeats (log_text (log_lines o.setup.me run.deeds)) outcome again old new }
{}
