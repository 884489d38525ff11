//! The context of an act of a send record: the parameters, the flow and the time.
ghost use Rattle.std.specs.Prelude.{◌≤◌};
ghost use Rattle.dt_flow_model.specs.Keeping.{most_moment};

use dt_units::{Flow, Rules};

/// An act of a send record: by which parameters, of which flow, and at what moment, in ms.
#[derive(Clone, Copy, Drop)]
pub struct ActContext<'a> {
    pub rules: &'a Rules,
    pub flow: &'a Flow,
    pub at: u64,
    ghost timely: { at ≤ most_moment },
}
