ghost use Rattle.std.specs.Prelude.{◌≡◌, ◌≤◌};
ghost use Rattle.dt_params.specs.Networks.{IsNetwork, AreParametersOf, params_of, retry_span};

use crate::networks::{DAY, Network};
use dt_units::Params;

/// The parameters that suit a network, and the charge of each of its links.
#[derive(Clone, Copy, Debug)]
pub struct NetworkParams {
    pub params: Params,
    /// In milliseconds.
    pub charge: u32,
}

/// The parameters of a network whose segments are sent again for so long, and whose packets live at most so
/// long.
fn params_of(network: &Network, span: u64, mpl: u64) -> Params
    requires network { IsNetwork network.now }
    requires span { span ≡ retry_span network.now }
    requires a_day { span ≤ 86400000 }
    requires some { 2 ≤ mpl }
    requires life { mpl ≤ 86400000 }
    ensures { result ≡ params_of network.now mpl }
{
    let (a, rto) = (network.ack_delay(), network.retry_time());
    Params {
        mpl: mpl as u32,
        r: span as u32,
        a: a as u32,
        rto: rto as u32,
        probe: (2 * rto).min(3 * mpl + span + a - 1) as u32,
        seg: network.segment_size(),
        cap: network.room,
        rcap: network.room,
        window: network.room,
        run_limit: 2_147_483_648,
        start: 0,
    }
}

/// The parameters that suit a network, or none where there are none: a number is out of its range, a
/// packet would have to live for longer than a day, or a parameter would be out of its range.
///
/// `mpl` is the least life of a packet that pays for the longest path. The cost is a few steps for usual
/// clocks, and at most one for each millisecond of a day.
pub fn parameters_of(network: &Network) -> Option<NetworkParams>
    ensures { AreParametersOf result network.now }
{
    if !network.is_network() {
        return None;
    }
    let span = network.retry_span();
    if span > DAY {
        return None;
    }
    let mpl = network.least_life(span)?;
    let params = params_of(network, span, mpl);
    params.check().ok()?;
    Some(NetworkParams {
        params,
        charge: network.charge(span, mpl) as u32,
    })
}
