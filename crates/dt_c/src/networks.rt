//! A network as C gives it, and the parameters that suit it.
ghost use Rattle.std.specs.Prelude.{◌≡◌};
ghost use Rattle.dt_c.specs.Networks.{ParamsFor, c_params, network_of};

use crate::c_structs::{CParams, INVALID, NONE, OK, PARAMS_SIZE, has_room};
use dt_params::{Network, parameters_of};
use dt_units::Params;
use std::mem::size_of;

/// A network, and what is wanted of it, as [`Network`] has them.
#[repr(C)]
#[derive(Clone, Copy)]
pub struct CNetwork {
    pub size: u32,
    pub hops: u32,
    pub delay_us: u64,
    pub round_trip_us: u64,
    pub drift_ppm: u32,
    pub tries: u32,
    pub mtu: u32,
    pub room: u32,
    pub wait_ms: u32,
    pub shelved: u32,
}

/// How many octets a network has that says its own size.
pub const NETWORK_SIZE: u32 = 48;

const _: () = prove!(size_of::<CNetwork>() == NETWORK_SIZE as usize);

impl CNetwork {
    pub fn network(&self) -> Network
        ensures { result ≡ network_of self.now }
    {
        Network {
            delay: self.delay_us,
            round_trip: self.round_trip_us,
            hops: self.hops,
            drift: self.drift_ppm,
            tries: self.tries,
            mtu: self.mtu,
            room: self.room,
            wait: self.wait_ms,
            shelved: self.shelved,
        }
    }
}

/// Parameters go into the caller's struct.
fn fill_params(out: &mut CParams, params: &Params)
    ensures { out.new ≡ c_params params.now out.old }
{
    out.mpl = params.mpl;
    out.r = params.r;
    out.a = params.a;
    out.rto = params.rto;
    out.probe = params.probe;
    out.seg = params.seg;
    out.cap = params.cap;
    out.rcap = params.rcap;
    out.window = params.window;
    out.run_limit = params.run_limit;
    out.start = params.start;
}

/// The parameters that suit a network, and the charge of its links.
pub fn params_for(network: &CNetwork, out: &mut CParams, charge: &mut u32) -> u8
    ensures { ParamsFor result network.now out.old out.new charge.old charge.new }
{
    if network.size != NETWORK_SIZE || !has_room(out.size, PARAMS_SIZE) {
        return INVALID;
    }
    let network = network.network();
    if !network.is_network() {
        return INVALID;
    }
    let Some(found) = parameters_of(&network) else {
        return NONE;
    };
    fill_params(out, &found.params);
    *charge = found.charge;
    OK
}
