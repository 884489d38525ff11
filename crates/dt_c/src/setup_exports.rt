//! The exports that make, open, set up and free a node, and what parameters say without one.
ghost use Rattle.std.specs.Prelude.{◌≡◌};
ghost use Rattle.std.specs.Borrow.{sem};
ghost use Rattle.std.specs.Ptr.{points_to, uninit_at};
ghost use Rattle.dt_c.specs.Calls.{AddingRoute, FingerprintIs, Guarding, MakesInbox, Opening, QuietIs, Shelving};
ghost use Rattle.dt_c.specs.Handle.{empty};
ghost use Rattle.dt_c.specs.Networks.{ParamsFor};
ghost use Rattle.dt_c.specs.contracts.slots.Slot.{the_row};
ghost use Rattle.dt_c.specs.declared.slots.Slot.{Slot};

use crate::c_structs::{CParams, CRoute, NodeOptions, OpenResult};
use crate::calls::{empty_slot, fingerprint_in, quiet_of};
use crate::networks::{CNetwork, params_for};
use crate::slots::{Handle, Slot};
use std::alloc::Global;

/// The version of this interface.
#[unsafe(no_mangle)]
pub extern "C" fn dt_abi_version() -> u32
    ensures { result ≡ 2 }
{
    2
}

/// How many octets a handle takes.
#[unsafe(no_mangle)]
pub extern "C" fn dt_node_size() -> usize {
    std::mem::size_of::<Slot>()
}

/// To how many octets a handle is aligned.
#[unsafe(no_mangle)]
pub extern "C" fn dt_node_align() -> usize {
    std::mem::align_of::<Slot>()
}

/// Makes a handle with no node of fresh memory.
#[unsafe(no_mangle)]
pub unsafe extern "C" fn dt_node_init(node: *mut Handle)
    requires* { sem 𝓛 (uninit_at the_row node) }
    ensures* { sem 𝓛 (points_to the_row node empty) }
{
    unsafe { (node as *mut Slot).write(empty_slot()) }
}

/// Frees what the node holds. The handle holds no node.
#[unsafe(no_mangle)]
pub unsafe extern "C" fn dt_node_close(node: *mut Handle)
    ghost g: { Slot }
    requires* { sem 𝓛 (points_to the_row node g) }
    ensures* { sem 𝓛 (points_to the_row node empty) }
{
    Slot::close(unsafe { &mut *(node as *mut Slot) })
}

/// A node starts, in a handle that holds none.
#[unsafe(no_mangle)]
pub unsafe extern "C" fn dt_node_open(
    node: *mut Handle,
    alloc: Global,
    params: &CParams,
    options: &NodeOptions<'_>,
) -> OpenResult
    ghost g: { Slot }
    requires* { sem 𝓛 (points_to the_row node g) }
    ensures* { ∃ₛ (λ h. sem 𝓛 (points_to the_row node h) ∗ ⌜ Opening result params.now options.now g h ⌝) }
{
    Slot::open(unsafe { &mut *(node as *mut Slot) }, alloc, params, options)
}

/// From now on packets to the route's node leave on its link.
#[unsafe(no_mangle)]
pub unsafe extern "C" fn dt_node_add_route(node: *mut Handle, route: &CRoute) -> u8
    ghost g: { Slot }
    requires* { sem 𝓛 (points_to the_row node g) }
    ensures* { ∃ₛ (λ h. sem 𝓛 (points_to the_row node h) ∗ ⌜ AddingRoute result route.now g h ⌝) }
{
    Slot::add_route(unsafe { &mut *(node as *mut Slot) }, route)
}

/// From now on the node receives at these ports, or at all, and of so many flows at most.
#[unsafe(no_mangle)]
pub unsafe extern "C" fn dt_node_set_guard(
    node: *mut Handle,
    alloc: Global,
    ports: &[u16],
    all: bool,
    flows: u32,
) -> u8
    ghost g: { Slot }
    requires* { sem 𝓛 (points_to the_row node g) }
    ensures* { ∃ₛ (λ h. sem 𝓛 (points_to the_row node h) ∗ ⌜ Guarding result ports.now all flows g h ⌝) }
{
    Slot::set_guard(
        unsafe { &mut *(node as *mut Slot) },
        alloc,
        ports,
        all,
        flows,
    )
}

/// From now on so many datagrams that came too early are held at most, and so many of one flow.
#[unsafe(no_mangle)]
pub unsafe extern "C" fn dt_node_set_shelf(
    node: *mut Handle,
    alloc: Global,
    datagrams: u32,
    of_flow: u32,
) -> u8
    ghost g: { Slot }
    requires* { sem 𝓛 (points_to the_row node g) }
    ensures* { ∃ₛ (λ h. sem 𝓛 (points_to the_row node h) ∗ ⌜ Shelving result datagrams of_flow g h ⌝) }
{
    Slot::set_shelf(
        unsafe { &mut *(node as *mut Slot) },
        alloc,
        datagrams,
        of_flow,
    )
}

/// From now on whole messages of at most so many octets are put together.
#[unsafe(no_mangle)]
pub unsafe extern "C" fn dt_node_enable_messages(
    node: *mut Handle,
    alloc: Global,
    longest: usize,
) -> u8
    ghost g: { Slot }
    requires* { sem 𝓛 (points_to the_row node g) }
    ensures* { ∃ₛ (λ h. sem 𝓛 (points_to the_row node h) ∗ ⌜ MakesInbox result longest g h ⌝) }
{
    Slot::enable_messages(unsafe { &mut *(node as *mut Slot) }, alloc, longest)
}

/// How long a node is silent after it starts again, or 0 where a parameter is out of its range.
#[unsafe(no_mangle)]
pub extern "C" fn dt_params_quiet_ms(params: &CParams) -> u64
    ensures { QuietIs result params.now }
{
    quiet_of(params)
}

/// A number that says whether two programs have the same parameters.
#[unsafe(no_mangle)]
pub extern "C" fn dt_params_fingerprint(params: &CParams, fingerprint: &mut u64) -> u8
    ensures { FingerprintIs result fingerprint.new params.now }
{
    fingerprint_in(params, fingerprint)
}

/// The parameters that suit a network, and the charge of each of its links.
#[unsafe(no_mangle)]
pub extern "C" fn dt_params_for(network: &CNetwork, params: &mut CParams, charge: &mut u32) -> u8
    ensures { ParamsFor result network.now params.old params.new charge.old charge.new }
{
    params_for(network, params, charge)
}
