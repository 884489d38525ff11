//! The exports of a node that calls and serves.
ghost use Rattle.std.specs.Borrow.{sem};
ghost use Rattle.std.specs.Ptr.{points_to, uninit_at};
ghost use Rattle.dt_c.specs.contracts.service_slots.ServiceSlot.{the_row as service_row};
ghost use Rattle.dt_c.specs.declared.service_slots.ServiceSlot.{ServiceSlot};
ghost use Rattle.dt_c.specs.Serving.{CallCounting, Calling, Forgetting, NextEvent, Porting, Raising, Replying, ServiceAddingRoute, ServiceArriving, ServiceCounting, ServiceGuarding, ServiceKeptOut, ServiceNextFrame, ServiceOpening, ServiceShelving, ServiceTicking, ServiceWaking, Stopping, empty_service};

use crate::c_structs::{
    BlockedCounts, CFlow, CParams, CRoute, Datagram, NodeCounts, NodeOptions, OpenResult,
    ReceiveResult,
};
use crate::service_calls::empty_service_slot;
use crate::service_slots::{ServiceHandle, ServiceSlot};
use crate::service_structs::{CCallCounts, CToken, CallResult, Event, ReplyResult, ServiceOptions};
use std::alloc::Global;

/// Makes a handle with no service of fresh memory.
#[unsafe(no_mangle)]
pub unsafe extern "C" fn dt_service_init(service: *mut ServiceHandle)
    requires* { sem 𝓛 (uninit_at service_row service) }
    ensures* { sem 𝓛 (points_to service_row service empty_service) }
{
    unsafe { (service as *mut ServiceSlot).write(empty_service_slot()) }
}

/// Frees what the service holds. The handle holds no service.
#[unsafe(no_mangle)]
pub unsafe extern "C" fn dt_service_close(service: *mut ServiceHandle)
    ghost g: { ServiceSlot }
    requires* { sem 𝓛 (points_to service_row service g) }
    ensures* { sem 𝓛 (points_to service_row service empty_service) }
{
    ServiceSlot::close(unsafe { &mut *(service as *mut ServiceSlot) })
}

/// How many octets a handle of a service takes.
#[unsafe(no_mangle)]
pub extern "C" fn dt_service_size() -> usize {
    std::mem::size_of::<ServiceSlot>()
}

/// To how many octets it is aligned.
#[unsafe(no_mangle)]
pub extern "C" fn dt_service_align() -> usize {
    std::mem::align_of::<ServiceSlot>()
}

/// A service starts, in a handle that holds none.
#[unsafe(no_mangle)]
pub unsafe extern "C" fn dt_service_open(
    service: *mut ServiceHandle,
    alloc: Global,
    params: &CParams,
    options: &NodeOptions<'_>,
    service_options: &ServiceOptions,
) -> OpenResult
    ghost g: { ServiceSlot }
    requires* { sem 𝓛 (points_to service_row service g) }
    ensures* { ∃ₛ (λ h. sem 𝓛 (points_to service_row service h) ∗ ⌜ ServiceOpening result params.now options.now service_options.now g h ⌝) }
{
    ServiceSlot::open(
        unsafe { &mut *(service as *mut ServiceSlot) },
        alloc,
        params,
        options,
        service_options,
    )
}

/// A port gets its kind.
#[unsafe(no_mangle)]
pub unsafe extern "C" fn dt_service_set_port(service: *mut ServiceHandle, port: u16, kind: u8) -> u8
    ghost g: { ServiceSlot }
    requires* { sem 𝓛 (points_to service_row service g) }
    ensures* { ∃ₛ (λ h. sem 𝓛 (points_to service_row service h) ∗ ⌜ Porting result port kind g h ⌝) }
{
    ServiceSlot::set_port(unsafe { &mut *(service as *mut ServiceSlot) }, port, kind)
}

/// A call to a service of another node.
#[unsafe(no_mangle)]
pub unsafe extern "C" fn dt_service_call(
    service: *mut ServiceHandle,
    now: u64,
    flow: &CFlow,
    payload: &[u8],
    patience: u32,
    user: u64,
) -> CallResult
    ghost g: { ServiceSlot }
    requires* { sem 𝓛 (points_to service_row service g) }
    ensures* { ∃ₛ (λ h. sem 𝓛 (points_to service_row service h) ∗ ⌜ Calling result now flow.now payload.now patience user g h ⌝) }
{
    ServiceSlot::call(
        unsafe { &mut *(service as *mut ServiceSlot) },
        now,
        flow,
        payload,
        patience,
        user,
    )
}

/// The reply to a request that was handed out.
#[unsafe(no_mangle)]
pub unsafe extern "C" fn dt_service_reply(
    service: *mut ServiceHandle,
    now: u64,
    token: &CToken,
    payload: &[u8],
) -> ReplyResult
    ghost g: { ServiceSlot }
    requires* { sem 𝓛 (points_to service_row service g) }
    ensures* { ∃ₛ (λ h. sem 𝓛 (points_to service_row service h) ∗ ⌜ Replying result now token.now payload.now g h ⌝) }
{
    ServiceSlot::reply(
        unsafe { &mut *(service as *mut ServiceSlot) },
        now,
        token,
        payload,
    )
}

/// A request won't be replied to.
#[unsafe(no_mangle)]
pub unsafe extern "C" fn dt_service_forget(
    service: *mut ServiceHandle,
    now: u64,
    token: &CToken,
) -> u8
    ghost g: { ServiceSlot }
    requires* { sem 𝓛 (points_to service_row service g) }
    ensures* { ∃ₛ (λ h. sem 𝓛 (points_to service_row service h) ∗ ⌜ Forgetting result now token.now g h ⌝) }
{
    ServiceSlot::forget(unsafe { &mut *(service as *mut ServiceSlot) }, now, token)
}

/// What happened next, where the buffer has room for what it carries.
#[unsafe(no_mangle)]
pub unsafe extern "C" fn dt_service_next_event(
    service: *mut ServiceHandle,
    buf: &mut [u8],
    out: &mut Event,
) -> u8
    ghost g: { ServiceSlot }
    requires* { sem 𝓛 (points_to service_row service g) }
    ensures* { ∃ₛ (λ h. sem 𝓛 (points_to service_row service h) ∗ ⌜ NextEvent result buf.old buf.new out.old out.new g h ⌝) }
{
    ServiceSlot::next_event(unsafe { &mut *(service as *mut ServiceSlot) }, buf, out)
}

/// From now on calls have numbers of this life.
#[unsafe(no_mangle)]
pub unsafe extern "C" fn dt_service_set_life(service: *mut ServiceHandle, life: u32) -> u8
    ghost g: { ServiceSlot }
    requires* { sem 𝓛 (points_to service_row service g) }
    ensures* { ∃ₛ (λ h. sem 𝓛 (points_to service_row service h) ∗ ⌜ Raising result life g h ⌝) }
{
    ServiceSlot::set_life(unsafe { &mut *(service as *mut ServiceSlot) }, life)
}

/// Each call that waits is unsure, and no turn is done any more.
#[unsafe(no_mangle)]
pub unsafe extern "C" fn dt_service_stop(service: *mut ServiceHandle) -> u8
    ghost g: { ServiceSlot }
    requires* { sem 𝓛 (points_to service_row service g) }
    ensures* { ∃ₛ (λ h. sem 𝓛 (points_to service_row service h) ∗ ⌜ Stopping result g h ⌝) }
{
    ServiceSlot::stop(unsafe { &mut *(service as *mut ServiceSlot) })
}

/// A datagram came on a link, and waited so many milliseconds until this call.
#[unsafe(no_mangle)]
pub unsafe extern "C" fn dt_service_receive(
    service: *mut ServiceHandle,
    now: u64,
    link: u16,
    datagram: &[u8],
    waited: u32,
) -> ReceiveResult
    ghost g: { ServiceSlot }
    requires* { sem 𝓛 (points_to service_row service g) }
    ensures* { ∃ₛ (λ h. sem 𝓛 (points_to service_row service h) ∗ ⌜ ServiceArriving result now link datagram.now waited g h ⌝) }
{
    ServiceSlot::receive(
        unsafe { &mut *(service as *mut ServiceSlot) },
        now,
        link,
        datagram,
        waited,
    )
}

/// What is due at `now` is done, and calls whose patience is over end.
#[unsafe(no_mangle)]
pub unsafe extern "C" fn dt_service_tick(service: *mut ServiceHandle, now: u64) -> u8
    ghost g: { ServiceSlot }
    requires* { sem 𝓛 (points_to service_row service g) }
    ensures* { ∃ₛ (λ h. sem 𝓛 (points_to service_row service h) ∗ ⌜ ServiceTicking result now g h ⌝) }
{
    ServiceSlot::tick(unsafe { &mut *(service as *mut ServiceSlot) }, now)
}

/// From now on the service receives at these ports, or at all, and of so many flows at most.
#[unsafe(no_mangle)]
pub unsafe extern "C" fn dt_service_set_guard(
    service: *mut ServiceHandle,
    alloc: Global,
    ports: &[u16],
    all: bool,
    flows: u32,
) -> u8
    ghost g: { ServiceSlot }
    requires* { sem 𝓛 (points_to service_row service g) }
    ensures* { ∃ₛ (λ h. sem 𝓛 (points_to service_row service h) ∗ ⌜ ServiceGuarding result ports.now all flows g h ⌝) }
{
    ServiceSlot::set_guard(
        unsafe { &mut *(service as *mut ServiceSlot) },
        alloc,
        ports,
        all,
        flows,
    )
}

/// From now on so many datagrams that came too early are held at most, and so many of one flow.
#[unsafe(no_mangle)]
pub unsafe extern "C" fn dt_service_set_shelf(
    service: *mut ServiceHandle,
    alloc: Global,
    datagrams: u32,
    of_flow: u32,
) -> u8
    ghost g: { ServiceSlot }
    requires* { sem 𝓛 (points_to service_row service g) }
    ensures* { ∃ₛ (λ h. sem 𝓛 (points_to service_row service h) ∗ ⌜ ServiceShelving result datagrams of_flow g h ⌝) }
{
    ServiceSlot::set_shelf(
        unsafe { &mut *(service as *mut ServiceSlot) },
        alloc,
        datagrams,
        of_flow,
    )
}

/// The first frame that waits, where the buffer has room for it.
#[unsafe(no_mangle)]
pub unsafe extern "C" fn dt_service_next_datagram(
    service: *mut ServiceHandle,
    buf: &mut [u8],
    out: &mut Datagram,
) -> u8
    ghost g: { ServiceSlot }
    requires* { sem 𝓛 (points_to service_row service g) }
    ensures* { ∃ₛ (λ h. sem 𝓛 (points_to service_row service h) ∗ ⌜ ServiceNextFrame result buf.old buf.new out.old out.new g h ⌝) }
{
    ServiceSlot::next_datagram(unsafe { &mut *(service as *mut ServiceSlot) }, buf, out)
}

/// From now on packets to the route's node leave on its link.
#[unsafe(no_mangle)]
pub unsafe extern "C" fn dt_service_add_route(service: *mut ServiceHandle, route: &CRoute) -> u8
    ghost g: { ServiceSlot }
    requires* { sem 𝓛 (points_to service_row service g) }
    ensures* { ∃ₛ (λ h. sem 𝓛 (points_to service_row service h) ∗ ⌜ ServiceAddingRoute result route.now g h ⌝) }
{
    ServiceSlot::add_route(unsafe { &mut *(service as *mut ServiceSlot) }, route)
}

/// The moment of the next tick that does something, or none.
#[unsafe(no_mangle)]
pub unsafe extern "C" fn dt_service_wake(service: *mut ServiceHandle) -> u64
    ghost g: { ServiceSlot }
    requires* { sem 𝓛 (points_to service_row service g) }
    ensures* { ∃ₛ (λ h. sem 𝓛 (points_to service_row service h) ∗ ⌜ ServiceWaking result g h ⌝) }
{
    ServiceSlot::wake(unsafe { &mut *(service as *mut ServiceSlot) })
}

/// What the endpoint counted since it was opened.
#[unsafe(no_mangle)]
pub unsafe extern "C" fn dt_service_get_counts(
    service: *mut ServiceHandle,
    out: &mut NodeCounts,
) -> u8
    ghost g: { ServiceSlot }
    requires* { sem 𝓛 (points_to service_row service g) }
    ensures* { ∃ₛ (λ h. sem 𝓛 (points_to service_row service h) ∗ ⌜ ServiceCounting result out.old out.new g h ⌝) }
{
    ServiceSlot::get_counts(unsafe { &mut *(service as *mut ServiceSlot) }, out)
}

/// How many messages were dropped, by cause.
#[unsafe(no_mangle)]
pub unsafe extern "C" fn dt_service_get_call_counts(
    service: *mut ServiceHandle,
    out: &mut CCallCounts,
) -> u8
    ghost g: { ServiceSlot }
    requires* { sem 𝓛 (points_to service_row service g) }
    ensures* { ∃ₛ (λ h. sem 𝓛 (points_to service_row service h) ∗ ⌜ CallCounting result out.old out.new g h ⌝) }
{
    ServiceSlot::get_call_counts(unsafe { &mut *(service as *mut ServiceSlot) }, out)
}

/// How many datagrams the guard kept out.
#[unsafe(no_mangle)]
pub unsafe extern "C" fn dt_service_get_blocked_counts(service: *mut ServiceHandle) -> BlockedCounts
    ghost g: { ServiceSlot }
    requires* { sem 𝓛 (points_to service_row service g) }
    ensures* { ∃ₛ (λ h. sem 𝓛 (points_to service_row service h) ∗ ⌜ ServiceKeptOut result g h ⌝) }
{
    ServiceSlot::get_blocked_counts(unsafe { &mut *(service as *mut ServiceSlot) })
}
