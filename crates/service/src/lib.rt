// The running service: opening, submit, tick, collect, withdraw, the free count, and the change-over of a record from before
// slots held f. A call is lent the record, and leaves it as it was where it refuses; the store and the pictures are lent, too. Each
// call's contract is an equation with the state machine of `machine`, of which demand 3 is proved. Whatever record comes in is in
// order or refused with 2: no field of it is trusted before.
#![tactic(auto)]

ghost use Rattle.std.specs.Prelude.{◌≡◌, ◌&&◌, true, List, ◌<◌, ◌≤◌, eqb, length, IfOk};
ghost use Rattle.limits.specs.Limits.{fits_buffer, buffer_pixels};
ghost use Rattle.limits.specs.Errors.{first_refusal};
ghost use Rattle.kernel.specs.Choice.{default_choice};
ghost use Rattle.machine.specs.Rules.{base_rules, current_rules};
ghost use Rattle.machine.specs.Slots.{slot_count, slot_at, opening as opening_of};
ghost use Rattle.machine.specs.Store.{store_length};
ghost use Rattle.machine.specs.Order.{in_order};
ghost use Rattle.machine.specs.Calls.{submit_of, tick_of, collect_of, withdraw_of, free_count_of, empty_place, free_buffers, room_checks};
ghost use Rattle.machine.specs.Change.{changed_over, change_checks, change_with, change_of};
ghost use Rattle.service.specs.Called.{size_checks, fill_at, hand_over, job_found};
ghost use Rattle.service.specs.Given.{slot_given, service_given};

use covariance::Shape;
use kernel::Choice;
use limits::ErrorCode;
use machine::{Answer, BUFFERS, BUFFERS_PER_SLOT, BaseService, STORE_PIXELS, Service, Slot};

pub fn opening() -> Service
    ensures { result ≡ opening_of current_rules }
{
    slots::opening()
}

// Refusal 2 of a call that is lent the store, of whose length this is.
fn usable(service: &Service, length: usize) -> bool
    ensures { result ≡ (in_order current_rules service.now && eqb length store_length) }
{
    slots::in_order(service) && length == STORE_PIXELS
}

#[tactic(auto, unfolding(machine::specs::Calls::free_count_of))]
pub fn free_count(service: &Service) -> Result<u32, ErrorCode>
    ensures { result ≡ free_count_of current_rules service.now }
{
    if !slots::in_order(service) {
        return Err(ErrorCode::RecordOutOfOrder);
    }
    Ok(free_buffers(service))
}

#[tactic(auto, unfolding(machine::specs::Calls::free_buffers))]
fn free_buffers(service: &Service) -> u32
    ensures { result ≡ free_buffers current_rules service.now }
{
    BUFFERS - BUFFERS_PER_SLOT * slots::filled_count(service)
}

// The slot of a job: refusal 7 for a number that no slot has, and for 0, which the empty slots have.
fn place_of(service: &Service, number: u64) -> Result<usize, ErrorCode>
    ensures value { result ≡ job_found service.now number }
    ensures in_bounds { IfOk result (λ place. place < slot_count) }
{
    if number == 0 {
        return Err(ErrorCode::NoSuchJob);
    }
    slots::find_numbered(service, number).ok_or(ErrorCode::NoSuchJob)
}

#[tactic(auto, unfolding(machine::specs::Calls::withdraw_of))]
pub fn withdraw(service: &mut Service, number: u64) -> Result<Answer, ErrorCode>
    ensures { (store : List _) → let left = withdraw_of current_rules service.old store number in (result ≡ left.answer) × (service.new ≡ left.service) }
{
    if !slots::in_order(service) {
        return Err(ErrorCode::RecordOutOfOrder);
    }
    let freed = place_of(service, number)?;
    service.slots[freed] = slots::empty_slot();
    Ok(Answer::Job(number))
}

// Refusals 5, 6, 9 and 10 of a submit.
fn job_checks(steps: u32, width: u32, height: u32, length: usize) -> Result<(), ErrorCode>
    ensures { result ≡ first_refusal (size_checks steps width height length) }
{
    if !limits::steps_in_range(steps) {
        return Err(ErrorCode::StepsOutOfRange);
    }
    if !limits::sides_in_range(width, height) {
        return Err(ErrorCode::SideOutOfRange);
    }
    if !limits::fills_picture(length, width, height) {
        return Err(ErrorCode::WrongLength);
    }
    if !limits::fits_buffer(width, height) {
        return Err(ErrorCode::TooManyPixels);
    }
    Ok(())
}

// Refusals 12 and 13.
fn room_checks(service: &Service) -> Result<(), ErrorCode>
    ensures { result ≡ first_refusal (room_checks current_rules service.now) }
{
    if free_buffers(service) < BUFFERS_PER_SLOT {
        return Err(ErrorCode::NoFreeBuffers);
    }
    if service.last == u64::MAX {
        return Err(ErrorCode::NumbersUsedUp);
    }
    Ok(())
}

// A new job takes the first empty slot after the one last filled.
#[tactic(auto, using(machine::proofs::Orderly::filled_lt))]
fn fill(
    service: &mut Service,
    store: &mut [u16],
    slot: Slot,
    pixels: &[u16],
) -> Result<Answer, ErrorCode>
    requires in_order { in_order current_rules service.old ≡ true }
    requires store_long { length store.old ≡ store_length }
    requires pixels_fit { length pixels.now ≤ buffer_pixels }
    ensures { let left = fill_at service.old store.old slot pixels.now (empty_place current_rules service.old) in (result ≡ left.answer) × (service.new ≡ left.service) × (store.new ≡ left.store) }
{
    let start = slots::next_place(service.filled as usize);
    let place = slots::find_empty(service, start).ok_or(ErrorCode::NoFreeBuffers)?;
    buffers::copy_in(store, buffers::buffer_after(place, 0), pixels);
    service.slots[place] = slot;
    service.last = slot.number;
    service.filled = place as u32;
    Ok(Answer::Job(slot.number))
}

// A submit by a choice of the free number, which the job's slot then holds.
pub fn submit_by(
    service: &mut Service,
    store: &mut [u16],
    choice: Choice,
    shape: Shape,
    steps: u32,
    width: u32,
    height: u32,
    pixels: &[u16],
) -> Result<Answer, ErrorCode>
    ensures { let left = submit_of current_rules service.old store.old choice shape steps width height pixels.now in (result ≡ left.answer) × (service.new ≡ left.service) × (store.new ≡ left.store) }
{
    if !usable(service, store.len()) {
        return Err(ErrorCode::RecordOutOfOrder);
    }
    let covariance = covariance::covariance_of(shape)?;
    job_checks(steps, width, height, pixels.len())?;
    let free = kernel::free_by(choice, covariance, steps)?;
    room_checks(service)?;
    let slot = Slot {
        number: service.last + 1,
        xx: covariance.xx,
        xy: covariance.xy,
        yy: covariance.yy,
        steps,
        left: steps,
        width,
        height,
        free,
    };
    fill(service, store, slot, pixels)
}

// A submit that names no choice has the one that holds where none is named: a call that README and CLAIMS name, so it stands.
pub fn submit(
    service: &mut Service,
    store: &mut [u16],
    shape: Shape,
    steps: u32,
    width: u32,
    height: u32,
    pixels: &[u16],
) -> Result<Answer, ErrorCode>
    ensures { let left = submit_of current_rules service.old store.old default_choice shape steps width height pixels.now in (result ≡ left.answer) × (service.new ≡ left.service) × (store.new ≡ left.store) }
{
    submit_by(
        service,
        store,
        Choice::Binomial,
        shape,
        steps,
        width,
        height,
        pixels,
    )
}

// One step of the picture of the slot whose turn it is, which is then the slot last served.
#[tactic(auto, using(machine::proofs::Orderly::served_lt), unfolding(machine::specs::Calls::tick_of, machine::specs::Order::usable))]
pub fn tick(service: &mut Service, store: &mut [u16]) -> Result<Answer, ErrorCode>
    ensures { let left = tick_of current_rules service.old store.old in (result ≡ left.answer) × (service.new ≡ left.service) × (store.new ≡ left.store) }
{
    if !usable(service, store.len()) {
        return Err(ErrorCode::RecordOutOfOrder);
    }
    let start = slots::next_place(service.served as usize);
    let Some(place) = slots::find_with_steps_left(service, start) else {
        return Ok(Answer::Idle);
    };
    buffers::step_slot(store, &service.slots[place], place);
    service.slots[place].left -= 1;
    service.served = place as u32;
    Ok(Answer::Job(service.slots[place].number))
}

// A collect of the job in a slot: refusals 8 and 9, else the picture and an empty slot.
fn hand_over(
    service: &mut Service,
    store: &[u16],
    number: u64,
    place: usize,
    lent: &mut [u16],
) -> Result<Answer, ErrorCode>
    requires store_long { length store.now ≡ store_length }
    requires place_in_bounds { place < slot_count }
    requires fits { fits_buffer (slot_at service.old place).width (slot_at service.old place).height ≡ true }
    requires left_le_steps { (slot_at service.old place).left ≤ (slot_at service.old place).steps }
    ensures { let left = hand_over service.old store.now number lent.old place in (result ≡ left.answer) × (service.new ≡ left.service) × (lent.new ≡ left.lent) }
{
    let slot = service.slots[place];
    if 0 < slot.left {
        return Err(ErrorCode::StepsAreLeft);
    }
    if !limits::fills_picture(lent.len(), slot.width, slot.height) {
        return Err(ErrorCode::WrongLength);
    }
    let done = (slot.steps - slot.left) as usize;
    buffers::copy_out(store, buffers::buffer_after(place, done), lent);
    service.slots[place] = slots::empty_slot();
    Ok(Answer::Job(number))
}

#[tactic(auto, unfolding(machine::specs::Calls::collect_of, machine::specs::Calls::collect_checks, machine::specs::Order::usable))]
pub fn collect(
    service: &mut Service,
    store: &[u16],
    number: u64,
    lent: &mut [u16],
) -> Result<Answer, ErrorCode>
    ensures { let left = collect_of current_rules service.old store.now number lent.old in (result ≡ left.answer) × (service.new ≡ left.service) × (lent.new ≡ left.lent) }
{
    if !usable(service, store.len()) {
        return Err(ErrorCode::RecordOutOfOrder);
    }
    let place = place_of(service, number)?;
    hand_over(service, store, number, place, lent)
}

// The slot with the smallest free number, and an empty one with 0. Where no kernel exists it is 0, too: the record is refused then.
fn given(slot: Slot) -> Slot
    ensures { result ≡ slot_given slot }
{
    if slot.number == 0 {
        return Slot { free: 0, ..slot };
    }
    let smallest = kernel::free_by(Choice::Smallest, slot.covariance(), slot.steps);
    Slot {
        free: smallest.unwrap_or(0),
        ..slot
    }
}

fn all_given(service: Service) -> Service
    ensures { result ≡ service_given service }
{
    Service {
        slots: service.slots.map(given),
        ..service
    }
}

// The change-over of a record whose free numbers count for nothing. The record that it makes is in order exactly where the old one is
// by the old rule, so that one test serves both.
pub fn changed_over(service: Service) -> Result<Service, ErrorCode>
    ensures { result ≡ change_with (change_checks base_rules service) (changed_over service) }
{
    let next = all_given(service);
    if !slots::in_order(&next) {
        return Err(ErrorCode::RecordOutOfOrder);
    }
    Ok(next)
}

// The change-over of a unit while it runs: the old record becomes a new one, or is refused with 2.
pub fn change_over(old: BaseService) -> Result<Service, ErrorCode>
    ensures { result ≡ change_of old }
{
    changed_over(Service::from(old))
}
