// The slots of the service record in code: the opening, the searches for all calls, the count of free slots, and the check that
// a record is in order. No field of a record that comes in is trusted. An inner crate: a search asks where to start.
#![tactic(auto)]

ghost use Rattle.std.specs.Prelude.{◌≡◌, ◌<◌, ◌≤◌, Bool, true, not, length, IfSome};
ghost use Rattle.std.specs.Fn.{FnReturnsAt};
ghost use Rattle.machine.specs.declared.Slot.{Slot};
ghost use Rattle.machine.specs.Rules.{current_rules};
ghost use Rattle.machine.specs.Slots.{slot_count, slot_at, empty_slot, next_place, is_empty, has_steps_left, has_number, first_from, count_of, opening as opening_of};
ghost use Rattle.machine.specs.Order.{filled_fine, in_order as in_order_of};
ghost use Rattle.slots.specs.Searches.{Computes};
ghost use Rattle.slots.specs.Numbers.{numbers_of, slot_fine_after};

use machine::{SLOTS, Service, Slot};

// The slots as many as a field of the record counts them, and the last of them: the search after it begins at slot 0.
const PLACES: u32 = SLOTS as u32;

const LAST_PLACE: u32 = PLACES - 1;

pub fn empty_slot() -> Slot
    ensures { result ≡ empty_slot }
{
    Slot::default()
}

pub fn opening() -> Service
    ensures { result ≡ opening_of current_rules }
{
    Service {
        slots: [empty_slot(); SLOTS],
        last: 0,
        filled: LAST_PLACE,
        served: LAST_PLACE,
    }
}

// The place after a place, counted cyclically. A place is a number and no type of its own: it indexes slots and buffers as it
// is, and each search says that the one it finds is a slot's.
pub fn next_place(place: usize) -> usize
    requires { place < slot_count }
    ensures { (result ≡ next_place slot_count place) × (result < slot_count) }
{
    if place + 1 < SLOTS { place + 1 } else { 0 }
}

// The first slot that passes, counted on cyclically from a place: no iterator goes round, so the turns are counted.
fn find<F: Fn(&Slot) -> bool>(service: &Service, start: usize, passes: F) -> Option<usize>
    requires start_in_bounds { start < slot_count }
    requires callable { F.IsAlwaysCallable passes }
    ensures value { (test : Slot → Bool) → Computes (FnReturnsAt F.Fn passes) test → result ≡ first_from test service.now.slots slot_count start slot_count }
    ensures in_bounds { IfSome result (λ place. place < slot_count) }
    ensures passes { IfSome result (λ place. FnReturnsAt F.Fn passes (slot_at service.now place) true) }
{
    let mut place = start;
    for _ in 0..SLOTS {
        if passes(&service.slots[place]) {
            return Some(place);
        }
        place = next_place(place);
    }
    None
}

pub fn find_empty(service: &Service, start: usize) -> Option<usize>
    requires { start < slot_count }
    ensures value { result ≡ first_from is_empty service.now.slots slot_count start slot_count }
    ensures in_bounds { IfSome result (λ place. place < slot_count) }
{
    find(service, start, |slot| slot.number == 0)
}

pub fn find_with_steps_left(service: &Service, start: usize) -> Option<usize>
    requires { start < slot_count }
    ensures value { result ≡ first_from has_steps_left service.now.slots slot_count start slot_count }
    ensures in_bounds { IfSome result (λ place. place < slot_count) }
    ensures some_left { IfSome result (λ place. 0 < (slot_at service.now place).left) }
{
    find(service, start, |slot| 0 < slot.left)
}

pub fn find_numbered(service: &Service, number: u64) -> Option<usize>
    ensures value { result ≡ first_from (has_number number) service.now.slots slot_count 0 slot_count }
    ensures in_bounds { IfSome result (λ place. place < slot_count) }
{
    find(service, 0, |slot| slot.number == number)
}

// How many slots are filled.
pub fn filled_count(service: &Service) -> u32
    ensures value { result ≡ count_of (λ slot. not (is_empty slot)) service.now.slots slot_count }
    ensures at_most_all { result ≤ slot_count }
{
    service.slots.iter().filter(|slot| slot.number != 0).count() as u32
}

// That a kernel exists follows from f between its bounds, so it is not tested by itself. By `&` each test is made in any case:
// no branch stands between them, and a record in order passes them all.
fn filled_fine(last: u64, slot: &Slot) -> bool
    ensures { result ≡ filled_fine current_rules last slot.now }
{
    kernel::free_fits(slot.covariance(), slot.free, slot.steps)
        & limits::sides_in_range(slot.width, slot.height)
        & limits::fits_buffer(slot.width, slot.height)
        & (slot.number <= last)
        & (slot.left <= slot.steps)
}

// The numbers of the slots.
fn numbers_of(service: &Service) -> [u64; SLOTS]
    ensures { result ≡ numbers_of slot_count service.now.slots }
{
    service.slots.map(|slot| slot.number)
}

// A number that no slot shares with an earlier one is shared with none. Drawn into its callers: a slot that is handed over has to be written
// down and read again, which takes as long as to test it.
#[inline(always)]
pub fn slot_fine(last: u64, before: &[u64], slot: &Slot) -> bool
    ensures { result ≡ slot_fine_after current_rules last before.now (length before.now) slot.now }
{
    if slot.number == 0 {
        return *slot == empty_slot();
    }
    filled_fine(last, slot) & !before.contains(&slot.number)
}

// The test of refusal 2 for a record: it reads no pixel.
pub fn in_order(service: &Service) -> bool
    ensures { result ≡ in_order_of current_rules service.now }
{
    let numbers = numbers_of(service);
    let mut fine = true;
    for (place, slot) in service.slots.iter().enumerate() {
        fine &= slot_fine(service.last, &numbers[..place], slot);
    }
    fine & (service.filled < PLACES) & (service.served < PLACES)
}
