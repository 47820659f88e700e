// The service's record and answers. The six calls as one state machine are definitions of specs/, and that every
// list of calls keeps demand 3 is a theorem of proofs/; the running calls stand in the crate above.
#![tactic(auto)]

ghost use Rattle.std.specs.Prelude.{◌≡◌};
ghost use Rattle.machine.specs.Change.{slot_from_base, service_from_base};

use kernel::Covariance;

// REFERENCE's eight seats, and the store: 16 buffers, two for each slot, of `limits::BUFFER_PIXELS`.
pub const SLOTS: usize = 8;

pub const BUFFERS: u32 = 16;

pub const BUFFERS_PER_SLOT: u32 = 2;

pub const STORE_PIXELS: usize = BUFFERS as usize * limits::BUFFER_PIXELS;

// One of eight slots (REFERENCE: a seat). Its number is 0 where it is empty, and then all of it is 0: so C's words have it, and the
// definition `is_empty`. `free` is the free number f.
// The entries of its covariance stand one by one, as in the record's words; `covariance` hands them on together.
#[derive(Clone, Copy, Default, PartialEq, Eq)]
pub struct Slot {
    pub number: u64,
    pub xx: i32,
    pub xy: i32,
    pub yy: i32,
    pub steps: u32,
    pub left: u32,
    pub width: u32,
    pub height: u32,
    pub free: u32,
}

impl Slot {
    pub fn covariance(&self) -> Covariance
        ensures { result ≡ record { xx = self.now.xx; xy = self.now.xy; yy = self.now.yy } }
    {
        Covariance {
            xx: self.xx,
            xy: self.xy,
            yy: self.yy,
        }
    }
}

// The service record: the slots, the last number given, the slot last filled and the slot last served.
#[derive(Clone, Copy, PartialEq, Eq)]
pub struct Service {
    pub slots: [Slot; SLOTS],
    pub last: u64,
    pub filled: u32,
    pub served: u32,
}

// The record as it was before slots held f: what the change-over takes. It is what units in the field hold, and stays as it is
// whatever `Slot` and `Service` gain later: so it is no instance of them, and shares no field with them.
#[derive(Clone, Copy)]
pub struct BaseSlot {
    pub number: u64,
    pub xx: i32,
    pub xy: i32,
    pub yy: i32,
    pub steps: u32,
    pub left: u32,
    pub width: u32,
    pub height: u32,
}

#[derive(Clone, Copy)]
pub struct BaseService {
    pub slots: [BaseSlot; SLOTS],
    pub last: u64,
    pub filled: u32,
    pub served: u32,
}

// The old record in the new form: f is 0 until the change-over gives it.
impl From<BaseSlot> for Slot {
    ghost from_gives = { λ old slot. slot ≡ slot_from_base old };

    fn from(old: BaseSlot) -> Slot {
        Slot {
            number: old.number,
            xx: old.xx,
            xy: old.xy,
            yy: old.yy,
            steps: old.steps,
            left: old.left,
            width: old.width,
            height: old.height,
            free: 0,
        }
    }
}

impl From<BaseService> for Service {
    ghost from_gives = { λ old service. service ≡ service_from_base old };

    fn from(old: BaseService) -> Service {
        Service {
            slots: old.slots.map(Slot::from),
            last: old.last,
            filled: old.filled,
            served: old.served,
        }
    }
}

// What a submit, a tick, a collect or a withdraw answers where it is not refused: a job's number, and a tick that has no step to
// make, that it is idle. Two cases of its own, and no Option: the history of calls that `demand_3` speaks of says `Job` and `Idle`.
#[derive(Clone, Copy, PartialEq, Eq)]
pub enum Answer {
    Job(u64),
    Idle,
}
